//! Lists of names.

ghost use Rattle.std.specs.Prelude.{◌≡◌, IfOk};

use chex_base::{NoMemory, Text};
use std::alloc::Global;
use std::marker::Model;

/// Names in order. Contracts see the list.
#[derive(Drop)]
pub struct Names {
    items: Vec<Text>,
}

impl Model for Names {
    ghost use Rattle.std.specs.Prelude.{ℕ, List};

    ghost Value = { List (List ℕ) };

    ghost view = { λ names. names.items.items };
}

impl Names {
    /// These names, in their order. Takes no memory.
    pub fn from_vec(items: Vec<Text>) -> Names
        ensures { result ≡ items.items }
    {
        Names { items }
    }

    /// The names, in their order. Takes no memory.
    pub fn into_vec(self) -> Vec<Text>
        ensures { result.items ≡ self }
    {
        let Names { items } = self;
        items
    }

    /// The names, in their order.
    pub fn as_slice(&self) -> &[Text]
        ensures { result.now ≡ self.now }
    {
        self.items.as_slice()
    }

    /// An equal list.
    pub fn copy(&self, alloc: Global) -> Result<Names, NoMemory>
        ensures { IfOk result (λ copy. copy ≡ self.now) }
    {
        let mut copies = Vec::new(alloc);
        for name in &self.items {
            copies.push(name.copy(alloc)?)?;
        }
        Ok(Names { items: copies })
    }
}
