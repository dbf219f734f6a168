//! The sources of a version's cells.
ghost use Rattle.std.specs.Prelude.{◌≡◌, ◌∷◌, ◌++◌, [], OnOk, OnErr};

use chex_base::{NoMemory, Text};
use std::alloc::Global;
use std::marker::Model;

/// The sources of a version's cells in order, which contracts see as a list of texts.
#[derive(Drop)]
pub struct Sources {
    texts: Vec<Text>,
}

impl Model for Sources {
    ghost use Rattle.std.specs.Prelude.{ℕ, List};

    ghost Value = { List (List ℕ) };

    ghost view = { λ s. s.texts.items };
}

impl Sources {
    /// No sources. It takes no memory.
    pub(crate) fn new(alloc: Global) -> Sources
        ensures { result ≡ [] }
    {
        Sources {
            texts: Vec::new(alloc),
        }
    }

    /// Adds a source at the end. A refused one is dropped, and the sources stay as they were.
    pub(crate) fn add(&mut self, text: Text) -> Result<(), NoMemory>
        ensures ok { OnOk result (self.new ≡ self.old ++ text ∷ []) }
        ensures err { OnErr result (self.new ≡ self.old) }
    {
        self.texts.push(text)?;
        Ok(())
    }

    /// The sources, in order. It takes no memory.
    pub fn as_slice(&self) -> &[Text]
        ensures { result.now ≡ self.now }
    {
        self.texts.as_slice()
    }

    /// The texts themselves. It takes no memory.
    pub fn into_vec(self) -> Vec<Text>
        ensures { result.items ≡ self }
    {
        self.texts
    }
}
