//! The blocks of local names that a function's code sees.
ghost use Rattle.std.specs.Prelude.{◌≡◌, OnOk, OnErr, [], ◌∷◌};
ghost use Rattle.std.specs.Option.{option_copied};
ghost use Rattle.star_meaning.specs.World.{slot_of, rebound, without_first};

use crate::slots::Slots;
use chex_base::{NoMemory, Text};
use star_value::Value;
use std::alloc::Global;
use std::marker::Model;

/// Blocks of local names. Contracts see the list of the blocks, the innermost first.
#[derive(Drop)]
pub struct Blocks {
    // the innermost last
    blocks: Vec<Slots>,
}

impl Model for Blocks {
    ghost use Rattle.std.specs.Prelude.{List, reverse};
    ghost use Rattle.star_meaning.specs.World.{Block};
    ghost use Rattle.star_value.specs.contracts.value.Value as v;
    ghost use Rattle.std.specs.Coded.{codes};

    ghost Value = { List Block };

    ghost coded = { Prim.hlevel (codes, v.the_row.coded) };

    ghost view = { λ b. reverse b.blocks.items };
}

impl Blocks {
    /// No blocks.
    pub fn new(alloc: Global) -> Blocks
        ensures { result ≡ [] }
    {
        Blocks {
            blocks: Vec::new(alloc),
        }
    }

    /// A block becomes the innermost; where memory is wanting nothing changes.
    pub fn enter(&mut self, block: Slots) -> Result<(), NoMemory>
        ensures ok { OnOk result (self.new ≡ block ∷ self.old) }
        ensures err { OnErr result (self.new ≡ self.old) }
    {
        self.blocks.push(block)?;
        Ok(())
    }

    /// The innermost block goes.
    pub fn leave(&mut self)
        ensures { self.new ≡ without_first self.old }
    {
        let _block = self.blocks.pop();
    }

    /// What the innermost block that has a name has there.
    pub fn slot(&self, name: &Text) -> Option<&Option<Value>>
        ensures { option_copied result ≡ slot_of self.now name.now }
    {
        let blocks = self.blocks.as_slice();
        let mut left = blocks.len();
        while left > 0 {
            left -= 1;
            if let Some(slot) = blocks[left].named(name) {
                return Some(slot);
            }
        }
        None
    }

    /// Binds a name in the innermost block that has it.
    pub fn bind(&mut self, name: &Text, value: Value)
        ensures { self.new ≡ rebound self.old name.now value }
    {
        let mut left = self.blocks.len();
        while left > 0 {
            left -= 1;
            if self.blocks[left].named(name).is_some() {
                self.blocks[left].bind(name, value);
                return;
            }
        }
    }
}
