//! The inputs of a version.
ghost use Rattle.std.specs.Prelude.{◌≡◌, ◌≢◌, ℕ, List, [], IfOk, OnErr, OnOk};
ghost use Rattle.std.specs.Option.{option_copied};
ghost use Rattle.chex_base.specs.Inputs.{value_of, with_value, IsRising};

use crate::{Input, NoMemory, Text};
use std::alloc::Global;
use std::collections::BTreeMap;
use std::marker::Model;

/// A finite map from names to values. Contracts see the list of its pairs in rising byte order of
/// the names, each name once, so maps are equal where they give the same names the same values. That
/// the names rise is kept by the type.
#[derive(Drop)]
pub struct Inputs {
    values: BTreeMap<Text, Input>,
}

impl Model for Inputs {
    ghost use Rattle.std.specs.Prelude.{ℕ, List};
    ghost use Rattle.chex_base.specs.declared.input.Input.{Input};

    ghost Value = { List (List ℕ × Input) };

    ghost view = { λ inputs. inputs.values.entries };

    ghost use Rattle.chex_base.specs.Inputs.{IsRising};

    ghost invariant = { λ inputs. IsRising inputs.values.entries };
}

impl Inputs {
    /// The empty map, which takes no memory.
    pub fn new(alloc: Global) -> Inputs
        ensures { result ≡ [] }
    {
        Inputs {
            values: BTreeMap::new(alloc),
        }
    }

    /// The value of a name, if the map has one. It takes no memory.
    pub fn get(&self, name: &Text) -> Option<&Input>
        ensures value { option_copied result ≡ value_of self.now name.now }
        ensures rising { IsRising self.now }
    {
        self.values.get(name)
    }

    /// Gives a name its value, and changes no other name. Where memory is wanting both arguments
    /// are dropped, and the map stays as it was.
    pub fn set(&mut self, name: Text, value: Input) -> Result<(), NoMemory>
        ensures ok { OnOk result (self.new ≡ with_value self.old name value) }
        ensures named { OnOk result (value_of self.new name ≡ Some value) }
        ensures others { OnOk result ((other : List ℕ) → other ≢ name → value_of self.new other ≡ value_of self.old other) }
        ensures rising { IsRising self.new }
        ensures err { OnErr result (self.new ≡ self.old) }
    {
        self.values.insert(name, value)?;
        Ok(())
    }

    /// An equal map.
    pub fn copy(&self, alloc: Global) -> Result<Inputs, NoMemory>
        ensures equal { IfOk result (λ copy. copy ≡ self.now) }
        ensures rising { IsRising self.now }
    {
        let mut copy = Inputs::new(alloc);
        for (name, value) in self.values.iter() {
            copy.set(name.copy(alloc)?, value.copy(alloc)?)?;
        }
        Ok(copy)
    }
}
