//! The versions that are to run, as their files give them.
ghost use Rattle.std.specs.Prelude.{◌≡◌, ◌++◌, ◌∷◌, [], OnOk, OnErr};

use chex_base::{Inputs, NoMemory, Text};
use nb_reader::Sources;
use plan_type::Budget;
use std::alloc::Global;
use std::marker::Model;

/// A version: its name, the sources of its code cells, and its inputs.
#[derive(Drop)]
pub struct Version {
    pub name: Text,
    pub sources: Sources,
    pub inputs: Inputs,
}

/// Versions in order, which contracts see as a list.
#[derive(Drop)]
pub struct Versions {
    items: Vec<Version>,
}

impl Model for Versions {
    ghost use Rattle.std.specs.Prelude.{List};
    ghost use Rattle.chex_top.specs.declared.version.Version.{Version};

    ghost Value = { List Version };

    ghost view = { λ versions. versions.items.items };
}

impl Versions {
    /// No versions, which take no memory.
    pub fn new(alloc: Global) -> Versions
        ensures { result ≡ [] }
    {
        Versions {
            items: Vec::new(alloc),
        }
    }

    /// Adds a version at the end; a refused one is dropped.
    pub fn add(&mut self, version: Version) -> Result<(), NoMemory>
        ensures ok { OnOk result (self.new ≡ self.old ++ version ∷ []) }
        ensures err { OnErr result (self.new ≡ self.old) }
    {
        self.items.push(version)?;
        Ok(())
    }

    /// The versions, in order. It takes no memory.
    pub fn into_vec(self) -> Vec<Version>
        ensures { result.items ≡ self }
    {
        let Versions { items } = self;
        items
    }
}

/// What is to run, as the words and the files say it.
#[derive(Drop)]
pub enum Job {
    /// One version alone, with so many steps for each cell.
    Alone {
        version: Version,
        steps: u64,
    },
    /// Versions that share their equal beginnings, within a budget, with so many steps for each
    /// cell.
    Shared {
        versions: Versions,
        budget: Budget,
        steps: u64,
    },
}
