//! A version that was made, and the list of them.
ghost use Rattle.std.specs.Prelude.{◌≡◌, ◌++◌, ◌∷◌, [], OnOk, OnErr};

use crate::sources::Sources;
use chex_base::{NoMemory, Text};
use std::alloc::Global;
use std::marker::Model;

/// A version: its name and the sources of its cells. It has no inputs.
#[derive(Drop)]
pub struct Version {
    pub name: Text,
    pub sources: Sources,
}

/// Versions in order, which contracts see as a list.
#[derive(Drop)]
pub struct Versions {
    items: Vec<Version>,
}

impl Model for Versions {
    ghost use Rattle.std.specs.Prelude.{List};
    ghost use Rattle.tree_maker.specs.declared.version.Version.{Version};

    ghost Value = { List Version };

    ghost view = { λ versions. versions.items.items };
}

impl Versions {
    /// No versions. It takes no memory.
    pub(crate) fn new(alloc: Global) -> Versions
        ensures { result ≡ [] }
    {
        Versions {
            items: Vec::new(alloc),
        }
    }

    /// Adds a version at the end. A refused one is dropped, and the versions stay as they were.
    pub(crate) fn add(&mut self, version: Version) -> Result<(), NoMemory>
        ensures ok { OnOk result (self.new ≡ self.old ++ version ∷ []) }
        ensures err { OnErr result (self.new ≡ self.old) }
    {
        self.items.push(version)?;
        Ok(())
    }

    /// The versions, in order. It takes no memory.
    pub fn as_slice(&self) -> &[Version]
        ensures { result.now ≡ self.now }
    {
        self.items.as_slice()
    }

    /// The versions themselves, to be taken apart. It takes no memory.
    pub fn into_vec(self) -> Vec<Version>
        ensures { result.items ≡ self }
    {
        self.items
    }
}
