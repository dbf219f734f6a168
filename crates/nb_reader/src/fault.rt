//! Why an input file is refused.
ghost use Rattle.std.specs.Prelude.{◌≡◌};
ghost use Rattle.nb_reader.specs.declared.fault.NbFault.TheVariants.{NoMemory};

use chex_base::Text;
use std::alloc::{AllocError, AllocFailed};

/// What there was too much of. The limits are in docs/FORMATS.md.
#[derive(Clone, Copy, Debug, PartialEq, Eq)]
pub enum Counted {
    /// Bytes of a file. The readers leave this count to their caller, who knows the file.
    Bytes,
    /// Versions of a manifest.
    Versions,
    /// Code cells of a notebook.
    CodeCells,
    /// Names of an inputs file.
    Inputs,
    /// Bytes of one code cell's joined source.
    CellBytes,
}

/// The first reason for which a file is refused. Each reason comes exactly where docs/FORMATS.md
/// has it first; want of memory can come in place of each answer. Indexes count from 1.
#[derive(Debug, PartialEq, Eq, Drop)]
pub enum NbFault {
    /// The bytes are no JSON value.
    NotJson,
    /// The value is no object.
    NotObject,
    /// The notebook's `nbformat` is not the integer 4.
    WrongFormat {
        /// The integer that stands there, if it is one from 0 up.
        found: Option<u64>,
    },
    /// The notebook's `cells` is no list.
    NoCells,
    /// An element of `cells` is no cell, or a code cell has no source.
    BadCell {
        /// The element's place, from 1.
        index: u32,
    },
    /// The manifest's `versions` is no list.
    NoVersions,
    /// An element of `versions` is no version.
    BadVersion {
        /// The element's place, from 1.
        index: u32,
    },
    /// Two versions have one name.
    RepeatedName {
        /// The first name that stood before.
        name: Text,
    },
    /// An input's value is of no kind that an input may have.
    BadInput {
        /// The first such name in byte order.
        name: Text,
    },
    /// A count passes its limit.
    TooMany {
        /// What was counted.
        what: Counted,
        /// How many there are.
        count: u64,
    },
    /// Memory was wanting.
    NoMemory,
}

impl From<AllocError> for NbFault {
    ghost from_gives = { λ _ e. e ≡ NoMemory };

    fn from(_: AllocError) -> Self {
        NbFault::NoMemory
    }
}

impl<T: Drop> From<AllocFailed<T>> for NbFault {
    ghost from_gives = { λ _ e. e ≡ NoMemory };

    fn from(_: AllocFailed<T>) -> Self {
        NbFault::NoMemory
    }
}

impl From<chex_base::NoMemory> for NbFault {
    ghost from_gives = { λ _ e. e ≡ NoMemory };

    fn from(_: chex_base::NoMemory) -> Self {
        NbFault::NoMemory
    }
}
