//! Why no tree is read.
use chex_base::NoMemory;
use std::alloc::AllocError;
use thiserror::Error;

/// Why a rule of the grammar reads no tree. At `Unexpected` the cursor stands at the refused token.
#[derive(Clone, Copy, Debug, PartialEq, Eq)]
pub enum Fault {
    NoMemory,
    /// No tree goes on with the next token.
    Unexpected,
}

/// Why tokens are not read as the tree of a cell.
#[derive(Clone, Copy, Debug, PartialEq, Eq, Error)]
pub enum ParseFault {
    /// The tokens before this place, counted from 0, begin the tokens of a cell; with the one at it they
    /// begin none.
    #[error("unexpected token at place {place}")]
    Unexpected { place: usize },
    #[error("no memory")]
    NoMemory,
}

impl From<NoMemory> for Fault {
    ghost use Rattle.std.specs.Prelude.{◌≡◌};
    ghost use Rattle.star_parser.specs.declared.fault.Fault.TheVariants as fault;

    ghost from_gives = { λ _ e. e ≡ fault.NoMemory };

    fn from(_: NoMemory) -> Fault {
        Fault::NoMemory
    }
}

impl From<AllocError> for Fault {
    ghost use Rattle.std.specs.Prelude.{◌≡◌};
    ghost use Rattle.star_parser.specs.declared.fault.Fault.TheVariants as fault;

    ghost from_gives = { λ _ e. e ≡ fault.NoMemory };

    fn from(_: AllocError) -> Fault {
        Fault::NoMemory
    }
}
