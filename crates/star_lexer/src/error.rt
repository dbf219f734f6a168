//! What is wrong with a source.
use std::alloc::{AllocError, AllocFailed};
use thiserror::Error;

/// What is wrong with a token or an indentation; the rules stand in docs/LANGUAGE.md.
#[derive(Clone, Copy, Debug, PartialEq, Eq)]
pub enum LexKind {
    /// No token begins with this character here.
    BadCharacter,
    /// A tab in an indentation, or a column that is not open.
    BadIndent,
    /// A text does not end.
    OpenString,
    /// A backslash in a text with which no escape begins.
    BadEscape,
    /// Not written as a number is, or directly before a letter, a digit or `_`.
    BadNumber,
    /// A number past 2^127 - 1.
    WideNumber,
    /// A word that no source may use.
    ReservedWord,
    /// More than 32 open brackets and open columns past the first.
    TooNested,
}

/// Why a source has no tokens: its first fault, or want of memory.
#[derive(Clone, Copy, Debug, PartialEq, Eq, Error)]
pub enum LexFault {
    /// The first fault in text order. Its line is 1 plus the number of newlines before the faulty token or
    /// indentation, or before the backslash of a BadEscape.
    #[error("{kind:?} at line {line}")]
    Bad { kind: LexKind, line: u32 },
    #[error("no memory")]
    NoMemory,
}

/// Why no token is read at a place.
#[derive(Clone, Copy, Debug)]
pub enum Fault {
    /// `place` characters stand between the token's start and what is wrong.
    Bad { kind: LexKind, place: usize },
    NoMemory,
}

impl From<AllocError> for Fault {
    ghost use Rattle.std.specs.Prelude.{◌≡◌};
    ghost use Rattle.star_lexer.specs.declared.error.Fault.TheVariants.{NoMemory};

    ghost from_gives = { λ _ e. e ≡ NoMemory };

    fn from(_error: AllocError) -> Fault {
        Fault::NoMemory
    }
}

impl From<AllocError> for LexFault {
    ghost use Rattle.std.specs.Prelude.{◌≡◌};
    ghost use Rattle.star_lexer.specs.declared.error.LexFault.TheVariants.{NoMemory};

    ghost from_gives = { λ _ e. e ≡ NoMemory };

    fn from(_error: AllocError) -> LexFault {
        LexFault::NoMemory
    }
}

impl<T: Drop> From<AllocFailed<T>> for Fault {
    ghost use Rattle.std.specs.Prelude.{◌≡◌};
    ghost use Rattle.star_lexer.specs.declared.error.Fault.TheVariants.{NoMemory};

    ghost from_gives = { λ _ e. e ≡ NoMemory };

    fn from(_error: AllocFailed<T>) -> Fault {
        Fault::NoMemory
    }
}

impl<T: Drop> From<AllocFailed<T>> for LexFault {
    ghost use Rattle.std.specs.Prelude.{◌≡◌};
    ghost use Rattle.star_lexer.specs.declared.error.LexFault.TheVariants.{NoMemory};

    ghost from_gives = { λ _ e. e ≡ NoMemory };

    fn from(_error: AllocFailed<T>) -> LexFault {
        LexFault::NoMemory
    }
}

impl From<chex_base::NoMemory> for Fault {
    ghost use Rattle.std.specs.Prelude.{◌≡◌};
    ghost use Rattle.star_lexer.specs.declared.error.Fault.TheVariants.{NoMemory};

    ghost from_gives = { λ _ e. e ≡ NoMemory };

    fn from(_error: chex_base::NoMemory) -> Fault {
        Fault::NoMemory
    }
}
