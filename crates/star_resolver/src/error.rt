//! What is wrong with a tree.
ghost use Rattle.std.specs.Prelude.{◌≡◌};

use std::alloc::{AllocError, AllocFailed};
use thiserror::Error;

/// Which rule of placement is broken; the rules stand in docs/LANGUAGE.md.
#[derive(Clone, Copy, Debug, PartialEq, Eq)]
pub enum ResolveKind {
    /// A `def` that does not stand directly in the cell.
    NestedDef,
    /// A `return` outside a `def`.
    MisplacedReturn,
    /// A `break` or `continue` outside a `for` of the same function or cell.
    MisplacedBreak,
    /// The name `input` anywhere but as `input(TEXT)` with one text literal.
    InputNotLiteral,
    /// A parameter with the name of one before it.
    RepeatedParameter,
}

impl ResolveKind {
    /// The breach of this rule in the statement of this line.
    pub fn at(self, line: u32) -> ResolveFault
        ensures { result ≡ ResolveFault.Bad self line }
    {
        ResolveFault::Bad { kind: self, line }
    }
}

/// Why there is no cell: the first breach of a rule, or want of memory.
#[derive(Clone, Copy, Debug, PartialEq, Eq, Error)]
pub enum ResolveFault {
    /// The first breach in text order. Its line is that of the innermost statement in which it
    /// stands, from 1; a statement that is out of place stands in itself.
    #[error("{kind:?} at line {line}")]
    Bad { kind: ResolveKind, line: u32 },
    #[error("no memory")]
    NoMemory,
}

impl From<AllocError> for ResolveFault {
    ghost use Rattle.star_resolver.specs.declared.error.ResolveFault.TheVariants.{NoMemory};

    ghost from_gives = { λ _ e. e ≡ NoMemory };

    fn from(_: AllocError) -> ResolveFault {
        ResolveFault::NoMemory
    }
}

impl<T: Drop> From<AllocFailed<T>> for ResolveFault {
    ghost use Rattle.star_resolver.specs.declared.error.ResolveFault.TheVariants.{NoMemory};

    ghost from_gives = { λ _ e. e ≡ NoMemory };

    fn from(_: AllocFailed<T>) -> ResolveFault {
        ResolveFault::NoMemory
    }
}

impl From<chex_base::NoMemory> for ResolveFault {
    ghost use Rattle.star_resolver.specs.declared.error.ResolveFault.TheVariants as fault;

    ghost from_gives = { λ _ e. e ≡ fault.NoMemory };

    fn from(_: chex_base::NoMemory) -> ResolveFault {
        ResolveFault::NoMemory
    }
}
