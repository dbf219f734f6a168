//! Why a statement does not end.
ghost use Rattle.std.specs.Prelude.{◌≡◌};
ghost use Rattle.star_run.specs.Halts as spec;

use chex_base::NoMemory;
use star_value::{Failure, Stop};
use std::alloc::{AllocError, AllocFailed};

/// Why a statement does not end: the cell fails, at the line of the innermost statement, or memory
/// was wanting.
#[derive(Clone, Copy, Debug, PartialEq, Eq)]
pub enum Halt {
    Failed(Failure, u32),
    NoMemory,
}

/// The same, at a line.
pub fn at_line(stop: Stop, line: u32) -> Halt
    ensures { result ≡ spec.at_line line stop }
{
    match stop {
        Stop::Failure(failure) => Halt::Failed(failure, line),
        Stop::NoMemory => Halt::NoMemory,
    }
}

impl From<AllocError> for Halt {
    ghost use Rattle.star_run.specs.declared.halt.Halt.TheVariants.{NoMemory};

    ghost from_gives = { λ _ e. e ≡ NoMemory };

    fn from(_: AllocError) -> Halt {
        Halt::NoMemory
    }
}

impl<T: Drop> From<AllocFailed<T>> for Halt {
    ghost use Rattle.star_run.specs.declared.halt.Halt.TheVariants.{NoMemory};

    ghost from_gives = { λ _ e. e ≡ NoMemory };

    fn from(_: AllocFailed<T>) -> Halt {
        Halt::NoMemory
    }
}

impl From<NoMemory> for Halt {
    ghost use Rattle.star_run.specs.declared.halt.Halt.TheVariants as halt;

    ghost from_gives = { λ _ e. e ≡ halt.NoMemory };

    fn from(_: NoMemory) -> Halt {
        Halt::NoMemory
    }
}
