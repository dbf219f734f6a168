//! Why an operation has no result.
ghost use Rattle.std.specs.Prelude.{◌≡◌};

use crate::Failure;
use chex_base::NoMemory;
use std::alloc::{AllocError, AllocFailed};

/// Why an operation has no result: the cell fails, or memory was wanting.
#[derive(Clone, Copy, Debug, PartialEq, Eq)]
pub enum Stop {
    Failure(Failure),
    NoMemory,
}

impl From<AllocError> for Stop {
    ghost use Rattle.star_value.specs.declared.stop.Stop.TheVariants.{NoMemory};

    ghost from_gives = { λ _ e. e ≡ NoMemory };

    fn from(_: AllocError) -> Stop {
        Stop::NoMemory
    }
}

impl<T: Drop> From<AllocFailed<T>> for Stop {
    ghost use Rattle.star_value.specs.declared.stop.Stop.TheVariants.{NoMemory};

    ghost from_gives = { λ _ e. e ≡ NoMemory };

    fn from(_: AllocFailed<T>) -> Stop {
        Stop::NoMemory
    }
}

impl From<NoMemory> for Stop {
    ghost use Rattle.star_value.specs.declared.stop.Stop.TheVariants as stop;

    ghost from_gives = { λ _ e. e ≡ stop.NoMemory };

    fn from(_: NoMemory) -> Stop {
        Stop::NoMemory
    }
}

impl From<Failure> for Stop {
    ghost use Rattle.star_value.specs.declared.stop.Stop.TheVariants as stop;

    ghost from_gives = { λ failure e. e ≡ stop.Failure failure };

    fn from(failure: Failure) -> Stop {
        Stop::Failure(failure)
    }
}
