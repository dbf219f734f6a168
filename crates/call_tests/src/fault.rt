//! Why a row was not run.

use chex_base::NoMemory;
use star_lexer::LexFault;
use star_parser::ParseFault;
use star_value::{Failure, Stop};
use std::alloc::{AllocError, AllocFailed};

/// Why a row has no answer that could be compared.
#[derive(Clone, Copy, Debug, PartialEq, Eq)]
pub enum Fault {
    /// The row is no call of the kinds that are run here, or its values cannot be made.
    Unread,
    NoMemory,
}

impl From<NoMemory> for Fault {
    fn from(_: NoMemory) -> Fault {
        Fault::NoMemory
    }
}

impl From<AllocError> for Fault {
    fn from(_: AllocError) -> Fault {
        Fault::NoMemory
    }
}

impl<T: Drop> From<AllocFailed<T>> for Fault {
    fn from(_: AllocFailed<T>) -> Fault {
        Fault::NoMemory
    }
}

impl From<Failure> for Fault {
    fn from(_: Failure) -> Fault {
        Fault::Unread
    }
}

impl From<Stop> for Fault {
    fn from(stop: Stop) -> Fault {
        match stop {
            Stop::Failure(_) => Fault::Unread,
            Stop::NoMemory => Fault::NoMemory,
        }
    }
}

impl From<LexFault> for Fault {
    fn from(fault: LexFault) -> Fault {
        match fault {
            LexFault::Bad { .. } => Fault::Unread,
            LexFault::NoMemory => Fault::NoMemory,
        }
    }
}

impl From<ParseFault> for Fault {
    fn from(fault: ParseFault) -> Fault {
        match fault {
            ParseFault::Unexpected { .. } => Fault::Unread,
            ParseFault::NoMemory => Fault::NoMemory,
        }
    }
}
