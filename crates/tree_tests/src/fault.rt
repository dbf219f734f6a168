//! Why a table was not played to its end.

use chex_base::NoMemory;
use star_lexer::LexFault;
use star_parser::ParseFault;
use star_resolver::ResolveFault;
use std::alloc::{AllocError, AllocFailed};

/// Why a row has no answer that could be compared.
#[derive(Clone, Copy, Debug, PartialEq, Eq)]
pub enum Fault {
    /// A row is no call of the kinds that are made here, its cells are none, or what it names is not
    /// there.
    Unread,
    NoMemory,
}

impl From<NoMemory> for Fault {
    fn from(_: NoMemory) -> Fault {
        Fault::NoMemory
    }
}

impl From<AllocError> for Fault {
    fn from(_: AllocError) -> Fault {
        Fault::NoMemory
    }
}

impl<T: Drop> From<AllocFailed<T>> for Fault {
    fn from(_: AllocFailed<T>) -> Fault {
        Fault::NoMemory
    }
}

impl From<LexFault> for Fault {
    fn from(fault: LexFault) -> Fault {
        match fault {
            LexFault::Bad { .. } => Fault::Unread,
            LexFault::NoMemory => Fault::NoMemory,
        }
    }
}

impl From<ParseFault> for Fault {
    fn from(fault: ParseFault) -> Fault {
        match fault {
            ParseFault::Unexpected { .. } => Fault::Unread,
            ParseFault::NoMemory => Fault::NoMemory,
        }
    }
}

impl From<ResolveFault> for Fault {
    fn from(fault: ResolveFault) -> Fault {
        match fault {
            ResolveFault::Bad { .. } => Fault::Unread,
            ResolveFault::NoMemory => Fault::NoMemory,
        }
    }
}
