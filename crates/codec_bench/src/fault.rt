//! Why nothing was measured.
use chex_base::NoMemory;
use snapshot_codec::SnapFault;
use star_lexer::LexFault;
use star_parser::ParseFault;
use star_resolver::ResolveFault;
use std::alloc::{AllocError, AllocFailed};

/// Why there is no figure.
#[derive(Clone, Copy, Debug, PartialEq, Eq)]
pub enum Fault {
    /// The source has a fault, the bytes are no snapshot, or others were written.
    Other,
    NoMemory,
}

impl From<NoMemory> for Fault {
    fn from(_: NoMemory) -> Fault {
        Fault::NoMemory
    }
}

impl From<AllocError> for Fault {
    fn from(_: AllocError) -> Fault {
        Fault::NoMemory
    }
}

impl<T: Drop> From<AllocFailed<T>> for Fault {
    fn from(_: AllocFailed<T>) -> Fault {
        Fault::NoMemory
    }
}

impl From<LexFault> for Fault {
    fn from(fault: LexFault) -> Fault {
        match fault {
            LexFault::Bad { .. } => Fault::Other,
            LexFault::NoMemory => Fault::NoMemory,
        }
    }
}

impl From<ParseFault> for Fault {
    fn from(fault: ParseFault) -> Fault {
        match fault {
            ParseFault::Unexpected { .. } => Fault::Other,
            ParseFault::NoMemory => Fault::NoMemory,
        }
    }
}

impl From<ResolveFault> for Fault {
    fn from(fault: ResolveFault) -> Fault {
        match fault {
            ResolveFault::Bad { .. } => Fault::Other,
            ResolveFault::NoMemory => Fault::NoMemory,
        }
    }
}

impl From<SnapFault> for Fault {
    fn from(fault: SnapFault) -> Fault {
        match fault {
            SnapFault::NoMemory => Fault::NoMemory,
            _ => Fault::Other,
        }
    }
}
