//! Why a row was not looked at.
use audit_record::RecordFault;
use chex_base::NoMemory;
use exec_tree::TreeFault;
use nb_reader::NbFault;
use star_lexer::LexFault;
use star_parser::ParseFault;
use star_resolver::ResolveFault;
use std::alloc::{AllocError, AllocFailed};
use std::io;

/// Why a row has no verdict that could be compared.
#[derive(Debug, Drop)]
pub enum Fault {
    /// The row has not the form of its table, or the versions are none.
    Unread,
    /// A file of the table is not there.
    Unopened,
    NoMemory,
}

impl From<NoMemory> for Fault {
    fn from(_: NoMemory) -> Fault {
        Fault::NoMemory
    }
}

impl From<AllocError> for Fault {
    fn from(_: AllocError) -> Fault {
        Fault::NoMemory
    }
}

impl<T: Drop> From<AllocFailed<T>> for Fault {
    fn from(_: AllocFailed<T>) -> Fault {
        Fault::NoMemory
    }
}

impl From<io::Error> for Fault {
    fn from(_: io::Error) -> Fault {
        Fault::Unopened
    }
}

impl From<LexFault> for Fault {
    fn from(fault: LexFault) -> Fault {
        match fault {
            LexFault::Bad { .. } => Fault::Unread,
            LexFault::NoMemory => Fault::NoMemory,
        }
    }
}

impl From<ParseFault> for Fault {
    fn from(fault: ParseFault) -> Fault {
        match fault {
            ParseFault::Unexpected { .. } => Fault::Unread,
            ParseFault::NoMemory => Fault::NoMemory,
        }
    }
}

impl From<ResolveFault> for Fault {
    fn from(fault: ResolveFault) -> Fault {
        match fault {
            ResolveFault::Bad { .. } => Fault::Unread,
            ResolveFault::NoMemory => Fault::NoMemory,
        }
    }
}

impl From<NbFault> for Fault {
    fn from(fault: NbFault) -> Fault {
        match fault {
            NbFault::NoMemory => Fault::NoMemory,
            _ => Fault::Unread,
        }
    }
}

impl From<TreeFault> for Fault {
    fn from(fault: TreeFault) -> Fault {
        match fault {
            TreeFault::TooManyNodes { .. } => Fault::Unread,
            TreeFault::NoMemory => Fault::NoMemory,
        }
    }
}

impl From<RecordFault> for Fault {
    fn from(fault: RecordFault) -> Fault {
        match fault {
            RecordFault::NoMemory => Fault::NoMemory,
            _ => Fault::Unread,
        }
    }
}
