//! Why a case has no answer.

use cell_reader::CellFault;
use chex_base::NoMemory;
use std::alloc::{AllocError, AllocFailed};

/// Why a case has no answer that could be shown.
#[derive(Clone, Copy, Debug, PartialEq, Eq)]
pub enum Fault {
    /// A number of the case passes a limit.
    PastLimit,
    /// A source gives no cell.
    BadCell,
    /// The run was refused.
    Refused,
    NoMemory,
}

impl From<NoMemory> for Fault {
    fn from(_: NoMemory) -> Fault {
        Fault::NoMemory
    }
}

impl From<AllocError> for Fault {
    fn from(_: AllocError) -> Fault {
        Fault::NoMemory
    }
}

impl<T: Drop> From<AllocFailed<T>> for Fault {
    fn from(_: AllocFailed<T>) -> Fault {
        Fault::NoMemory
    }
}

impl From<CellFault> for Fault {
    fn from(fault: CellFault) -> Fault {
        match fault {
            CellFault::Bad { .. } => Fault::BadCell,
            CellFault::NoMemory => Fault::NoMemory,
        }
    }
}
