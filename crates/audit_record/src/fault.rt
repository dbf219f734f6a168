//! Why a record is refused.
use chex_base::NodeId;
use std::alloc::{AllocError, AllocFailed};

/// Why a record is refused. The rules are in docs/FORMATS.md.
#[derive(Clone, Copy, Debug, PartialEq, Eq)]
pub enum RecordFault {
    /// The bytes have not the form of a record, or their rows break the rules of costs.
    NotRecord,
    /// The record is of another version; `version` is the one that it has.
    OldRecord {
        version: u64,
    },
    /// The digests of the record are not those of the versions; `node` is the first at which they
    /// differ, and a side that has no such node has no digest.
    Stale {
        node: NodeId,
        recorded: Option<[u8; 32]>,
        found: Option<[u8; 32]>,
    },
    /// Memory was wanting.
    NoMemory,
    /// The digests agree, and `node` is the first whose recorded parent is another than its own.
    WrongParent {
        node: NodeId,
        recorded: NodeId,
        found: NodeId,
    },
}

impl From<AllocError> for RecordFault {
    ghost use Rattle.std.specs.Prelude.{◌≡◌};
    ghost use Rattle.audit_record.specs.declared.fault.RecordFault.TheVariants as fault;

    ghost from_gives = { λ _ e. e ≡ fault.NoMemory };

    fn from(_: AllocError) -> Self {
        RecordFault::NoMemory
    }
}

impl<T: Drop> From<AllocFailed<T>> for RecordFault {
    ghost use Rattle.std.specs.Prelude.{◌≡◌};
    ghost use Rattle.audit_record.specs.declared.fault.RecordFault.TheVariants as fault;

    ghost from_gives = { λ _ e. e ≡ fault.NoMemory };

    fn from(_: AllocFailed<T>) -> Self {
        RecordFault::NoMemory
    }
}

impl From<chex_base::NoMemory> for RecordFault {
    ghost use Rattle.std.specs.Prelude.{◌≡◌};
    ghost use Rattle.audit_record.specs.declared.fault.RecordFault.TheVariants as fault;

    ghost from_gives = { λ _ e. e ≡ fault.NoMemory };

    fn from(_: chex_base::NoMemory) -> Self {
        RecordFault::NoMemory
    }
}
