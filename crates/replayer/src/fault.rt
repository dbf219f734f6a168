//! Why a replay stopped.

use crate::Difference;
use chex_base::{NoMemory, NodeId};

/// Why a replay stopped.
#[derive(Clone, Copy, Debug, PartialEq, Eq)]
pub enum ReplayFault {
    /// The kernel failed; its count of faults rose.
    KernelFailed,
    /// The store failed; its count of faults rose.
    StoreFailed,
    /// What the store gave for the node is no snapshot of it. It never comes over a store that
    /// tells its bytes.
    Damaged {
        node: NodeId,
    },
    /// The node's recorded row is not the measured one: the first field in which they differ.
    Differs {
        node: NodeId,
        difference: Difference,
    },
    /// Memory was wanting.
    NoMemory,
}

impl From<NoMemory> for ReplayFault {
    ghost use Rattle.std.specs.Prelude.{◌≡◌};
    ghost use Rattle.replayer.specs.declared.fault.ReplayFault.TheVariants as fault;

    ghost from_gives = { λ _ e. e ≡ fault.NoMemory };

    fn from(_: NoMemory) -> Self {
        ReplayFault::NoMemory
    }
}
