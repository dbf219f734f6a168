//! Why a run of versions came to no end.

use chex_base::{NoMemory, NodeId};
use plan_type::Plan;
use replayer::Difference;

/// Why a run of versions came to no end.
#[derive(Drop)]
pub enum RunFault {
    /// The tree of equal beginnings would have more than 512 nodes; `count` is their number.
    TooManyNodes {
        count: u32,
    },
    /// The kernel failed; its count of faults rose.
    KernelFailed,
    /// The store failed; its count of faults rose.
    StoreFailed,
    /// What the store gave for the node is no snapshot of it. It never comes over a store that
    /// tells its bytes.
    Damaged {
        node: NodeId,
    },
    /// The replay of this plan measured another row of the node than the one that was planned by:
    /// the first field in which they differ. Where the rows are those of the versions, as an audit's
    /// are, it never comes over a store that tells its bytes.
    Differs {
        plan: Plan,
        node: NodeId,
        difference: Difference,
    },
    /// Memory was wanting.
    NoMemory,
}

impl From<NoMemory> for RunFault {
    ghost use Rattle.std.specs.Prelude.{◌≡◌};
    ghost use Rattle.shared_run.specs.declared.fault.RunFault.TheVariants as fault;

    ghost from_gives = { λ _ e. e ≡ fault.NoMemory };

    fn from(_: NoMemory) -> Self {
        RunFault::NoMemory
    }
}
