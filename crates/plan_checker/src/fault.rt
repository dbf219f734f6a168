//! Why a text is no plan that fits.
use chex_base::NodeId;
use std::alloc::{AllocError, AllocFailed};
use thiserror::Error;

/// Why a text is refused. Faults are looked for in this order; the rules stand in docs/FORMATS.md.
#[derive(Clone, Copy, Debug, PartialEq, Eq, Error)]
pub enum CheckFault {
    /// The text is no plan text; `line` is its first faulty line, counted from 1.
    #[error("line {line} is no line of a plan")]
    NotPlan { line: u32 },
    /// The entries are no plan of the reached nodes: `node` is the node of the first entry that is
    /// no reached child of the last entry one level up or whose node stood before, and where there
    /// is no such entry, the least reached node that stands nowhere.
    #[error("node {} is no child here, stands twice or is missing", node.0)]
    WrongChild { node: NodeId },
    /// The first held node with which the held blocks pass the budget, and their sum in blocks.
    #[error("node {} brings the held blocks to {blocks}", node.0)]
    OverBudget { node: NodeId, blocks: u64 },
    /// Memory was wanting.
    #[error("no memory")]
    NoMemory,
}

impl From<AllocError> for CheckFault {
    ghost use Rattle.std.specs.Prelude.{◌≡◌};
    ghost use Rattle.plan_checker.specs.declared.fault.CheckFault.TheVariants.{NoMemory};

    ghost from_gives = { λ _ e. e ≡ NoMemory };

    fn from(_error: AllocError) -> CheckFault {
        CheckFault::NoMemory
    }
}

impl<T: Drop> From<AllocFailed<T>> for CheckFault {
    ghost use Rattle.std.specs.Prelude.{◌≡◌};
    ghost use Rattle.plan_checker.specs.declared.fault.CheckFault.TheVariants.{NoMemory};

    ghost from_gives = { λ _ e. e ≡ NoMemory };

    fn from(_error: AllocFailed<T>) -> CheckFault {
        CheckFault::NoMemory
    }
}

impl From<chex_base::NoMemory> for CheckFault {
    ghost use Rattle.std.specs.Prelude.{◌≡◌};
    ghost use Rattle.plan_checker.specs.declared.fault.CheckFault.TheVariants.{NoMemory};

    ghost from_gives = { λ _ e. e ≡ NoMemory };

    fn from(_error: chex_base::NoMemory) -> CheckFault {
        CheckFault::NoMemory
    }
}
