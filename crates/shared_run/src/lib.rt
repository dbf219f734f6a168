//! Runs versions so that equal beginnings are shared, and each prints what it prints by itself.
//!
//! `run_versions` puts the parts together: the tree of versions, the rows of its nodes, a plan of
//! least cost and its replay, over any kernel and store. `audit_versions` gives the tree and its
//! rows alone, and `replay_versions` replays by rows that were recorded. `specs/Written.antt` says
//! what is written of a version, `specs/Courses.antt` how a run goes and why it stops,
//! `specs/Recorded.antt` the same of a replay by recorded rows.
#![tactic(auto)]

mod auditing;
mod fault;
mod numbers;
mod planning;
mod recorded;
mod running;
mod ways;

pub use auditing::{Audited, audit_versions};
pub use fault::RunFault;
pub use recorded::replay_versions;
pub use running::{Shared, run_versions};
pub use ways::{Way, Ways};
