//! Runs each version once by itself, and measures the nodes of the tree of equal beginnings.
//!
//! `audit` gives each node its row: how its cell ended, the steps that it took, the size of the
//! snapshot after it, and the digest of what it writes. `specs/Visits.antt` says what versions do in
//! the numbers of the tree, `specs/Rows.antt` which rows these are, and `specs/Sources.antt` what is
//! asked of cells.
#![tactic(auto)]

mod adding;
mod auditing;
mod fault;
mod rows;
mod ways;

pub use auditing::{audit, failed_nodes};
pub use fault::AuditFault;
