//! The tree of equal beginnings: versions that begin with the same cells, which read the same input
//! values, have these cells in common.
//!
//! `merge` makes the tree from accepted versions. Each node is a cell with the cells above it, so
//! that equal beginnings are one path, and each version ends at a node. `Forest::cut` takes away
//! what stands below nodes that failed. `specs/Prefixes.antt` and `specs/Forests.antt` say which
//! tree it is.
#![tactic(auto)]

mod checked;
mod cutting;
mod fault;
mod forest;
mod growth;
mod hashing;
mod merging;
mod node;
mod nodes;
mod same;
mod shared;

pub use checked::Checked;
pub use fault::TreeFault;
pub use forest::Forest;
pub use merging::merge;
