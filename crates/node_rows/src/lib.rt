//! Runs a node of the tree of equal beginnings in a kernel, and measures it.
//!
//! `run_node` gives the node's row: how its cell ended, the steps that it took, the size of the
//! snapshot after it, and the digest of its text; and the text itself. `specs/Rows.antt` says which
//! these are.
//!
//! The audit of versions and the replay of a plan both stand on it: what one records the other
//! compares, so both have one meaning of a row and one text of a node.
#![tactic(auto)]

mod running;
mod texts;

pub use running::{Measured, run_node};
