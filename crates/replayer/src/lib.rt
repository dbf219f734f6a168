//! Carries out a plan over a kernel and a store, and tells listeners each operation after it was
//! done.
//!
//! `replay` gives the text of each node. It compares each computing with the node's recorded row,
//! and stops at the first difference. `specs/Nodes.antt` says what the nodes of a tree mean,
//! `specs/Machines.antt` where the kernel and the store stand beside the machine of operations.
#![tactic(auto)]

mod carrying;
mod depths;
mod difference;
mod fault;
mod replaying;
mod steps;

pub use difference::Difference;
pub use fault::ReplayFault;
pub use replaying::{Outputs, Texts, replay};
