//! What runs cells and what keeps snapshots, as an audit and a replay meet them.
//!
//! `Kernel` has a loaded program and a live state, and runs one cell after another. `Store` keeps
//! the snapshots of states within a number of blocks. What stands above is written over any of
//! them, and knows of them what their clauses say. `specs/Stock.antt` says what a store holds,
//! `specs/Live.antt` what a live state and its snapshot are.
#![tactic(auto)]

mod fault;
mod kernel;
mod store;

pub use fault::{KernelFault, PutFault, RestoreFault, SaveFault, StoreFailed, StoreFault};
pub use kernel::Kernel;
pub use store::Store;
