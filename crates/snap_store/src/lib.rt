//! Stores of snapshots in memory.
//!
//! `BlockStore` keeps what is put and never fails. `FailingStore` is one that fails at listed calls,
//! for tests.
#![tactic(auto)]

mod block_store;
mod failing_store;
mod snapshots;

pub use block_store::BlockStore;
pub use failing_store::FailingStore;
