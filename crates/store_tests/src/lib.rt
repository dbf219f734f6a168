//! Rows of calls to stores of snapshots, with answers and blocks that were worked out by hand.
//!
//! They stand apart, since a crate that has tests is proved twice, once without them and once with
//! them.
#![tactic(auto)]

#[cfg(test)]
mod calls;
#[cfg(test)]
mod rows;
