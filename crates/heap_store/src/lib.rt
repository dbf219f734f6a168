//! The machine that a cell runs over: global names with their values, numbered objects, and the
//! nodes that have run. Each call is one change of the state that `star_meaning` speaks of, or one
//! read of it.
#![tactic(auto)]

pub mod iterated;
mod kind;
mod machine;
mod object;
mod pairs;

pub use kind::Kind;
pub use machine::Machine;
pub use pairs::Pairs;
