//! The texts that a run prints beside the outputs of cells.
#![tactic(auto)]

mod headers;
mod summaries;

pub use headers::header;
pub use summaries::{Numbers, summary};
