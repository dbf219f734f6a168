//! Reads a plan text and says whether it is a plan for these costs and this budget: the plan with
//! its cost and its peak, or the first fault. Whoever wrote the text need not be trusted.
#![tactic(auto)]

mod build;
mod fault;
mod line;
mod over;
mod read;
mod verdict;
mod wrong;

pub use fault::CheckFault;
pub use verdict::{Verdict, check};
