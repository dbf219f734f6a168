//! Plans of least cost: no depth-first plan that holds ancestors' snapshots for whole child
//! subtrees within the budget costs less than the plan that this crate finds. The least costs of
//! all subtrees are computed once each, into a table by node, nearest held ancestor and used
//! blocks, and the plan is read off it.
#![tactic(auto)]

mod build;
mod chooser;
mod optimum;
mod planner;
mod site;
mod standing;
mod survey;
mod table;

pub use optimum::least;
