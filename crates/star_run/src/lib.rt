//! Runs cells of the whole language.
//!
//! What stands here is the meaning of each form of a tree as one equation, the laws by which loops
//! over parts of trees and over values are proved, and the evaluator: expressions, statements,
//! calls, and the run of a cell.
#![tactic(auto)]

mod blocks;
mod calls;
mod cells;
mod charging;
mod comprehensions;
mod constants;
mod entries;
mod expressions;
mod filling;
mod gathered;
mod given;
mod halt;
mod level;
mod lookups;
mod loops;
mod names;
mod own;
mod plain;
mod reads;
mod running;
mod slots;
mod statements;
mod suffixes;
mod targets;

pub use blocks::Blocks;
pub use cells::run_cell;
pub use gathered::{Element, Gathered};
pub use given::Given;
pub use names::unbound_of;
pub use reads::name_read;
pub use running::Run;
pub use slots::{Layout, Slots};
