//! Reads a cell from its source.
//!
//! [`read_cell`] answers the cell of a source, or what is wrong with the source and on which line: it
//! looks at the source's tokens, then at their order, and last at the places of statements and names.
//! A source gives one cell at most, as [`one_answer`] says. The rules stand in docs/LANGUAGE.md.
#![tactic(auto)]

mod cell;
mod laws;

pub use cell::{CellFault, Reason, read_cell};
pub use laws::{one_answer, read_cells};
