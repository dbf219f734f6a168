//! Accepted versions.
use chex_base::{Inputs, Text};
use star_syntax::Cells;

/// An accepted version: its name, its cells, and the inputs that they read.
#[derive(Drop)]
pub struct Checked {
    pub name: Text,
    pub cells: Cells,
    pub inputs: Inputs,
}
