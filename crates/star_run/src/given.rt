//! What does not change while a cell runs.

use chex_base::{Inputs, NodeId};
use star_syntax::Program;

/// What does not change while a cell runs: the program, the node of the cell, and the inputs.
#[derive(Clone, Copy)]
pub struct Given<'p> {
    pub program: &'p Program,
    pub node: NodeId,
    pub inputs: &'p Inputs,
}
