//! A node.
use crate::shared::SharedInputs;
use chex_base::NodeId;
use star_syntax::Cell;

/// A node of the tree: the node above it or number 0, its cell, and the inputs of the first version
/// through it.
#[derive(Drop)]
pub struct Node {
    pub parent: NodeId,
    pub cell: Cell,
    pub inputs: SharedInputs,
}
