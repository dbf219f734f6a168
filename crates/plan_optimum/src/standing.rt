//! Where a subtree is computed.
use chex_base::NodeId;

/// A node whose subtree is to be computed, and what was done above it.
#[derive(Clone, Copy, Debug)]
pub struct Standing {
    /// The node.
    pub node: NodeId,
    /// Which of the node's ways makes it again: 0 where no node above it is held.
    pub level: usize,
    /// The blocks of the nodes that are held above it.
    pub used: u64,
}
