//! What is known of each node before any cost is computed.
use chex_base::NodeId;
use sqlite_items::Items;

/// How a node is made again: from nothing, or from one of the nodes above it that is held.
#[derive(Clone, Copy, Debug)]
pub struct Way {
    /// The steps of computing the nodes from there down to this one.
    pub back: u64,
    /// What restoring the held node costs, 0 where it is made from nothing.
    pub again: u64,
}

/// The ways of a node by level: from nothing, and then from each node of its path, from 0 on.
pub type Ways = Items<Way>;

/// One node.
#[derive(Debug, Drop)]
pub struct Site {
    /// The reached children in rising order.
    pub children: Items<NodeId>,
    /// The ways to the node.
    pub ways: Ways,
    /// The blocks of the node's snapshot.
    pub blocks: u64,
}
