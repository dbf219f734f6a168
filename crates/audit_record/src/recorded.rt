//! What a record says.
use plan_type::Costs;
use sqlite_items::Items;

/// The digests of nodes in the order of their numbers, from 1 on; contracts see a list.
pub type Digests = Items<[u8; 32]>;

/// What a record says: the row and the digest of each node, and the step bound under which the
/// versions ran.
#[derive(Debug, Drop)]
pub struct Recorded {
    pub costs: Costs,
    /// The digest of each node's key and of those above it.
    pub keys: Digests,
    /// The step bound of each cell.
    pub allowance: u64,
}
