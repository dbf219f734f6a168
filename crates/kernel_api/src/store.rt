//! What keeps snapshots.
ghost use Rattle.std.specs.Prelude.{◌≡◌, ◌≤◌, ◌↔◌, ℕ, true, false, Some, IfOk, IfSome, OnErr, OnOk};
ghost use Rattle.chex_base.specs.Outside.{Rose};
ghost use Rattle.kernel_api.specs.Stock.{Stock, IsStock, Passes, at, begun, blocks_held, holds, with_evict, with_put};

use crate::{PutFault, StoreFailed, StoreFault};
use chex_base::NodeId;
use std::alloc::Global;

/// Snapshots by node, counted in whole blocks: a snapshot takes its bytes in blocks, rounded up. A
/// store means its limits, the held nodes with their blocks and, where it tells them, their bytes.
/// The count of faults never falls, and a count that has reached the greatest `u64` stays there.
///
/// Before it begins for the first time a store holds nothing, has blocks of 256 bytes, and has room
/// for none.
pub trait Store {
    /// The limits, the peak, what is held and what is told.
    ghost stock: { Self → Stock };

    /// How often a call has failed.
    ghost faults: { Self → ℕ };

    /// Takes all snapshots out, and from now on counts in blocks of `block` bytes, of which it holds
    /// at most `most`. A refused call changes nothing but the count.
    fn begin(&mut self, alloc: Global, block: u32, most: u32) -> Result<(), StoreFault>
        requires block { (256 ≤ block) × (block ≤ 1048576) }
        requires most { most ≤ 1024 }
        ensures ok { OnOk result (stock self.new ≡ begun block most (stock self.old)) }
        ensures err { OnErr result (stock self.new ≡ stock self.old) }
        ensures cause { result ≡ Err StoreFault.Failed → Rose (faults self.old) (faults self.new) }
        ensures later { faults self.old ≤ faults self.new };

    /// Adds a node that is not held, with the bytes of its snapshot. Whether there is room is looked
    /// at first: the answer is Full exactly where the new blocks and the held ones pass the most. A
    /// refused call changes nothing but the count, and drops the bytes.
    fn put(&mut self, alloc: Global, node: NodeId, bytes: Vec<u8>) -> Result<(), PutFault>
        requires { holds node (stock self.old).held ≡ false }
        ensures ok { OnOk result (stock self.new ≡ with_put node bytes.items (stock self.old)) }
        ensures err { OnErr result (stock self.new ≡ stock self.old) }
        ensures full { (result ≡ Err PutFault.Full) ↔ Passes (stock self.old) bytes.items }
        ensures cause { result ≡ Err PutFault.Failed → Rose (faults self.old) (faults self.new) }
        ensures later { faults self.old ≤ faults self.new };

    /// The bytes that were put for a held node. Changes nothing but the count.
    fn get(&mut self, alloc: Global, node: NodeId) -> Result<Vec<u8>, StoreFault>
        requires { holds node (stock self.old).held ≡ true }
        ensures told { IfOk result (λ bytes. IfSome (stock self.old).told (λ files. at node files ≡ Some bytes.items)) }
        ensures same { stock self.new ≡ stock self.old }
        ensures cause { result ≡ Err StoreFault.Failed → Rose (faults self.old) (faults self.new) }
        ensures later { faults self.old ≤ faults self.new };

    /// Takes a held node out. The peak stays. A refused call changes nothing but the count. It takes
    /// no memory.
    fn evict(&mut self, node: NodeId) -> Result<(), StoreFailed>
        requires { holds node (stock self.old).held ≡ true }
        ensures ok { OnOk result (stock self.new ≡ with_evict node (stock self.old)) }
        ensures err { OnErr result (stock self.new ≡ stock self.old) }
        ensures cause { OnErr result (Rose (faults self.old) (faults self.new)) }
        ensures later { faults self.old ≤ faults self.new };

    /// Whether a node is held. It takes no memory.
    fn holds(&self, node: NodeId) -> bool
        ensures { result ≡ holds node (stock self.now).held };

    /// How many blocks are held. It takes no memory.
    fn used(&self) -> u32
        ensures { result ≡ blocks_held (stock self.now).held };

    /// The most blocks that were held at once since it began. It takes no memory.
    fn peak(&self) -> u32
        ensures { result ≡ (stock self.now).peak };

    /// How often a call has failed. It takes no memory.
    fn faults(&self) -> u64
        ensures { result ≡ faults self.now };

    /// What each store keeps: the held blocks are at most the peak, and the peak is at most the most.
    ghost kept: { (store : Self) → IsStock (stock store) };
}
