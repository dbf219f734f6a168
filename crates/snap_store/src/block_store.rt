//! A store in memory.
ghost use Rattle.std.specs.Prelude.{◌≡◌, ◌≤◌, ◌↔◌, [], true, false, nat_eq, Some, IsTrue, IfOk, OnOk, OnErr};
ghost use Rattle.std.specs.List.{IsDistinct};
ghost use Rattle.std.specs.Map.{keys_of};
ghost use Rattle.std.proofs.Props.{props};
ghost use Rattle.kernel_api.specs.Stock.{at, before_begin, begun, blocks_held, held_of, holds, with_evict, with_put, Fits, Passes};

use crate::snapshots::{Snapshots, count_blocks};
use chex_base::{NoMemory, NodeId};
use kernel_api::{PutFault, Store, StoreFailed, StoreFault};
use std::alloc::Global;

/// A store in memory. It tells its bytes and never fails, so its count of faults is 0. A node is
/// found by its hash, and `get` copies the bytes.
#[derive(Drop)]
pub struct BlockStore {
    /// The bytes of a block.
    block: u32,
    /// The most blocks that may be held.
    most: u32,
    /// The held blocks.
    used: u32,
    /// The most blocks that were held at once since it began.
    peak: u32,
    snapshots: Snapshots,
    ghost small: { 256 ≤ block },
    ghost large: { block ≤ 1048576 },
    ghost few: { most ≤ 1024 },
    ghost counted: { used ≡ blocks_held (held_of block snapshots) },
    ghost reached: { used ≤ peak },
    ghost bounded: { peak ≤ most },
    ghost once: { IsDistinct nat_eq (keys_of snapshots) } by { Prim.hlevel props },
}

impl BlockStore {
    ghost use Rattle.snap_store.specs.Stocks.{stock_of};

    /// A store before it begins: it holds nothing, has blocks of 256 bytes, and has room for none. It
    /// takes no memory.
    pub fn new(alloc: Global) -> BlockStore
        ensures { stock_of result ≡ before_begin (Some []) }
    {
        BlockStore {
            block: 256,
            most: 0,
            used: 0,
            peak: 0,
            snapshots: Snapshots::new(alloc),
        }
    }

    /// Takes all snapshots out and sets the limits.
    pub(crate) fn start(&mut self, block: u32, most: u32)
        requires block { (256 ≤ block) × (block ≤ 1048576) }
        requires most { most ≤ 1024 }
        ensures { stock_of self.new ≡ begun block most (stock_of self.old) }
    {
        self.snapshots.clear();
        self.used = 0;
        self.peak = 0;
        self.block = block;
        self.most = most;
    }

    /// Whether these bytes and what is held take more blocks than may be held.
    pub(crate) fn passes(&self, bytes: &[u8]) -> bool
        ensures { IsTrue result ↔ Passes (stock_of self.now) bytes.now }
    {
        u64::from(self.most - self.used) < count_blocks(bytes, self.block)
    }

    /// Adds a node that is not held with bytes for which there is room. Where memory is wanting
    /// nothing changes.
    #[tactic(auto, using(crate::proofs::SnapshotLemmas::holds_held, crate::proofs::SnapshotLemmas::held_put, crate::proofs::SnapshotLemmas::blocks_put))]
    pub(crate) fn add(&mut self, node: NodeId, bytes: Vec<u8>) -> Result<(), NoMemory>
        requires node { holds node (stock_of self.old).held ≡ false }
        requires room { Fits (stock_of self.old) bytes.items }
        ensures ok { OnOk result (stock_of self.new ≡ with_put node bytes.items (stock_of self.old)) }
        ensures err { OnErr result (stock_of self.new ≡ stock_of self.old) }
    {
        let blocks = count_blocks(&bytes, self.block) as u32;
        self.snapshots.add(node, bytes)?;
        self.used += blocks;
        self.peak = self.peak.max(self.used);
        Ok(())
    }

    /// A copy of the bytes of a held node.
    #[tactic(auto, using(crate::proofs::SnapshotLemmas::holds_held))]
    pub(crate) fn copy_of(&self, alloc: Global, node: NodeId) -> Result<Vec<u8>, NoMemory>
        requires { holds node (stock_of self.now).held ≡ true }
        ensures { IfOk result (λ bytes. at node self.now.snapshots ≡ Some bytes.items) }
    {
        self.snapshots.get(node).copy(alloc)
    }

    /// Takes a held node out.
    #[tactic(auto, using(crate::proofs::SnapshotLemmas::holds_held, crate::proofs::SnapshotLemmas::without_held))]
    pub(crate) fn remove(&mut self, node: NodeId)
        requires { holds node (stock_of self.old).held ≡ true }
        ensures { stock_of self.new ≡ with_evict node (stock_of self.old) }
    {
        let blocks = self.snapshots.take(node, self.block);
        self.used -= blocks as u32;
    }
}

impl Store for BlockStore {
    ghost use Rattle.std.specs.Prelude.{refl};
    ghost use Rattle.std.proofs.Common.{subst, sym};
    ghost use Rattle.kernel_api.specs.Stock.{nodes_held};
    ghost use Rattle.snap_store.specs.Stocks.{stock_of};

    ghost stock = { stock_of };

    ghost faults = { λ s. 0 };

    fn begin(&mut self, _alloc: Global, block: u32, most: u32) -> Result<(), StoreFault> {
        self.start(block, most);
        Ok(())
    }

    fn put(&mut self, _alloc: Global, node: NodeId, bytes: Vec<u8>) -> Result<(), PutFault> {
        if self.passes(&bytes) {
            return Err(PutFault::Full);
        }
        match self.add(node, bytes) {
            Ok(()) => Ok(()),
            Err(_) => Err(PutFault::NoMemory),
        }
    }

    fn get(&mut self, alloc: Global, node: NodeId) -> Result<Vec<u8>, StoreFault> {
        match self.copy_of(alloc, node) {
            Ok(bytes) => Ok(bytes),
            Err(_) => Err(StoreFault::NoMemory),
        }
    }

    fn evict(&mut self, node: NodeId) -> Result<(), StoreFailed> {
        self.remove(node);
        Ok(())
    }

    #[tactic(auto, using(crate::proofs::SnapshotLemmas::holds_held))]
    fn holds(&self, node: NodeId) -> bool {
        self.snapshots.holds(node)
    }

    fn used(&self) -> u32 {
        self.used
    }

    fn peak(&self) -> u32 {
        self.peak
    }

    fn faults(&self) -> u64 {
        0
    }

    ghost kept = { λ s. record {
      small = s.small;
      large = s.large;
      few = s.few;
      once = subst (IsDistinct nat_eq) (sym (nodes_held s.block s.snapshots)) s.once;
      counted = subst (λ blocks. blocks ≤ s.peak) s.counted s.reached;
      bounded = s.bounded;
      agrees = refl;
    } };
}
