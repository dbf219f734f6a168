//! Snapshots by node.
ghost use Rattle.std.specs.Prelude.{◌≡◌, ◌≤◌, ◌+◌, ◌∷◌, ◌++◌, [], true, false, nat_eq, Some, IfOk, OnOk, OnErr};
ghost use Rattle.std.specs.Int.{div_ceil};
ghost use Rattle.std.specs.List.{IsDistinct};
ghost use Rattle.std.specs.Map.{keys_of};
ghost use Rattle.kernel_api.specs.Stock.{at, blocks_held, blocks_of, held_of, holds, without};

use chex_base::{NoMemory, NodeId};
use indexmap::IndexMap;
use std::alloc::Global;
use std::marker::Model;

/// The bytes of a snapshot.
#[derive(Drop)]
pub(crate) struct Snapshot {
    bytes: Vec<u8>,
}

impl Model for Snapshot {
    ghost use Rattle.std.specs.Prelude.{ℕ, List};

    ghost Value = { List ℕ };

    ghost view = { λ s. s.bytes.items };
}

impl Snapshot {
    /// A copy of the bytes.
    pub(crate) fn copy(&self, alloc: Global) -> Result<Vec<u8>, NoMemory>
        ensures { IfOk result (λ copy. copy.items ≡ self.now) }
    {
        Ok(self.bytes.to_vec(alloc)?)
    }

    /// How many blocks of this many bytes the snapshot takes.
    fn blocks(&self, block: u32) -> u64
        requires { 1 ≤ block }
        ensures { result ≡ blocks_of block self.now }
    {
        count_blocks(&self.bytes, block)
    }
}

/// How many blocks of this many bytes some bytes take.
pub(crate) fn count_blocks(bytes: &[u8], block: u32) -> u64
    requires { 1 ≤ block }
    ensures { result ≡ blocks_of block bytes.now }
{
    (bytes.len() as u64).div_ceil(u64::from(block))
}

/// Snapshots by node, in the order in which they were put. Contracts see the list of the nodes with
/// their bytes. A node is found by its hash.
#[derive(Drop)]
pub(crate) struct Snapshots {
    map: IndexMap<u32, Snapshot>,
}

impl Model for Snapshots {
    ghost use Rattle.std.specs.Prelude.{ℕ, List};

    ghost Value = { List (ℕ × List ℕ) };

    ghost view = { λ s. s.map.entries };
}

impl Snapshots {
    /// No snapshots. It takes no memory.
    pub(crate) fn new(alloc: Global) -> Snapshots
        ensures empty { result ≡ [] }
        ensures once { IsDistinct nat_eq (keys_of result) }
    {
        Snapshots {
            map: IndexMap::new(alloc),
        }
    }

    /// Takes all snapshots out. It takes no memory, and keeps the room for the next ones.
    pub(crate) fn clear(&mut self)
        ensures empty { self.new ≡ [] }
        ensures once { IsDistinct nat_eq (keys_of self.new) }
    {
        self.map.clear();
    }

    /// Whether a node has a snapshot.
    pub(crate) fn holds(&self, node: NodeId) -> bool
        ensures { result ≡ holds node self.now }
    {
        let number = node.0;
        self.map.contains_key(&number)
    }

    /// The snapshot of a node that has one.
    pub(crate) fn get(&self, node: NodeId) -> &Snapshot
        requires { holds node self.now ≡ true }
        ensures { at node self.now ≡ Some result.now }
    {
        let number = node.0;
        match self.map.get(&number) {
            Some(snapshot) => snapshot,
            None => unreachable!(),
        }
    }

    /// Adds a node that has none. Where memory is wanting nothing changes, and the bytes are dropped.
    #[tactic(auto, using(crate::proofs::SnapshotLemmas::put_last))]
    pub(crate) fn add(&mut self, node: NodeId, bytes: Vec<u8>) -> Result<(), NoMemory>
        requires { holds node self.old ≡ false }
        ensures ok { OnOk result (self.new ≡ self.old ++ (node, bytes.items) ∷ []) }
        ensures err { OnErr result (self.new ≡ self.old) }
        ensures once { IsDistinct nat_eq (keys_of self.new) }
    {
        self.map.insert(node.0, Snapshot { bytes })?;
        Ok(())
    }

    /// Takes a node that has a snapshot out, and answers how many blocks of this many bytes it took.
    /// The later ones close up, which takes time linear in their number and no memory.
    #[tactic(auto, using(crate::proofs::SnapshotLemmas::blocks_taken))]
    pub(crate) fn take(&mut self, node: NodeId, block: u32) -> u64
        requires held { holds node self.old ≡ true }
        requires block { 1 ≤ block }
        ensures taken { self.new ≡ without node self.old }
        ensures count { blocks_held (held_of block self.new) + result ≡ blocks_held (held_of block self.old) }
        ensures once { IsDistinct nat_eq (keys_of self.new) }
    {
        let number = node.0;
        match self.map.shift_remove(&number) {
            Some(snapshot) => snapshot.blocks(block),
            None => unreachable!(),
        }
    }
}
