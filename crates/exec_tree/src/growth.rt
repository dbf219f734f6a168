//! A tree to which versions are added one after the other.
ghost use Rattle.std.specs.Prelude.{◌≡◌, ◌≢◌, ℕ, ◌+◌, ◌-◌, ◌<◌, ◌≤◌, ◌^◌, ◌∷◌, ◌++◌, [], length, IfOk, OnOk, IfSome, IfNone};
ghost use Rattle.exec_tree.specs.Keys.{key_of, same_key};
ghost use Rattle.exec_tree.specs.Prefixes.{keys_of, prefixes_of};
ghost use Rattle.exec_tree.specs.Growths.{known, keys_at, key_at, hash_of, with_prefix, grown, IsGrowth};

use crate::checked::Checked;
use crate::hashing::hash_of;
use crate::node::Node;
use crate::nodes::Nodes;
use crate::same::is_same_key;
use crate::shared::SharedInputs;
use chex_base::{Inputs, NoMemory, NodeId};
use star_syntax::Cell;
use std::alloc::Global;

/// The nodes so far, the children of each number from 0 on, and the hash of each node's source.
/// A node is looked for among the children of its parent alone, by its hash first.
#[derive(Drop)]
pub struct Growth {
    pub nodes: Vec<Node>,
    pub children: Vec<Nodes>,
    pub hashes: Vec<u64>,
}

impl Growth {
    /// No nodes.
    pub fn new(alloc: Global) -> Result<Growth, NoMemory>
        ensures nodes { IfOk result (λ growth. growth.nodes.items ≡ []) }
        ensures grows { IfOk result (λ growth. IsGrowth growth.nodes.items growth.children.items growth.hashes.items) }
    {
        let mut children = Vec::new(alloc);
        children.push(Nodes::new(alloc))?;
        Ok(Growth {
            nodes: Vec::new(alloc),
            children,
            hashes: Vec::new(alloc),
        })
    }

    /// Adds the cells of a version, and answers its last node, or 0.
    pub fn follow(&mut self, alloc: Global, version: &Checked) -> Result<NodeId, NoMemory>
        requires grows { IsGrowth self.old.nodes.items self.old.children.items self.old.hashes.items }
        requires cells { length version.now.cells ≤ 64 }
        requires room { length self.old.nodes.items ≤ 4096 }
        ensures grows { OnOk result (IsGrowth self.new.nodes.items self.new.children.items self.new.hashes.items) }
        ensures known { OnOk result (known self.new.nodes.items ≡ grown (known self.old.nodes.items) (prefixes_of version.now)) }
        ensures low { IfOk result (λ node. node ≤ length self.new.nodes.items) }
        ensures at { IfOk result (λ node. keys_at (known self.new.nodes.items) node ≡ keys_of version.now) }
        ensures few { OnOk result (length self.new.nodes.items ≤ length self.old.nodes.items + 64) }
    {
        let inputs = SharedInputs::of(alloc, &version.inputs)?;
        let mut at = NodeId(0);
        for cell in version.cells.as_slice() {
            at = self.step(alloc, at, cell, &inputs)?;
        }
        Ok(at)
    }

    /// The node of a cell below a node, which is added where it is not there.
    fn step(
        &mut self,
        alloc: Global,
        at: NodeId,
        cell: &Cell,
        inputs: &SharedInputs,
    ) -> Result<NodeId, NoMemory>
        requires grows { IsGrowth self.old.nodes.items self.old.children.items self.old.hashes.items }
        requires within { at ≤ length self.old.nodes.items }
        requires room { length self.old.nodes.items < 2 ^ 32 - 1 }
        ensures grows { OnOk result (IsGrowth self.new.nodes.items self.new.children.items self.new.hashes.items) }
        ensures known { OnOk result (known self.new.nodes.items ≡ with_prefix (known self.old.nodes.items) (record { above = keys_at (known self.old.nodes.items) at; cell = cell.now; inputs = inputs.now })) }
        ensures low { IfOk result (λ node. node ≤ length self.new.nodes.items) }
        ensures at { IfOk result (λ node. keys_at (known self.new.nodes.items) node ≡ keys_at (known self.old.nodes.items) at ++ key_of inputs.now cell.now ∷ []) }
        ensures few { OnOk result (length self.new.nodes.items ≤ length self.old.nodes.items + 1) }
    {
        let hash = hash_of(cell.source());
        match self.child(at, hash, cell, inputs.get()) {
            Some(node) => Ok(node),
            None => {
                let node = self.add(alloc, at, hash, cell, inputs)?;
                Ok(node)
            }
        }
    }

    /// The child with the key of this cell, if there is one.
    fn child(&self, at: NodeId, hash: u64, cell: &Cell, inputs: &Inputs) -> Option<NodeId>
        requires grows { IsGrowth self.now.nodes.items self.now.children.items self.now.hashes.items }
        requires within { at ≤ length self.now.nodes.items }
        requires hash { hash ≡ hash_of cell.now.source }
        ensures low { IfSome result (λ node. node ≤ length self.now.nodes.items) }
        ensures found { IfSome result (λ node. keys_at (known self.now.nodes.items) node ≡ keys_at (known self.now.nodes.items) at ++ key_of inputs.now cell.now ∷ []) }
        ensures none { IfNone result ((k : ℕ) → k ≤ length self.now.nodes.items → keys_at (known self.now.nodes.items) k ≢ (keys_at (known self.now.nodes.items) at ++ key_of inputs.now cell.now ∷ [])) }
    {
        let children = self.children[at.0 as usize].as_slice();
        for child in children {
            if self.is_at(*child, hash, cell, inputs) {
                return Some(*child);
            }
        }
        None
    }

    /// Whether a node has the key of this cell.
    fn is_at(&self, node: NodeId, hash: u64, cell: &Cell, inputs: &Inputs) -> bool
        requires grows { IsGrowth self.now.nodes.items self.now.children.items self.now.hashes.items }
        requires least { 1 ≤ node }
        requires most { node ≤ length self.now.nodes.items }
        requires hash { hash ≡ hash_of cell.now.source }
        ensures { result ≡ same_key (key_at self.now.nodes.items node) (key_of inputs.now cell.now) }
    {
        let place = node.0 as usize - 1;
        let node = &self.nodes[place];
        self.hashes[place] == hash && is_same_key(&node.cell, node.inputs.get(), cell, inputs)
    }

    /// Adds a node for a cell below a node.
    fn add(
        &mut self,
        alloc: Global,
        at: NodeId,
        hash: u64,
        cell: &Cell,
        inputs: &SharedInputs,
    ) -> Result<NodeId, NoMemory>
        requires grows { IsGrowth self.old.nodes.items self.old.children.items self.old.hashes.items }
        requires within { at ≤ length self.old.nodes.items }
        requires room { length self.old.nodes.items < 2 ^ 32 - 1 }
        requires hash { hash ≡ hash_of cell.now.source }
        requires other { (k : ℕ) → k ≤ length self.old.nodes.items → keys_at (known self.old.nodes.items) k ≢ (keys_at (known self.old.nodes.items) at ++ key_of inputs.now cell.now ∷ []) }
        ensures grows { OnOk result (IsGrowth self.new.nodes.items self.new.children.items self.new.hashes.items) }
        ensures nodes { OnOk result (self.new.nodes.items ≡ self.old.nodes.items ++ record { parent = at; cell = cell.now; inputs = inputs.now } ∷ []) }
        ensures last { IfOk result (λ node. node ≡ length self.old.nodes.items + 1) }
    {
        self.nodes.push(Node {
            parent: at,
            cell: cell.copy(alloc)?,
            inputs: inputs.share()?,
        })?;
        self.hashes.push(hash)?;
        self.children.push(Nodes::new(alloc))?;
        let node = NodeId(self.nodes.len() as u32);
        self.children[at.0 as usize].add(node)?;
        Ok(node)
    }
}
