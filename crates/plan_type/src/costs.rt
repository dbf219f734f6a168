//! The costs of all nodes of the merged tree.
ghost use Rattle.std.specs.Prelude.{◌≡◌, ◌≤◌, ◌^◌, ◌++◌, ◌↔◌, [], ◌∷◌, length, cond, IsTrue, IfOk, OnOk};
ghost use Rattle.std.specs.Option.{option_copied};
ghost use Rattle.plan_type.specs.Costs.{row_of, steps_of, blocks_of, children_of, is_child_in, is_reached_in, is_dead_end, IsSoundRow, IsSound};

use crate::row::{Reach, Row};
use chex_base::{NoMemory, NodeId};
use sqlite_items::Items;
use std::alloc::Global;

/// The most nodes of a merged tree.
const MOST_NODES: usize = 512;

/// The most nodes of a path.
const LONGEST: u8 = 64;

/// The rows of the nodes in rising order; contracts see a list.
pub type Rows = Items<Row>;

/// The costs of all nodes: row i is node i + 1.
#[derive(Debug, Drop)]
pub struct Costs {
    /// The rows of the nodes 1, 2, 3 and so on.
    pub rows: Rows,
}

impl Costs {
    /// The row of a node, if it has one; number 0 has none.
    pub fn row(&self, node: NodeId) -> Option<&Row>
        ensures { option_copied result ≡ row_of self.now node }
    {
        match node.0.checked_sub(1) {
            Some(at) => self.rows.get(at as usize),
            None => None,
        }
    }

    /// The steps of a node, 0 where it has no row.
    pub fn steps(&self, node: NodeId) -> u64
        ensures { result ≡ steps_of self.now node }
    {
        match self.row(node) {
            Some(row) => row.steps,
            None => 0,
        }
    }

    /// The blocks of a node's snapshot, for blocks of `block` bytes; 0 where it has no row.
    pub fn blocks(&self, node: NodeId, block: u32) -> u64
        requires { 1 ≤ block }
        ensures value { result ≡ blocks_of self.now block node }
        ensures most { 256 ≤ block → result ≤ 2 ^ 56 }
    {
        match self.row(node) {
            Some(row) => row.blocks(block),
            None => 0,
        }
    }

    /// The reached children of a node, in rising order; it takes one pass over the rows.
    pub fn children(&self, alloc: Global, of: NodeId) -> Result<Vec<NodeId>, NoMemory>
        requires { length self.now.rows ≤ 512 }
        ensures { IfOk result (λ children. children.items ≡ children_of self.now of) }
    {
        let mut children = Vec::new(alloc);
        let end = self.rows.len() as u32 + 1;
        for number in 1..end {
            let node = NodeId(number);
            push_if(&mut children, node, self.is_child(of, node))?;
        }
        Ok(children)
    }

    /// Whether a node runs.
    pub fn is_reached(&self, node: NodeId) -> bool
        ensures { result ≡ is_reached_in (row_of self.now node) }
    {
        match self.row(node) {
            Some(row) => row.end.is_reached(),
            None => false,
        }
    }

    /// Whether one node is a reached child of another.
    pub fn is_child(&self, of: NodeId, node: NodeId) -> bool
        ensures { result ≡ is_child_in of (row_of self.now node) }
    {
        match self.row(node) {
            Some(row) => row.parent == of && row.end.is_reached(),
            None => false,
        }
    }

    /// Whether these are the costs of a merged tree: at most 512 rows; each parent below its
    /// node; no path longer than 64 nodes; a row unreached exactly where its parent is failed or
    /// unreached; a reached row with 1 to 1,000,000 steps; failed rows with 0 bytes; unreached
    /// rows with 0 steps, 0 bytes and a digest of zeros. Takes one pass over the rows.
    pub fn sound(&self) -> bool
        ensures { IsTrue result ↔ IsSound self.now }
    {
        if self.rows.len() > MOST_NODES {
            return false;
        }
        // The length of the path of each node so far, by number.
        let mut lengths = [0u8; 513];
        for (at, row) in self.rows.as_slice().iter().enumerate() {
            let node = at + 1;
            if !self.is_row_sound(node, row) {
                return false;
            }
            let above = lengths[row.parent.0 as usize];
            if above == LONGEST {
                return false;
            }
            lengths[node] = above + 1;
        }
        true
    }

    /// Whether the row of this node is sound beside the others.
    fn is_row_sound(&self, node: usize, row: &Row) -> bool
        ensures { IsTrue result ↔ IsSoundRow self.now node row.now }
    {
        (row.parent.0 as usize) < node
            && row.end.is_unreached() == self.is_cut_below(row.parent)
            && row.numbers_fit()
    }

    /// Whether no child of this node is reached.
    fn is_cut_below(&self, node: NodeId) -> bool
        ensures { result ≡ is_dead_end (row_of self.now node) }
    {
        match self.row(node) {
            Some(row) => row.end != Reach::Done,
            None => false,
        }
    }
}

fn push_if(nodes: &mut Vec<NodeId>, node: NodeId, wanted: bool) -> Result<(), NoMemory>
    ensures { OnOk result (nodes.new.items ≡ nodes.old.items ++ cond wanted (node ∷ []) []) }
{
    if wanted {
        nodes.push(node)?;
    }
    Ok(())
}
