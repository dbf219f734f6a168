//! The tree of versions.
ghost use Rattle.std.specs.Prelude.{◌≡◌, ℕ, ◌<◌, ◌≤◌, ◌+◌, ◌||◌, false, length, map, replicate, get_or, All, IfOk, Some};
ghost use Rattle.std.specs.List.{list_any};
ghost use Rattle.star_syntax.specs.Cells.{numbered};
ghost use Rattle.exec_tree.specs.Forests.{IsNode, parents, parent_of, path, children_of, is_removed, is_among, cut, cells_of, inputs_of};
ghost use Rattle.exec_tree.specs.Kept.{AreLinked};

use crate::cutting::{clear, mark, move_ends};
use crate::node::Node;
use crate::nodes::Nodes;
use chex_base::{Inputs, NoMemory, NodeId};
use star_syntax::{Cell, Cells, Program};
use std::alloc::Global;
use std::marker::Model;

/// The tree of versions: its nodes are numbered from 1, and 0 is the empty state above them. A node
/// keeps its number when the tree is cut. No look-up takes memory, and each takes constant time.
#[derive(Drop)]
pub struct Forest {
    /// Node n is at place n - 1.
    nodes: Vec<Node>,
    /// The children of each number from 0 on.
    children: Vec<Nodes>,
    /// Whether the tree was cut at each node.
    cut: Vec<bool>,
    /// The last node of each version.
    ends: Vec<NodeId>,
}

impl Model for Forest {
    ghost use Rattle.exec_tree.specs.Forests.{ForestParts, forest_code};

    ghost Value = { ForestParts };

    ghost coded = { forest_code };

    ghost use Rattle.exec_tree.specs.Kept.{IsKept};

    ghost view = { λ f. record { nodes = f.nodes.items; cut = f.cut.items; ends = f.ends.items } };

    ghost invariant = { λ f. IsKept f.nodes.items f.children.items f.cut.items f.ends.items };
}

impl Forest {
    /// The forest of these nodes, in which nothing is cut.
    pub(crate) fn new(
        alloc: Global,
        nodes: Vec<Node>,
        children: Vec<Nodes>,
        ends: Vec<NodeId>,
    ) -> Result<Forest, NoMemory>
        requires few { length nodes.items ≤ 512 }
        requires linked { AreLinked nodes.items children.items ends.items }
        ensures { IfOk result (λ f. f ≡ record { nodes = nodes.items; cut = replicate (length nodes.items) false; ends = ends.items }) }
    {
        let cut = vec![in alloc; false; nodes.len()]?;
        Ok(Forest {
            nodes,
            children,
            cut,
            ends,
        })
    }

    /// How many nodes the tree was made with.
    pub fn count(&self) -> u32
        ensures count { result ≡ length self.now.nodes }
        ensures few { result ≤ 512 }
    {
        self.nodes.len() as u32
    }

    /// The node above a node, or 0.
    pub fn parent(&self, node: NodeId) -> NodeId
        requires { IsNode self.now node }
        ensures parent { result ≡ parent_of self.now node }
        ensures low { result < node }
    {
        self.nodes[node.0 as usize - 1].parent
    }

    /// The nodes right below a node or 0, in rising order; none below a node at which the tree was
    /// cut.
    pub fn children(&self, node: NodeId) -> &[NodeId]
        requires { node ≤ length self.now.nodes }
        ensures { result.now ≡ children_of self.now node }
    {
        self.children[node.0 as usize].as_slice()
    }

    /// The cell of a node.
    pub fn cell(&self, node: NodeId) -> &Cell
        requires { IsNode self.now node }
        ensures { numbered (cells_of self.now) node ≡ Some result.now }
    {
        &self.nodes[node.0 as usize - 1].cell
    }

    /// The inputs of the first version through a node.
    pub fn inputs(&self, node: NodeId) -> &Inputs
        requires { IsNode self.now node }
        ensures { numbered (inputs_of self.now) node ≡ Some result.now }
    {
        self.nodes[node.0 as usize - 1].inputs.get()
    }

    /// The node at which each version ends, or 0 for a version without cells.
    pub fn ends(&self) -> &[NodeId]
        ensures ends { result.now ≡ self.now.ends }
        ensures within { All (λ end. end ≤ length self.now.nodes) self.now.ends }
    {
        self.ends.as_slice()
    }

    /// The cells of all nodes that the tree was made with, also of removed ones, so that the cell of
    /// node n is at place n - 1. Each source is copied.
    pub fn program(&self, alloc: Global) -> Result<Program, NoMemory>
        ensures { IfOk result (λ program. program.cells ≡ cells_of self.now) }
    {
        let mut cells = Vec::new(alloc);
        for node in &self.nodes {
            cells.push(node.cell.copy(alloc)?)?;
        }
        Ok(Program {
            cells: Cells::from_vec(cells),
        })
    }

    /// Cuts the tree at nodes that failed: all that stands below one of them is removed, and a
    /// version that ended there ends at the failed node. It takes no memory, and time linear in the
    /// nodes and, for each version, in its cells times the failed nodes.
    pub fn cut(&mut self, failed: &[NodeId])
        requires { All (IsNode self.old) failed.now }
        ensures cut { self.new ≡ cut failed.now self.old }
        ensures removed { (n : ℕ) → IsNode self.old n → is_removed self.new n ≡ (is_removed self.old n || list_any (is_among failed.now) (path (parents self.old) (parent_of self.old n))) }
    {
        mark(&mut self.cut, failed);
        clear(&mut self.children, failed);
        move_ends(&mut self.ends, &self.nodes, failed);
    }
}
