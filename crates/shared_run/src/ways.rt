//! The nodes of versions, in the order in which they are written.
ghost use Rattle.std.specs.Prelude.{◌≡◌, ◌≤◌, length, map, All, IfOk};
ghost use Rattle.exec_tree.specs.Forests.{parents};
ghost use Rattle.shared_run.specs.Written.{AreWays, way_to};

use chex_base::{NoMemory, NodeId};
use exec_tree::Forest;
use sqlite_items::Items;
use std::alloc::Global;

/// Nodes in order; contracts see a list.
pub type Way = Items<NodeId>;

/// Ways in order; contracts see a list of lists.
pub type Ways = Items<Way>;

/// For each version of a forest in order, the nodes from the top down to its last one.
pub(crate) fn ways_of(alloc: Global, forest: &Forest) -> Result<Ways, NoMemory>
    ensures ways { IfOk result (λ ways. ways ≡ map (way_to (parents forest.now)) forest.now.ends) }
    ensures within { IfOk result (AreWays (length forest.now.nodes)) }
{
    let mut ways = Items::new(alloc);
    let ends = forest.ends();
    for end in ends {
        ways.push(way_to(alloc, forest, *end)?)?;
    }
    Ok(ways)
}

/// The nodes from the top down to this one; none to number 0.
fn way_to(alloc: Global, forest: &Forest, end: NodeId) -> Result<Way, NoMemory>
    requires { end ≤ length forest.now.nodes }
    ensures way { IfOk result (λ way. way ≡ way_to (parents forest.now) end) }
    ensures within { IfOk result (All (λ n. (1 ≤ n) × (n ≤ length forest.now.nodes))) }
{
    let mut nodes = Vec::new(alloc);
    let mut at = end;
    while at.0 != 0 {
        nodes.push(at)?;
        at = forest.parent(at);
    }
    nodes.reverse();
    Ok(Items::from_vec(nodes))
}
