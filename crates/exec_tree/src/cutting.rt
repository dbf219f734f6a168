//! What a cut changes.
ghost use Rattle.std.specs.Prelude.{◌≡◌, ℕ, ◌<◌, ◌≤◌, length, map, get_or, All};
ghost use Rattle.exec_tree.specs.Forests.{parents_of, marked, moved};
ghost use Rattle.exec_tree.specs.Kept.{cleared};

use crate::node::Node;
use crate::nodes::Nodes;
use chex_base::NodeId;

/// Sets the marks of nodes.
#[tactic(auto, unfolding(crate::specs::Forests::marked))]
pub fn mark(marks: &mut [bool], failed: &[NodeId])
    requires { All (λ node. (1 ≤ node) × (node ≤ length marks.old)) failed.now }
    ensures { marks.new ≡ marked failed.now marks.old }
{
    for node in failed {
        marks[node.0 as usize - 1] = true;
    }
}

/// Takes the children of nodes away.
#[tactic(auto, unfolding(crate::specs::Kept::cleared))]
pub fn clear(children: &mut [Nodes], failed: &[NodeId])
    requires { All (λ node. node < length children.old) failed.now }
    ensures { children.new ≡ cleared failed.now children.old }
{
    for node in failed {
        children[node.0 as usize].clear();
    }
}

/// Moves each end that is a failed node or stands below one to that node.
pub fn move_ends(ends: &mut [NodeId], nodes: &[Node], failed: &[NodeId])
    requires low { (k : ℕ) → k < length nodes.now → get_or (parents_of nodes.now) k 0 ≤ k }
    requires within { All (λ end. end ≤ length nodes.now) ends.old }
    ensures ends { ends.new ≡ map (moved (parents_of nodes.now) failed.now) ends.old }
    ensures within { All (λ end. end ≤ length nodes.now) ends.new }
{
    for end in ends.iter_mut() {
        *end = end_in(nodes, failed, *end);
    }
}

/// The nearest failed node at or above this one, or this one where there is none.
fn end_in(nodes: &[Node], failed: &[NodeId], end: NodeId) -> NodeId
    requires low { (k : ℕ) → k < length nodes.now → get_or (parents_of nodes.now) k 0 ≤ k }
    requires within { end ≤ length nodes.now }
    ensures end { result ≡ moved (parents_of nodes.now) failed.now end }
    ensures within { result ≤ end }
{
    let mut at = end;
    while at.0 != 0 {
        if failed.contains(&at) {
            return at;
        }
        at = nodes[at.0 as usize - 1].parent;
    }
    end
}
