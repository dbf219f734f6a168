//! How deep a node stands.
ghost use Rattle.std.specs.Prelude.{◌≡◌, ◌≤◌, length};
ghost use Rattle.replayer.specs.Nodes.{depth_at};

use chex_base::NodeId;
use exec_tree::Forest;

/// How many cells stand on the path of a node, itself among them; none on that of 0. It takes no
/// memory, and time linear in that number.
pub fn depth_of(forest: &Forest, node: NodeId) -> u32
    requires node { node ≤ length forest.now.nodes }
    requires small { node ≤ 512 }
    ensures { result ≡ depth_at forest.now node }
{
    let mut depth = 0;
    let mut at = node;
    while at.0 != 0 {
        at = forest.parent(at);
        depth += 1;
    }
    depth
}
