//! The nodes of a version.
ghost use Rattle.std.specs.Prelude.{◌≡◌, ◌<◌, length, slice_get, IfOk, Some};
ghost use Rattle.exec_tree.specs.Prefixes.{prefixes};
ghost use Rattle.exec_tree.specs.Forests.{forest_of};
ghost use Rattle.exec_tree.specs.declared.checked.Checked.{Checked as AChecked};
ghost use Rattle.audit_run.specs.Visits.{nodes_of};

use chex_base::{NoMemory, NodeId};
use exec_tree::{Checked, Forest};
use std::alloc::Global;

/// The nodes of the cells of the version at a place, in order, in the forest of all versions.
pub(crate) fn nodes_of(
    alloc: Global,
    forest: &Forest,
    versions: &[Checked],
    place: usize,
) -> Result<Vec<NodeId>, NoMemory>
    requires forest { forest.now ≡ forest_of versions.now }
    requires place { place < length versions.now }
    ensures { IfOk result (λ nodes. (version : AChecked) → slice_get versions.now place ≡ Some version → nodes.items ≡ nodes_of (prefixes versions.now) version) }
{
    let ends = forest.ends();
    let mut node = ends[place];
    let cells = versions[place].cells.as_slice();
    let mut left = cells.len();
    let mut nodes = vec![in alloc; NodeId(0); left]?;
    'cells: while left > 0 {
        left -= 1;
        nodes[left] = node;
        node = forest.parent(node);
    }
    Ok(nodes)
}
