//! The tree of the versions' equal beginnings.
ghost use Rattle.std.specs.Prelude.{◌≤◌, All, IfErr, IfOk, Ok, length};
ghost use Rattle.chex_top.specs.Nodes as spec;

use crate::refusal::Refusal;
use exec_tree::{Checked, Forest, TreeFault, merge};
use std::alloc::Global;

/// The tree of the distinct beginnings of versions, or its refusal where it would have more than
/// 512 nodes. docs/FORMATS.md says when two beginnings are one. The versions are lent, and each cell
/// is copied once for each node that it makes; the time is linear in the sources.
pub fn merged(alloc: Global, versions: &[Checked]) -> Result<Forest, Refusal>
    requires versions { length versions.now ≤ 64 }
    requires cells { All (λ version. length version.cells ≤ 64) versions.now }
    ensures ok { IfOk result (λ forest. spec.nodes versions.now (Ok forest)) }
    ensures refused { IfErr result (spec.IsNodesRefusal versions.now) }
{
    match merge(alloc, versions) {
        Ok(forest) => Ok(forest),
        Err(TreeFault::TooManyNodes { count }) => Err(Refusal::TooManyNodes { count }),
        Err(TreeFault::NoMemory) => Err(Refusal::NoMemory),
    }
}
