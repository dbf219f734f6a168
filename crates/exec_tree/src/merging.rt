//! Merges versions into a tree.
ghost use Rattle.std.specs.Prelude.{◌≡◌, ◌<◌, ◌≤◌, length, All, IfOk, IfErr, OnOk};
ghost use Rattle.exec_tree.specs.Prefixes.{prefixes};
ghost use Rattle.exec_tree.specs.Forests.{forest_of};
ghost use Rattle.exec_tree.specs.Merged.{AreMerged, IsFaultOf};

use crate::checked::Checked;
use crate::fault::TreeFault;
use crate::forest::Forest;
use crate::growth::Growth;
use chex_base::{NoMemory, NodeId};
use std::alloc::Global;

/// How many nodes a tree may have.
const MOST_NODES: usize = 512;

/// The tree of the distinct beginnings of versions: node n is the n-th one, counted from 1 in the
/// order in which they first appear, by version and then by cell. Two beginnings are one where
/// their cells have the same sources in the same order, and the inputs that these cells name have
/// the same values or are absent on both sides.
///
/// The time is linear in the bytes of all sources and, for each cell, of the values of the inputs
/// that it names. A cell's source is copied once for each node that it makes, and the inputs once
/// for each version.
pub fn merge(alloc: Global, versions: &[Checked]) -> Result<Forest, TreeFault>
    requires versions { length versions.now ≤ 64 }
    requires cells { All (λ version. length version.cells ≤ 64) versions.now }
    ensures forest { IfOk result (λ forest. forest ≡ forest_of versions.now) }
    ensures few { OnOk result (length (prefixes versions.now) ≤ 512) }
    ensures many { IfErr result (IsFaultOf versions.now) }
{
    let (growth, ends) = grown(alloc, versions)?;
    let count = growth.nodes.len();
    if count > MOST_NODES {
        return Err(TreeFault::TooManyNodes {
            count: count as u32,
        });
    }
    Ok(Forest::new(alloc, growth.nodes, growth.children, ends)?)
}

/// All nodes of versions, however many they are, and the last node of each version.
fn grown(alloc: Global, versions: &[Checked]) -> Result<(Growth, Vec<NodeId>), NoMemory>
    requires versions { length versions.now ≤ 64 }
    requires cells { All (λ version. length version.cells ≤ 64) versions.now }
    ensures { IfOk result (λ made. AreMerged versions.now made.0.nodes.items made.0.children.items made.1.items) }
{
    let mut growth = Growth::new(alloc)?;
    let mut ends = Vec::new(alloc);
    for version in versions {
        let end = growth.follow(alloc, version)?;
        ends.push(end)?;
    }
    Ok((growth, ends))
}
