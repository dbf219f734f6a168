//! Adds the rows of one version after another.
ghost use Rattle.std.specs.Prelude.{◌≡◌, ◌≤◌, ◌<◌, ◌+◌, ◌^◌, ◌++◌, ◌∷◌, [], ◌==◌, cond, flat_map, length, slice_get, take, All, Err, OnOk, Some};
ghost use Rattle.std.specs.List.{AllZip};
ghost use Rattle.chex_base.specs.Outside.{Rose};
ghost use Rattle.star_meaning.specs.Cells.{steps};
ghost use Rattle.exec_tree.specs.declared.checked.Checked.{Checked as AChecked};
ghost use Rattle.exec_tree.specs.Forests.{forest_of};
ghost use Rattle.exec_tree.specs.Prefixes.{firsts, prefixes};
ghost use Rattle.audit_run.specs.Rows.{IsRow};
ghost use Rattle.audit_run.specs.Sources.{HaveTheirSources};
ghost use Rattle.audit_run.specs.Visits.{program_of, same_node, visits_of};

use crate::AuditFault;
use crate::rows::measured;
use crate::ways::nodes_of;
use chex_base::{NoMemory, NodeId};
use exec_tree::{Checked, Forest};
use kernel_api::Kernel;
use plan_type::Row;
use std::alloc::Global;

/// Runs the version at a place, and adds the rows of those of its nodes that have none yet. Nodes
/// are numbered in the order in which they are met.
pub(crate) fn add_version<K: Kernel>(
    alloc: Global,
    forest: &Forest,
    versions: &[Checked],
    place: usize,
    kernel: &mut K,
    allowance: u64,
    rows: &mut Vec<Row>,
) -> Result<(), AuditFault>
    requires forest { forest.now ≡ forest_of versions.now }
    requires place { place < length versions.now }
    requires cells { All (λ version. length version.cells ≤ 64) versions.now }
    requires sources { HaveTheirSources versions.now }
    requires loaded { K.loaded kernel.old ≡ program_of versions.now }
    requires allowance { (1 ≤ allowance) × (allowance ≤ 1000000) }
    requires steps { K.steps kernel.old + 64000000 < 2 ^ 64 }
    requires rows { AllZip (IsRow (prefixes versions.now)) (firsts same_node (flat_map (visits_of versions.now allowance) (take place versions.now))) rows.old.items }
    ensures rows { OnOk result (AllZip (IsRow (prefixes versions.now)) (firsts same_node (flat_map (visits_of versions.now allowance) (take (place + 1) versions.now))) rows.new.items) }
    ensures steps { OnOk result ((version : AChecked) → slice_get versions.now place ≡ Some version
        → K.steps kernel.new ≡ K.steps kernel.old + steps version.cells version.inputs allowance) }
    ensures few { OnOk result (K.steps kernel.new ≤ K.steps kernel.old + 64000000) }
    ensures loaded { K.loaded kernel.new ≡ K.loaded kernel.old }
    ensures cause { result ≡ Err AuditFault.KernelFailed → Rose (K.faults kernel.old) (K.faults kernel.new) }
    ensures later { K.faults kernel.old ≤ K.faults kernel.new }
{
    let found = nodes_of(alloc, forest, versions, place)?;
    let nodes = found.as_slice();
    kernel.reset();
    let ran = measured(alloc, kernel, versions, place, nodes, allowance)?;
    let more = ran.as_slice();
    for (number, row) in more.iter().enumerate() {
        let count = rows.len();
        let wanted = is_next(nodes[number], count);
        push_row_if(rows, *row, wanted)?;
    }
    Ok(())
}

/// Whether a node is the next one after so many.
fn is_next(node: NodeId, count: usize) -> bool
    requires { count < 2 ^ 63 }
    ensures { result ≡ (node == (count + 1)) }
{
    node.0 as usize == count + 1
}

/// Adds a row that is wanted.
fn push_row_if(rows: &mut Vec<Row>, row: Row, wanted: bool) -> Result<(), NoMemory>
    ensures { OnOk result (rows.new.items ≡ rows.old.items ++ cond wanted (row ∷ []) []) }
{
    if wanted {
        rows.push(row)?;
    }
    Ok(())
}
