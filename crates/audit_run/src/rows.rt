//! The rows of one version.
ghost use Rattle.std.specs.Prelude.{◌≡◌, ◌≤◌, ◌<◌, ◌+◌, ◌^◌, length, slice_get, All, Err, IfOk, IfSome, IsSome, OnOk, Some, option_map, true, false};
ghost use Rattle.std.specs.List.{AllZip};
ghost use Rattle.chex_base.specs.Outside.{Rose};
ghost use Rattle.star_syntax.specs.Cells.{numbered};
ghost use Rattle.star_meaning.specs.Cells.{steps};
ghost use Rattle.star_meaning.specs.Validity.{after, nothing_ran, ran_at};
ghost use Rattle.kernel_api.specs.Live.{depth_of};
ghost use Rattle.exec_tree.specs.Prefixes.{prefixes};
ghost use Rattle.exec_tree.specs.declared.checked.Checked.{Checked as AChecked};
ghost use Rattle.node_rows.specs.Rows.{HasResult};
ghost use Rattle.audit_run.specs.Rows.{IsRow, is_done, no_row};
ghost use Rattle.audit_run.specs.Sources.{HaveTheirSources};
ghost use Rattle.audit_run.specs.Visits.{nodes_of, program_of, visits_of};

use crate::AuditFault;
use chex_base::{Inputs, NodeId};
use exec_tree::Checked;
use kernel_api::{Kernel, KernelFault};
use node_rows::run_node;
use plan_type::{Reach, Row};
use std::alloc::Global;

/// The row of a node that no version comes to.
fn unreached(parent: NodeId) -> Row
    ensures { result ≡ no_row parent }
{
    Row {
        parent,
        end: Reach::Unreached,
        steps: 0,
        bytes: 0,
        text: [0; 32],
    }
}

/// Whether a node's cell ran to its end.
fn is_done(row: &Row) -> bool
    ensures { result ≡ is_done row.now.end }
{
    row.end == Reach::Done
}

/// The row of the next node of a version, which comes to it or does not. `number` counts the
/// version's cells from 1.
fn next_row<K: Kernel>(
    alloc: Global,
    kernel: &mut K,
    reached: bool,
    node: NodeId,
    parent: NodeId,
    number: usize,
    inputs: &Inputs,
    allowance: u64,
) -> Result<Row, AuditFault>
    requires ready { reached ≡ true → IsSome (K.live kernel.old) }
    requires node { IsSome (numbered (K.loaded kernel.old).cells node) }
    requires few { reached ≡ true → depth_of (K.live kernel.old) < 64 }
    requires allowance { (1 ≤ allowance) × (allowance ≤ 1000000) }
    requires room { K.steps kernel.old + allowance < 2 ^ 64 }
    ensures came { IfOk result (λ row. reached ≡ true → IfSome (K.live kernel.old) (λ m. (row.parent ≡ parent)
        × HasResult number (Some (ran_at (K.loaded kernel.old) m node inputs.now allowance)) (after (K.loaded kernel.old) m node inputs.now allowance) row)) }
    ensures missed { IfOk result (λ row. reached ≡ false → row ≡ no_row parent) }
    ensures live { OnOk result (reached ≡ true → K.live kernel.new ≡ option_map (λ m. after (K.loaded kernel.old) m node inputs.now allowance) (K.live kernel.old)) }
    ensures steps { IfOk result (λ row. K.steps kernel.new ≡ K.steps kernel.old + row.steps) }
    ensures loaded { K.loaded kernel.new ≡ K.loaded kernel.old }
    ensures cause { result ≡ Err AuditFault.KernelFailed → Rose (K.faults kernel.old) (K.faults kernel.new) }
    ensures later { K.faults kernel.old ≤ K.faults kernel.new }
{
    if reached {
        match run_node(alloc, kernel, node, parent, number, inputs, allowance) {
            Ok(made) => Ok(made.row),
            Err(KernelFault::Failed) => Err(AuditFault::KernelFailed),
            Err(KernelFault::NoMemory) => Err(AuditFault::NoMemory),
        }
    } else {
        Ok(unreached(parent))
    }
}

/// Runs the version at a place by itself up to its first failure, where nothing has run yet: the
/// rows of its nodes, which are handed in.
pub(crate) fn measured<K: Kernel>(
    alloc: Global,
    kernel: &mut K,
    versions: &[Checked],
    place: usize,
    nodes: &[NodeId],
    allowance: u64,
) -> Result<Vec<Row>, AuditFault>
    requires place { place < length versions.now }
    requires cells { All (λ version. length version.cells ≤ 64) versions.now }
    requires sources { HaveTheirSources versions.now }
    requires loaded { K.loaded kernel.old ≡ program_of versions.now }
    requires started { K.live kernel.old ≡ Some nothing_ran }
    requires nodes { (version : AChecked) → slice_get versions.now place ≡ Some version → nodes.now ≡ nodes_of (prefixes versions.now) version }
    requires allowance { (1 ≤ allowance) × (allowance ≤ 1000000) }
    requires steps { K.steps kernel.old + 64000000 < 2 ^ 64 }
    ensures rows { IfOk result (λ rows. (version : AChecked) → slice_get versions.now place ≡ Some version
        → AllZip (IsRow (prefixes versions.now)) (visits_of versions.now allowance version) rows.items) }
    ensures steps { OnOk result ((version : AChecked) → slice_get versions.now place ≡ Some version
        → K.steps kernel.new ≡ K.steps kernel.old + steps version.cells version.inputs allowance) }
    ensures few { OnOk result (K.steps kernel.new ≤ K.steps kernel.old + 64000000) }
    ensures loaded { K.loaded kernel.new ≡ K.loaded kernel.old }
    ensures cause { result ≡ Err AuditFault.KernelFailed → Rose (K.faults kernel.old) (K.faults kernel.new) }
    ensures later { K.faults kernel.old ≤ K.faults kernel.new }
{
    let version = &versions[place];
    let mut rows = Vec::new(alloc);
    let mut parent = NodeId(0);
    let mut reached = true;
    for (number, node) in nodes.iter().enumerate() {
        let row = next_row(
            alloc,
            kernel,
            reached,
            *node,
            parent,
            number + 1,
            &version.inputs,
            allowance,
        )?;
        reached = is_done(&row);
        rows.push(row)?;
        parent = *node;
    }
    Ok(rows)
}
