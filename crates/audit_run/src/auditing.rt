//! Measures all nodes.
ghost use Rattle.std.specs.Prelude.{◌≡◌, ◌≤◌, ◌+◌, ◌^◌, ◌++◌, ◌∷◌, [], cond, length, All, Err, IfOk, OnErr, OnOk};
ghost use Rattle.chex_base.specs.Outside.{Rose};
ghost use Rattle.plan_type.specs.Costs.{IsSound};
ghost use Rattle.exec_tree.specs.Forests.{cells_of, cut, forest_of};
ghost use Rattle.audit_run.specs.Rows.{AreRows, failed_nodes, is_failed};
ghost use Rattle.audit_run.specs.Sources.{HaveTheirNames, HaveTheirSources};
ghost use Rattle.audit_run.specs.Visits.{steps_of_all};

use crate::AuditFault;
use crate::adding::add_version;
use chex_base::{NoMemory, NodeId};
use exec_tree::{Checked, Forest};
use kernel_api::{Kernel, KernelFault};
use plan_type::{Costs, Reach, Row};
use sqlite_items::Items;
use std::alloc::Global;

/// Runs each version once by itself, from the state in which nothing has run up to its first
/// failure, with this many steps allowed for each cell. The answer are the rows of all nodes of the
/// forest, which is cut at the nodes that failed. The kernel's count of steps rises by those of all
/// versions. After a refusal the forest is unchanged.
///
/// It needs the forest of these versions, in which nothing is cut yet, and versions in which cells
/// of one source are one cell. Where each cell has the names of the inputs that it reads, the rows
/// are sound, so that plans can be made over them.
pub fn audit<K: Kernel>(
    alloc: Global,
    forest: &mut Forest,
    versions: &[Checked],
    kernel: &mut K,
    allowance: u64,
) -> Result<Costs, AuditFault>
    requires forest { forest.old ≡ forest_of versions.now }
    requires versions { length versions.now ≤ 64 }
    requires cells { All (λ version. length version.cells ≤ 64) versions.now }
    requires sources { HaveTheirSources versions.now }
    requires allowance { (1 ≤ allowance) × (allowance ≤ 1000000) }
    requires steps { K.steps kernel.old ≤ 2 ^ 63 }
    ensures rows { IfOk result (λ costs. AreRows versions.now allowance costs.rows) }
    ensures sound { IfOk result (λ costs. HaveTheirNames versions.now → IsSound costs) }
    ensures cut { IfOk result (λ costs. forest.new ≡ cut (failed_nodes costs.rows) forest.old) }
    ensures steps { OnOk result (K.steps kernel.new ≡ K.steps kernel.old + steps_of_all versions.now allowance) }
    ensures err { OnErr result (forest.new ≡ forest.old) }
    ensures cause { result ≡ Err AuditFault.KernelFailed → Rose (K.faults kernel.old) (K.faults kernel.new) }
    ensures later { K.faults kernel.old ≤ K.faults kernel.new }
{
    load(alloc, forest, kernel)?;
    let count = forest.count();
    let mut rows = Vec::with_capacity(alloc, count as usize)?;
    for place in 0..versions.len() {
        add_version(alloc, forest, versions, place, kernel, allowance, &mut rows)?;
    }
    let nodes = failed_nodes(alloc, rows.as_slice())?;
    forest.cut(nodes.as_slice());
    Ok(Costs {
        rows: Items::from_vec(rows),
    })
}

/// Loads the cells of all nodes.
fn load<K: Kernel>(alloc: Global, forest: &Forest, kernel: &mut K) -> Result<(), AuditFault>
    ensures loaded { OnOk result ((K.loaded kernel.new).cells ≡ cells_of forest.now) }
    ensures steps { K.steps kernel.new ≡ K.steps kernel.old }
    ensures cause { result ≡ Err AuditFault.KernelFailed → Rose (K.faults kernel.old) (K.faults kernel.new) }
    ensures later { K.faults kernel.old ≤ K.faults kernel.new }
{
    let program = forest.program(alloc)?;
    match kernel.load(alloc, program) {
        Ok(()) => Ok(()),
        Err(KernelFault::Failed) => Err(AuditFault::KernelFailed),
        Err(KernelFault::NoMemory) => Err(AuditFault::NoMemory),
    }
}

/// The numbers of the nodes that failed by their rows, in rising order; row i is that of node i + 1.
pub fn failed_nodes(alloc: Global, rows: &[Row]) -> Result<Vec<NodeId>, NoMemory>
    requires { length rows.now ≤ 512 }
    ensures { IfOk result (λ nodes. nodes.items ≡ failed_nodes rows.now) }
{
    let mut nodes = Vec::new(alloc);
    for (place, row) in rows.iter().enumerate() {
        let node = NodeId(place as u32 + 1);
        push_node_if(&mut nodes, node, is_failed(row))?;
    }
    Ok(nodes)
}

/// Whether a node's cell failed.
fn is_failed(row: &Row) -> bool
    ensures { result ≡ is_failed row.now.end }
{
    row.end == Reach::Failed
}

/// Adds a node that is wanted.
fn push_node_if(nodes: &mut Vec<NodeId>, node: NodeId, wanted: bool) -> Result<(), NoMemory>
    ensures { OnOk result (nodes.new.items ≡ nodes.old.items ++ cond wanted (node ∷ []) []) }
{
    if wanted {
        nodes.push(node)?;
    }
    Ok(())
}
