//! Measures the nodes of the tree of versions.
ghost use Rattle.std.specs.Prelude.{◌≡◌, ◌≤◌, ◌+◌, ◌^◌, length, All, IfErr, IfOk, OnOk};
ghost use Rattle.chex_base.specs.Outside.{Rose};
ghost use Rattle.plan_type.specs.Costs.{IsSound};
ghost use Rattle.exec_tree.specs.Forests.{forest_of};
ghost use Rattle.exec_tree.specs.Prefixes.{prefixes};
ghost use Rattle.audit_run.specs.Rows.{AreRows};
ghost use Rattle.audit_run.specs.Sources.{HaveTheirNames, HaveTheirSources};
ghost use Rattle.audit_run.specs.Visits.{steps_of_all};
ghost use Rattle.shared_run.specs.Courses.{EndsSo};
ghost use Rattle.shared_run.specs.Trees.{FitTree, tree_left};

use crate::RunFault;
use audit_run::{AuditFault, audit};
use exec_tree::{Checked, Forest, TreeFault, merge};
use kernel_api::Kernel;
use plan_type::Costs;
use std::alloc::Global;

/// What an audit of versions gives.
#[derive(Drop)]
pub struct Audited {
    /// The tree of the versions, in which nothing is cut.
    pub forest: Forest,
    /// The rows of its nodes.
    pub costs: Costs,
}

/// Runs each version once by itself, with `allowance` steps for each cell, and measures the nodes of
/// the tree of equal beginnings. The answer has what a record is written from: the tree, not cut,
/// and its rows, none of which has more steps than `allowance`. The kernel's count of steps rises by
/// those of all versions.
///
/// It needs what `run_versions` needs of versions, steps and kernel. The versions are merged a
/// second time for the answer, since the audit cuts its tree.
pub fn audit_versions<K: Kernel>(
    alloc: Global,
    versions: &[Checked],
    allowance: u64,
    kernel: &mut K,
) -> Result<Audited, RunFault>
    requires versions { length versions.now ≤ 64 }
    requires cells { All (λ version. length version.cells ≤ 64) versions.now }
    requires sources { HaveTheirSources versions.now }
    requires names { HaveTheirNames versions.now }
    requires allowance { (1 ≤ allowance) × (allowance ≤ 1000000) }
    requires steps { K.steps kernel.old ≤ 2 ^ 63 }
    ensures forest { IfOk result (λ audited. audited.forest ≡ forest_of versions.now) }
    ensures rows { IfOk result (λ audited. AreRows versions.now allowance audited.costs.rows) }
    ensures sound { IfOk result (λ audited. IsSound audited.costs) }
    ensures fit { IfOk result (λ audited. FitTree versions.now audited.costs) }
    ensures within { IfOk result (λ audited. All (λ row. row.steps ≤ allowance) audited.costs.rows) }
    ensures steps { OnOk result (K.steps kernel.new ≡ K.steps kernel.old + steps_of_all versions.now allowance) }
    ensures few { OnOk result (length (prefixes versions.now) ≤ 512) }
    ensures err { IfErr result (EndsSo versions.now (Rose (K.faults kernel.old) (K.faults kernel.new)) ⊥ ⊥) }
    ensures later { K.faults kernel.old ≤ K.faults kernel.new }
{
    let (_, costs) = match measure(alloc, versions, allowance, kernel) {
        Ok(measured) => measured,
        Err(fault) => return Err(fault),
    };
    match merge(alloc, versions) {
        Ok(forest) => Ok(Audited { forest, costs }),
        Err(TreeFault::TooManyNodes { count }) => Err(RunFault::TooManyNodes { count }),
        Err(TreeFault::NoMemory) => Err(RunFault::NoMemory),
    }
}

/// The tree of versions, cut at the nodes that failed, and the rows of its nodes.
pub(crate) fn measure<K: Kernel>(
    alloc: Global,
    versions: &[Checked],
    allowance: u64,
    kernel: &mut K,
) -> Result<(Forest, Costs), RunFault>
    requires versions { length versions.now ≤ 64 }
    requires cells { All (λ version. length version.cells ≤ 64) versions.now }
    requires sources { HaveTheirSources versions.now }
    requires names { HaveTheirNames versions.now }
    requires allowance { (1 ≤ allowance) × (allowance ≤ 1000000) }
    requires steps { K.steps kernel.old ≤ 2 ^ 63 }
    ensures left { IfOk result (λ measured. measured.0 ≡ tree_left versions.now measured.1.rows) }
    ensures rows { IfOk result (λ measured. AreRows versions.now allowance measured.1.rows) }
    ensures sound { IfOk result (λ measured. IsSound measured.1) }
    ensures steps { OnOk result (K.steps kernel.new ≡ K.steps kernel.old + steps_of_all versions.now allowance) }
    ensures few { OnOk result (length (prefixes versions.now) ≤ 512) }
    ensures err { IfErr result (EndsSo versions.now (Rose (K.faults kernel.old) (K.faults kernel.new)) ⊥ ⊥) }
    ensures later { K.faults kernel.old ≤ K.faults kernel.new }
{
    let mut forest = match merge(alloc, versions) {
        Ok(forest) => forest,
        Err(TreeFault::TooManyNodes { count }) => return Err(RunFault::TooManyNodes { count }),
        Err(TreeFault::NoMemory) => return Err(RunFault::NoMemory),
    };
    match audit(alloc, &mut forest, versions, kernel, allowance) {
        Ok(costs) => Ok((forest, costs)),
        Err(AuditFault::KernelFailed) => Err(RunFault::KernelFailed),
        Err(AuditFault::NoMemory) => Err(RunFault::NoMemory),
    }
}
