//! What is known before anything is replayed.
ghost use Rattle.std.specs.Prelude.{◌≡◌, ◌≤◌, ◌+◌, ◌^◌, length, All, IfErr, IfOk, OnOk};
ghost use Rattle.chex_base.specs.Outside.{Rose};
ghost use Rattle.plan_type.specs.Budget.{IsBudget};
ghost use Rattle.exec_tree.specs.Prefixes.{prefixes};
ghost use Rattle.audit_run.specs.Sources.{HaveTheirNames, HaveTheirSources};
ghost use Rattle.audit_run.specs.Visits.{steps_of_all};
ghost use Rattle.shared_run.specs.Courses.{EndsSo};
ghost use Rattle.shared_run.specs.Planning.{IsPlanned};

use crate::RunFault;
use crate::auditing::measure;
use chex_base::NoMemory;
use exec_tree::{Checked, Forest};
use kernel_api::Kernel;
use plan_optimum::least;
use plan_type::{Budget, Costs, Plan};
use std::alloc::Global;

/// The tree of versions, cut at the nodes that failed; the rows of its nodes; and a least plan for
/// them.
#[derive(Drop)]
pub(crate) struct Planned {
    pub(crate) forest: Forest,
    pub(crate) costs: Costs,
    pub(crate) plan: Plan,
}

/// Merges versions, runs each once by itself, and plans.
pub(crate) fn prepare<K: Kernel>(
    alloc: Global,
    versions: &[Checked],
    budget: &Budget,
    allowance: u64,
    kernel: &mut K,
) -> Result<Planned, RunFault>
    requires versions { length versions.now ≤ 64 }
    requires cells { All (λ version. length version.cells ≤ 64) versions.now }
    requires sources { HaveTheirSources versions.now }
    requires names { HaveTheirNames versions.now }
    requires budget { IsBudget budget.now }
    requires allowance { (1 ≤ allowance) × (allowance ≤ 1000000) }
    requires steps { K.steps kernel.old ≤ 2 ^ 63 }
    ensures planned { IfOk result (IsPlanned versions.now budget.now allowance) }
    ensures few { OnOk result (length (prefixes versions.now) ≤ 512) }
    ensures steps { OnOk result (K.steps kernel.new ≡ K.steps kernel.old + steps_of_all versions.now allowance) }
    ensures err { IfErr result (EndsSo versions.now (Rose (K.faults kernel.old) (K.faults kernel.new)) ⊥ ⊥) }
    ensures later { K.faults kernel.old ≤ K.faults kernel.new }
{
    let (forest, costs) = match measure(alloc, versions, allowance, kernel) {
        Ok(measured) => measured,
        Err(fault) => return Err(fault),
    };
    match least(alloc, &costs, budget) {
        Ok(plan) => Ok(Planned {
            forest,
            costs,
            plan,
        }),
        Err(NoMemory) => Err(RunFault::NoMemory),
    }
}
