//! Runs versions so that equal beginnings are shared.
ghost use Rattle.std.specs.Prelude.{◌≡◌, ◌≤◌, ◌+◌, ◌^◌, ◌++◌, ◌⊎◌, [], length, map, All, IfErr, IfOk, IsSome, OnOk, None};
ghost use Rattle.chex_base.specs.Outside.{Rose};
ghost use Rattle.plan_type.specs.Budget.{IsBudget};
ghost use Rattle.plan_type.specs.Costs.{IsSound};
ghost use Rattle.plan_type.specs.Operations.{Ops, operations_of, ran};
ghost use Rattle.plan_type.specs.Plan.{IsPlan, peak, work};
ghost use Rattle.plan_type.specs.Prices.{IsLeast};
ghost use Rattle.exec_tree.specs.Prefixes.{prefixes};
ghost use Rattle.audit_run.specs.Rows.{AreRows};
ghost use Rattle.audit_run.specs.Sources.{HaveTheirNames, HaveTheirSources};
ghost use Rattle.audit_run.specs.Visits.{program_of, steps_of_all};
ghost use Rattle.replayer.specs.Courses.{IsFirstToDiffer};
ghost use Rattle.replayer.specs.Nodes as nodes;
ghost use Rattle.replayer.specs.Trees.{AreRecorded, AreTexts, IsTreeOf};
ghost use Rattle.replayer.specs.Machines.{IsAlikeAt};
ghost use Rattle.replayer.specs.Listening.{TellsAllBy};
ghost use Rattle.shared_run.specs.Courses.{EndsSo, IsCourse};
ghost use Rattle.shared_run.specs.Numbers.{steps_along_all};
ghost use Rattle.shared_run.specs.Replaying.{LeavesOff, StopsSo, stopped};
ghost use Rattle.shared_run.specs.Trees.{tree_left};
ghost use Rattle.shared_run.specs.Written.{AreWays, texts_alone, written};

use crate::RunFault;
use crate::planning::{Planned, prepare};
use crate::ways::{Ways, ways_of};
use exec_tree::Checked;
use kernel_api::{Kernel, Store};
use plan_type::{Budget, Costs, Plan};
use replayer::{ReplayFault, Texts, replay};
use std::alloc::Global;
use tap_list::{Tap, Taps};

/// What a run of versions gives.
#[derive(Drop)]
pub struct Shared {
    /// The rows of the nodes of the versions' tree.
    pub costs: Costs,
    /// The plan that was carried out.
    pub plan: Plan,
    /// The text of node n is at place n - 1, for each row of the costs; that of a node that no
    /// version comes to is empty.
    pub texts: Texts,
    /// For each version in order, the nodes whose texts it prints, one after another.
    pub ways: Ways,
}

/// Runs versions, with `allowance` steps for each cell, so that each beginning that several of them
/// have is kept once: merges them into a tree, runs each version once by itself to measure the
/// nodes, finds a plan of least cost for the budget, and carries it out. What a version prints are
/// the texts of its nodes, and over a store that tells its bytes they are exactly what the version
/// prints by itself, from the state in which nothing has run.
///
/// The kernel's count of steps rises by those of all versions, and by the plan's work. The
/// snapshots never take more than the budget. The taps are told each operation of the plan after it
/// was done. Texts are kept outside the budget, each node's once.
///
/// It needs at most 64 versions of at most 64 cells, in which cells of one source are one cell and
/// each cell has the names of the inputs that it reads; from 1 to 1,000,000 steps for each cell; and
/// a kernel that has taken at most 2^63 steps. After a refusal the kernel and the store are as their
/// last call left them.
pub fn run_versions<K: Kernel, S: Store>(
    alloc: Global,
    versions: &[Checked],
    budget: &Budget,
    allowance: u64,
    kernel: &mut K,
    store: &mut S,
    taps: &mut Taps,
) -> Result<Shared, RunFault>
    requires versions { length versions.now ≤ 64 }
    requires cells { All (λ version. length version.cells ≤ 64) versions.now }
    requires sources { HaveTheirSources versions.now }
    requires names { HaveTheirNames versions.now }
    requires budget { IsBudget budget.now }
    requires allowance { (1 ≤ allowance) × (allowance ≤ 1000000) }
    requires steps { K.steps kernel.old ≤ 2 ^ 63 }

    // What is written of each version is what it prints by itself.
    ensures texts { IfOk result (λ shared. IsSome (S.stock store.old).told → map (written shared.texts) shared.ways ≡ texts_alone versions.now allowance) }
    ensures ways { IfOk result (λ shared. AreWays (length shared.texts) shared.ways) }
    ensures many { IfOk result (λ shared. length shared.ways ≡ length versions.now) }

    // No plan of the class costs less than the one that was carried out.
    ensures rows { IfOk result (λ shared. AreRows versions.now allowance shared.costs.rows) }
    ensures sound { IfOk result (λ shared. IsSound shared.costs) }
    ensures least { IfOk result (λ shared. IsLeast shared.costs budget.now shared.plan) }

    // The steps are those of all versions, each by itself, and the plan's work.
    ensures steps { IfOk result (λ shared. K.steps kernel.new ≡ K.steps kernel.old + steps_of_all versions.now allowance + work shared.costs shared.plan) }

    ensures alone { IfOk result (λ shared. steps_along_all shared.costs shared.ways ≡ steps_of_all versions.now allowance) }

    // The live state is that after the live node, nothing is stored, and the peak is the plan's.
    ensures live { IfOk result (λ shared. IsSome (S.stock store.old).told
        → IsAlikeAt (tree_left versions.now shared.costs.rows) allowance (K.live kernel.new) (ran shared.costs budget.now (operations_of shared.costs budget.now shared.plan)).live) }
    ensures loaded { OnOk result (K.loaded kernel.new ≡ program_of versions.now) }
    ensures store { IfOk result (λ shared. ((S.stock store.new).held ≡ []) × ((S.stock store.new).peak ≡ peak shared.costs budget.now shared.plan)) }

    // At every return the store is as it was, or has held no more than the budget.
    ensures bound { (S.stock store.new ≡ S.stock store.old)
        ⊎ (((S.stock store.new).block ≡ budget.now.block) × ((S.stock store.new).most ≡ budget.now.most) × ((S.stock store.new).peak ≤ budget.now.most)) }

    // The taps were told what was done, in order.
    ensures listeners { (done : Ops) × IsCourse versions.now budget.now allowance result done
        × TellsAllBy (λ b. record { heard = (⟦<dyn Tap as Tap>⟧ b.vtable).heard b.value; faults = (⟦<dyn Tap as Tap>⟧ b.vtable).faults b.value; wants = (⟦<dyn Tap as Tap>⟧ b.vtable).wants b.value })
        done taps.old.live.items taps.old.retired.items taps.new.live.items taps.new.retired.items }

    // Too many nodes are refused, and nothing else is where they are too many. Damage and a
    // difference come only over a store that does not tell its bytes.
    ensures few { OnOk result (length (prefixes versions.now) ≤ 512) }
    ensures err { IfErr result (EndsSo versions.now (Rose (K.faults kernel.old) (K.faults kernel.new)) (Rose (S.faults store.old) (S.faults store.new)) ((S.stock store.old).told ≡ None)) }
    ensures later { K.faults kernel.old ≤ K.faults kernel.new }
    ensures store_later { S.faults store.old ≤ S.faults store.new }
{
    let planned = match prepare(alloc, versions, budget, allowance, kernel) {
        Ok(planned) => planned,
        Err(fault) => return Err(fault),
    };
    let ways = ways_of(alloc, &planned.forest)?;
    carry_out(alloc, planned, ways, budget, allowance, kernel, store, taps)
}

/// Carries out what was planned. `ways` are handed through.
pub(crate) fn carry_out<K: Kernel, S: Store>(
    alloc: Global,
    planned: Planned,
    ways: Ways,
    budget: &Budget,
    allowance: u64,
    kernel: &mut K,
    store: &mut S,
    taps: &mut Taps,
) -> Result<Shared, RunFault>
    requires sound { IsSound planned.costs }
    requires tree { IsTreeOf planned.costs planned.forest }
    requires budget { IsBudget budget.now }
    requires class { IsPlan planned.costs planned.plan }
    requires fits { peak planned.costs budget.now planned.plan ≤ budget.now.most }
    requires allowance { (1 ≤ allowance) × (allowance ≤ 1000000) }
    requires steps { K.steps kernel.old ≤ 2 ^ 63 + 2 ^ 40 }
    ensures same { IfOk result (λ shared. (shared.costs ≡ planned.costs) × (shared.plan ≡ planned.plan) × (shared.ways ≡ ways)) }
    ensures texts { IfOk result (λ shared. IsSome (S.stock store.old).told → AreTexts planned.forest planned.costs allowance shared.texts) }
    ensures many { IfOk result (λ shared. length shared.texts ≡ length planned.costs.rows) }
    ensures rows { OnOk result (IsSome (S.stock store.old).told → AreRecorded planned.forest planned.costs allowance) }
    ensures steps { OnOk result (K.steps kernel.new ≡ K.steps kernel.old + work planned.costs planned.plan) }
    ensures live { OnOk result (IsSome (S.stock store.old).told
        → IsAlikeAt planned.forest allowance (K.live kernel.new) (ran planned.costs budget.now (operations_of planned.costs budget.now planned.plan)).live) }
    ensures loaded { OnOk result (K.loaded kernel.new ≡ nodes.program_of planned.forest) }
    ensures store { OnOk result (((S.stock store.new).held ≡ []) × ((S.stock store.new).peak ≡ peak planned.costs budget.now planned.plan)) }
    ensures bound { (S.stock store.new ≡ S.stock store.old)
        ⊎ (((S.stock store.new).block ≡ budget.now.block) × ((S.stock store.new).most ≡ budget.now.most) × ((S.stock store.new).peak ≤ budget.now.most)) }
    ensures listeners { (done : Ops) × (rest : Ops) × (operations_of planned.costs budget.now planned.plan ≡ done ++ rest) × LeavesOff result rest
        × TellsAllBy (λ b. record { heard = (⟦<dyn Tap as Tap>⟧ b.vtable).heard b.value; faults = (⟦<dyn Tap as Tap>⟧ b.vtable).faults b.value; wants = (⟦<dyn Tap as Tap>⟧ b.vtable).wants b.value })
        done taps.old.live.items taps.old.retired.items taps.new.live.items taps.new.retired.items }
    ensures err { IfErr result (StopsSo (Rose (K.faults kernel.old) (K.faults kernel.new)) (Rose (S.faults store.old) (S.faults store.new)) ((S.stock store.old).told ≡ None)
        (IsFirstToDiffer planned.forest planned.costs allowance (S.stock store.old).told (operations_of planned.costs budget.now planned.plan)) planned.plan) }
    ensures later { K.faults kernel.old ≤ K.faults kernel.new }
    ensures store_later { S.faults store.old ≤ S.faults store.new }
{
    let Planned {
        forest,
        costs,
        plan,
    } = planned;
    match replay(
        alloc, &forest, &costs, budget, &plan, allowance, kernel, store, taps,
    ) {
        Ok(outputs) => Ok(Shared {
            costs,
            plan,
            texts: outputs.texts,
            ways,
        }),
        Err(fault) => Err(stopped(plan, fault)),
    }
}

/// Why a run stops whose replay of this plan stopped so.
fn stopped(plan: Plan, fault: ReplayFault) -> RunFault
    ensures { result ≡ stopped plan fault }
{
    match fault {
        ReplayFault::KernelFailed => RunFault::KernelFailed,
        ReplayFault::StoreFailed => RunFault::StoreFailed,
        ReplayFault::Damaged { node } => RunFault::Damaged { node },
        ReplayFault::Differs { node, difference } => RunFault::Differs {
            plan,
            node,
            difference,
        },
        ReplayFault::NoMemory => RunFault::NoMemory,
    }
}
