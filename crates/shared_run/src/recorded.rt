//! Replays versions by the rows of a record.
ghost use Rattle.std.specs.Prelude.{◌≡◌, ◌≤◌, ◌+◌, ◌^◌, ◌⊎◌, [], length, map, All, IfErr, IfOk, IsSome, OnOk};
ghost use Rattle.chex_base.specs.Outside.{Rose};
ghost use Rattle.plan_type.specs.Budget.{IsBudget};
ghost use Rattle.plan_type.specs.Costs.{IsSound};
ghost use Rattle.plan_type.specs.Operations.{Ops, operations_of, ran};
ghost use Rattle.plan_type.specs.Plan.{peak, work};
ghost use Rattle.plan_type.specs.Prices.{IsLeast};
ghost use Rattle.audit_run.specs.Rows.{AreRows};
ghost use Rattle.audit_run.specs.Sources.{HaveTheirNames, HaveTheirSources};
ghost use Rattle.audit_run.specs.Visits.{program_of, steps_of_all};
ghost use Rattle.replayer.specs.Listening.{TellsAllBy};
ghost use Rattle.replayer.specs.Machines.{IsAlikeAt};
ghost use Rattle.shared_run.specs.Numbers.{steps_along_all};
ghost use Rattle.shared_run.specs.Recorded.{DiffersUntold, IsReplayed, RefusesSo};
ghost use Rattle.shared_run.specs.Trees.{FitTree, tree_left};
ghost use Rattle.shared_run.specs.Written.{AreWays, texts_alone, written};

use crate::RunFault;
use crate::planning::Planned;
use crate::running::{Shared, carry_out};
use crate::ways::ways_of;
use audit_run::failed_nodes;
use chex_base::NoMemory;
use exec_tree::{Checked, Forest, TreeFault, merge};
use kernel_api::{Kernel, Store};
use plan_optimum::least;
use plan_type::{Budget, Costs, Plan};
use std::alloc::Global;
use tap_list::{Tap, Taps};

/// Replays versions by rows that were recorded of them, with `allowance` steps for each cell: finds
/// a plan of least cost for the recorded rows and the budget, and carries it out. Nothing is run
/// beside the plan. What a version prints are the texts of its nodes, and over a store that tells
/// its bytes they are exactly what the version prints by itself.
///
/// Each computing is compared with its recorded row. Over a store that tells its bytes `Differs`
/// comes only at the first node of the plan whose recorded row is not that of the versions, and the
/// answer is a replay only where all recorded rows are.
///
/// The kernel's count of steps rises by the plan's work. The snapshots never take more than the
/// budget. The taps are told each operation of the plan after it was done. Texts are kept outside
/// the budget, each node's once.
///
/// It needs what `run_versions` needs of versions, steps and kernel, and sound rows, as many as the
/// versions' tree has nodes and with their parents. After a refusal the kernel and the store are as
/// their last call left them. `TooManyNodes` never comes, since there are at most 512 rows.
pub fn replay_versions<K: Kernel, S: Store>(
    alloc: Global,
    versions: &[Checked],
    costs: Costs,
    budget: &Budget,
    allowance: u64,
    kernel: &mut K,
    store: &mut S,
    taps: &mut Taps,
) -> Result<Shared, RunFault>
    requires versions { length versions.now ≤ 64 }
    requires cells { All (λ version. length version.cells ≤ 64) versions.now }
    requires sources { HaveTheirSources versions.now }
    requires names { HaveTheirNames versions.now }
    requires sound { IsSound costs }
    requires fit { FitTree versions.now costs }
    requires budget { IsBudget budget.now }
    requires allowance { (1 ≤ allowance) × (allowance ≤ 1000000) }
    requires steps { K.steps kernel.old ≤ 2 ^ 63 }

    // What is written of each version is what it prints by itself.
    ensures texts { IfOk result (λ shared. IsSome (S.stock store.old).told → map (written shared.texts) shared.ways ≡ texts_alone versions.now allowance) }
    ensures ways { IfOk result (λ shared. AreWays (length shared.texts) shared.ways) }
    ensures many { IfOk result (λ shared. length shared.ways ≡ length versions.now) }

    // All recorded rows are right, and no plan of the class costs less than the one that was carried
    // out.
    ensures costs { IfOk result (λ shared. shared.costs ≡ costs) }
    ensures rows { OnOk result (IsSome (S.stock store.old).told → AreRows versions.now allowance costs.rows) }
    ensures least { IfOk result (λ shared. IsLeast costs budget.now shared.plan) }

    // The steps are the plan's work. Those of all versions, each by itself, are told by the rows.
    ensures steps { IfOk result (λ shared. K.steps kernel.new ≡ K.steps kernel.old + work costs shared.plan) }
    ensures alone { IfOk result (λ shared. IsSome (S.stock store.old).told → steps_along_all shared.costs shared.ways ≡ steps_of_all versions.now allowance) }

    // The live state is that after the live node, nothing is stored, and the peak is the plan's.
    ensures live { IfOk result (λ shared. IsSome (S.stock store.old).told
        → IsAlikeAt (tree_left versions.now costs.rows) allowance (K.live kernel.new) (ran costs budget.now (operations_of costs budget.now shared.plan)).live) }
    ensures loaded { OnOk result (K.loaded kernel.new ≡ program_of versions.now) }
    ensures store { IfOk result (λ shared. ((S.stock store.new).held ≡ []) × ((S.stock store.new).peak ≡ peak costs budget.now shared.plan)) }

    // At every return the store is as it was, or has held no more than the budget.
    ensures bound { (S.stock store.new ≡ S.stock store.old)
        ⊎ (((S.stock store.new).block ≡ budget.now.block) × ((S.stock store.new).most ≡ budget.now.most) × ((S.stock store.new).peak ≤ budget.now.most)) }

    // The taps were told what was done, in order.
    ensures listeners { (done : Ops) × IsReplayed costs budget.now result done
        × TellsAllBy (λ b. record { heard = (⟦<dyn Tap as Tap>⟧ b.vtable).heard b.value; faults = (⟦<dyn Tap as Tap>⟧ b.vtable).faults b.value; wants = (⟦<dyn Tap as Tap>⟧ b.vtable).wants b.value })
        done taps.old.live.items taps.old.retired.items taps.new.live.items taps.new.retired.items }

    // Why it stops. Where the recorded rows are those of the versions, a difference comes only over
    // a store that does not tell its bytes.
    ensures err { IfErr result (RefusesSo versions.now costs budget.now allowance (Rose (K.faults kernel.old) (K.faults kernel.new)) (Rose (S.faults store.old) (S.faults store.new)) (S.stock store.old).told) }
    ensures right { AreRows versions.now allowance costs.rows → IfErr result (DiffersUntold (S.stock store.old).told) }
    ensures later { K.faults kernel.old ≤ K.faults kernel.new }
    ensures store_later { S.faults store.old ≤ S.faults store.new }
{
    let (forest, plan) = plan_recorded(alloc, versions, &costs, budget)?;
    let ways = ways_of(alloc, &forest)?;
    let planned = Planned {
        forest,
        costs,
        plan,
    };
    carry_out(alloc, planned, ways, budget, allowance, kernel, store, taps)
}

/// The tree of versions, cut at the nodes that failed by these rows, and a least plan for them.
fn plan_recorded(
    alloc: Global,
    versions: &[Checked],
    costs: &Costs,
    budget: &Budget,
) -> Result<(Forest, Plan), NoMemory>
    requires versions { length versions.now ≤ 64 }
    requires cells { All (λ version. length version.cells ≤ 64) versions.now }
    requires sound { IsSound costs.now }
    requires fit { FitTree versions.now costs.now }
    requires budget { IsBudget budget.now }
    ensures left { IfOk result (λ planned. planned.0 ≡ tree_left versions.now costs.now.rows) }
    ensures least { IfOk result (λ planned. IsLeast costs.now budget.now planned.1) }
{
    let mut forest = match merge(alloc, versions) {
        Ok(forest) => forest,
        // There are as many nodes as rows.
        Err(TreeFault::TooManyNodes { count: _ }) => unreachable!(),
        Err(TreeFault::NoMemory) => return Err(NoMemory),
    };
    let failed = failed_nodes(alloc, costs.rows.as_slice())?;
    forest.cut(failed.as_slice());
    let plan = least(alloc, costs, budget)?;
    Ok((forest, plan))
}
