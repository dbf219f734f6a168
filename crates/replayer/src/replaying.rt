//! Carries out a plan.
ghost use Rattle.std.specs.Prelude.{◌≡◌, ◌≤◌, ◌<◌, ◌+◌, ◌^◌, ◌++◌, ◌⊎◌, ℕ, [], length, replicate, Err, IfErr, IfOk, IsSome, OnErr, OnOk, Some, None};
ghost use Rattle.chex_base.specs.Outside.{Rose};
ghost use Rattle.star_meaning.specs.Validity.{nothing_ran};
ghost use Rattle.kernel_api.specs.Stock.{begun};
ghost use Rattle.plan_type.specs.Budget.{IsBudget};
ghost use Rattle.plan_type.specs.Costs.{IsSound};
ghost use Rattle.plan_type.specs.Operations.{Ops, operations_of, ran};
ghost use Rattle.plan_type.specs.Plan.{IsPlan, peak, work};
ghost use Rattle.replayer.specs.declared.difference.Difference.{Difference as ADifference};
ghost use Rattle.replayer.specs.Nodes.{program_of};
ghost use Rattle.replayer.specs.Trees.{AreRecorded, AreTexts, IsTreeOf};
ghost use Rattle.replayer.specs.Machines.{IsAlikeAt};
ghost use Rattle.replayer.specs.Listening.{TellsAllBy};
ghost use Rattle.replayer.specs.Faults.{LeavesOff, StopsSo};
ghost use Rattle.replayer.specs.Courses.{IsFirstToDiffer};

use crate::ReplayFault;
use crate::carrying::carry_out;
use chex_base::{NoMemory, Text};
use exec_tree::Forest;
use kernel_api::{Kernel, KernelFault, Store, StoreFault};
use plan_type::{Budget, Costs, Plan};
use sqlite_items::Items;
use std::alloc::Global;
use tap_list::{Tap, Taps};

/// Texts in order; contracts see a list.
pub type Texts = Items<Text>;

/// What a replay gives.
#[derive(Drop)]
pub struct Outputs {
    /// The text of node n is at place n - 1, for each row of the costs; that of a node that the
    /// costs do not reach is empty.
    pub texts: Texts,
}

/// Loads the program of a forest, begins the store, and carries out the operations of a plan in
/// order, with `allowance` steps for each cell. The taps are told each operation after it was done.
/// Each computing is compared with the node's row right after it was done, so the snapshots never
/// take more than the budget. The kernel's count of steps rises by the plan's work.
///
/// It needs sound costs, whose reached nodes are those of the forest that were not removed; a plan
/// of these nodes that fits the budget; from 1 to 1,000,000 steps for each cell; and a kernel that
/// has taken at most 2^63 + 2^40 steps. After a refusal the kernel and the store are as their last
/// call left them.
///
/// Over a store that tells its bytes, `Differs` comes exactly where a computed node's row is not
/// what the node does, unless a counted fault or want of memory comes first, and `Damaged` never.
pub fn replay<K: Kernel, S: Store>(
    alloc: Global,
    forest: &Forest,
    costs: &Costs,
    budget: &Budget,
    plan: &Plan,
    allowance: u64,
    kernel: &mut K,
    store: &mut S,
    taps: &mut Taps,
) -> Result<Outputs, ReplayFault>
    requires sound { IsSound costs.now }
    requires tree { IsTreeOf costs.now forest.now }
    requires budget { IsBudget budget.now }
    requires class { IsPlan costs.now plan.now }
    requires fits { peak costs.now budget.now plan.now ≤ budget.now.most }
    requires allowance { (1 ≤ allowance) × (allowance ≤ 1000000) }
    requires steps { K.steps kernel.old ≤ 2 ^ 63 + 2 ^ 40 }

    // The texts are those of the nodes, and each row says what its node does.
    ensures texts { IfOk result (λ outputs. IsSome (S.stock store.old).told → AreTexts forest.now costs.now allowance outputs.texts) }
    ensures many { IfOk result (λ outputs. length outputs.texts ≡ length costs.now.rows) }
    ensures rows { OnOk result (IsSome (S.stock store.old).told → AreRecorded forest.now costs.now allowance) }

    // The steps are the plan's work.
    ensures steps { OnOk result (K.steps kernel.new ≡ K.steps kernel.old + work costs.now plan.now) }

    // The live state is that after the live node, nothing is stored, and the peak is the plan's.
    ensures live { OnOk result (IsSome (S.stock store.old).told
        → IsAlikeAt forest.now allowance (K.live kernel.new) (ran costs.now budget.now (operations_of costs.now budget.now plan.now)).live) }
    ensures loaded { OnOk result (K.loaded kernel.new ≡ program_of forest.now) }
    ensures store { OnOk result (((S.stock store.new).held ≡ []) × ((S.stock store.new).peak ≡ peak costs.now budget.now plan.now)) }

    // At every return the store is as it was, or has held no more than the budget.
    ensures bound { (S.stock store.new ≡ S.stock store.old)
        ⊎ (((S.stock store.new).block ≡ budget.now.block) × ((S.stock store.new).most ≡ budget.now.most) × ((S.stock store.new).peak ≤ budget.now.most)) }

    // The taps were told what was done, in order: all of it, or what comes before the operation at
    // which the replay stopped.
    ensures listeners { (done : Ops) × (rest : Ops) × (operations_of costs.now budget.now plan.now ≡ done ++ rest) × LeavesOff result rest
        × TellsAllBy (λ b. record { heard = (⟦<dyn Tap as Tap>⟧ b.vtable).heard b.value; faults = (⟦<dyn Tap as Tap>⟧ b.vtable).faults b.value; wants = (⟦<dyn Tap as Tap>⟧ b.vtable).wants b.value })
        done taps.old.live.items taps.old.retired.items taps.new.live.items taps.new.retired.items }

    // Why it stops.
    ensures differs { (v : ℕ) (d : ADifference) → result ≡ Err (ReplayFault.Differs v d)
        → IsFirstToDiffer forest.now costs.now allowance (S.stock store.old).told (operations_of costs.now budget.now plan.now) v d }
    ensures damaged { (v : ℕ) → result ≡ Err (ReplayFault.Damaged v) → (S.stock store.old).told ≡ None }
    ensures kernel_cause { result ≡ Err ReplayFault.KernelFailed → Rose (K.faults kernel.old) (K.faults kernel.new) }
    ensures store_cause { result ≡ Err ReplayFault.StoreFailed → Rose (S.faults store.old) (S.faults store.new) }
    ensures later { K.faults kernel.old ≤ K.faults kernel.new }
    ensures store_later { S.faults store.old ≤ S.faults store.new }
{
    let operations = plan.operations(alloc, costs, budget)?;
    let mut texts = no_texts(alloc, costs.rows.len())?;
    match begin(alloc, forest, budget, kernel, store) {
        Ok(()) => {}
        Err(fault) => return Err(fault),
    }
    match carry_out(
        alloc,
        forest,
        costs,
        budget,
        allowance,
        kernel,
        store,
        taps,
        &mut texts,
        operations.as_slice(),
    ) {
        Ok(()) => Ok(Outputs { texts }),
        Err(fault) => Err(fault),
    }
}

/// Loads the program of a forest, and begins the store.
fn begin<K: Kernel, S: Store>(
    alloc: Global,
    forest: &Forest,
    budget: &Budget,
    kernel: &mut K,
    store: &mut S,
) -> Result<(), ReplayFault>
    requires { IsBudget budget.now }
    ensures ok { OnOk result ((K.loaded kernel.new ≡ program_of forest.now) × (K.live kernel.new ≡ Some nothing_ran)
        × (S.stock store.new ≡ begun budget.now.block budget.now.most (S.stock store.old))) }
    ensures err { OnErr result (S.stock store.new ≡ S.stock store.old) }
    ensures cause { IfErr result (StopsSo (Rose (K.faults kernel.old) (K.faults kernel.new)) (Rose (S.faults store.old) (S.faults store.new)) (λ v d. ⊥) (λ v. ⊥)) }
    ensures steps { K.steps kernel.new ≡ K.steps kernel.old }
    ensures later { K.faults kernel.old ≤ K.faults kernel.new }
    ensures store_later { S.faults store.old ≤ S.faults store.new }
{
    let program = forest.program(alloc)?;
    match kernel.load(alloc, program) {
        Ok(()) => {}
        Err(KernelFault::Failed) => return Err(ReplayFault::KernelFailed),
        Err(KernelFault::NoMemory) => return Err(ReplayFault::NoMemory),
    }
    match store.begin(alloc, budget.block, budget.most) {
        Ok(()) => Ok(()),
        Err(StoreFault::Failed) => Err(ReplayFault::StoreFailed),
        Err(StoreFault::NoMemory) => Err(ReplayFault::NoMemory),
    }
}

/// So many empty texts.
fn no_texts(alloc: Global, many: usize) -> Result<Texts, NoMemory>
    ensures { IfOk result (λ texts. texts ≡ replicate many []) }
{
    let mut texts = Items::new(alloc);
    for _ in 0..many {
        texts.push(Text::new(alloc))?;
    }
    Ok(texts)
}
