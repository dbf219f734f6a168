//! Operations in order.
ghost use Rattle.std.specs.Prelude.{◌≡◌, ◌≤◌, ◌<◌, ◌+◌, ◌^◌, ◌++◌, ℕ, List, [], length, replicate, IfErr, OnOk, Some};
ghost use Rattle.std.specs.List.{AllByRecursion};
ghost use Rattle.chex_base.specs.Outside.{Rose};
ghost use Rattle.plan_type.specs.Costs.{IsSound, tree_of};
ghost use Rattle.plan_type.specs.Operations.{LegalAll, Ops, after_all, start};
ghost use Rattle.plan_type.specs.Prices.{prices_of};
ghost use Rattle.replayer.specs.Nodes.{program_of};
ghost use Rattle.replayer.specs.Trees.{IsTreeOf};
ghost use Rattle.replayer.specs.Machines.{IsFine, Stands, Tells, steps_in_all};
ghost use Rattle.replayer.specs.Listening.{TellsAllBy};
ghost use Rattle.replayer.specs.Faults.{LeavesOff, StopsSo};
ghost use Rattle.replayer.specs.Courses.{IsFirstToDiffer, Printed};

use crate::ReplayFault;
use crate::replaying::Texts;
use crate::steps::step;
use exec_tree::Forest;
use kernel_api::{Kernel, Store};
use plan_type::{Budget, Costs, Operation};
use std::alloc::Global;
use tap_list::{Tap, Taps};

/// Carries operations out in order, from a store that holds nothing, and tells each to the taps
/// after it was done.
pub(crate) fn carry_out<K: Kernel, S: Store>(
    alloc: Global,
    forest: &Forest,
    costs: &Costs,
    budget: &Budget,
    allowance: u64,
    kernel: &mut K,
    store: &mut S,
    taps: &mut Taps,
    texts: &mut Texts,
    operations: &[Operation],
) -> Result<(), ReplayFault>
    requires sound { IsSound costs.now }
    requires tree { IsTreeOf costs.now forest.now }
    requires limits { ((S.stock store.old).block ≡ budget.now.block) × ((S.stock store.old).most ≡ budget.now.most) }
    requires stands { Stands forest.now costs.now (K.live kernel.old) (S.stock store.old) start }
    requires told { (files : List (ℕ × List ℕ)) → (S.stock store.old).told ≡ Some files → files ≡ [] }
    requires legal { LegalAll (tree_of costs.now budget.now.block) (prices_of budget.now) budget.now.most operations.now start }
    requires fine { AllByRecursion (IsFine costs.now) operations.now }
    requires loaded { K.loaded kernel.old ≡ program_of forest.now }
    requires texts { texts.old ≡ replicate (length costs.now.rows) [] }
    requires allowance { (1 ≤ allowance) × (allowance ≤ 1000000) }
    requires room { K.steps kernel.old + steps_in_all operations.now + allowance < 2 ^ 64 }
    ensures stands { OnOk result (Stands forest.now costs.now (K.live kernel.new) (S.stock store.new) (after_all (tree_of costs.now budget.now.block) (prices_of budget.now) operations.now start)) }
    ensures tells { OnOk result ((files : List (ℕ × List ℕ)) → (S.stock store.old).told ≡ Some files
        → Tells forest.now allowance (K.live kernel.new) (S.stock store.new).told (after_all (tree_of costs.now budget.now.block) (prices_of budget.now) operations.now start).live
        × Printed forest.now costs.now allowance operations.now texts.new) }
    ensures texts { OnOk result (length texts.new ≡ length costs.now.rows) }
    ensures steps { OnOk result (K.steps kernel.new ≡ K.steps kernel.old + steps_in_all operations.now) }
    ensures loaded { K.loaded kernel.new ≡ K.loaded kernel.old }
    ensures limits { ((S.stock store.new).block ≡ budget.now.block) × ((S.stock store.new).most ≡ budget.now.most) }
    ensures listeners { (done : Ops) × (rest : Ops) × (operations.now ≡ done ++ rest) × LeavesOff result rest
        × TellsAllBy (λ b. record { heard = (⟦<dyn Tap as Tap>⟧ b.vtable).heard b.value; faults = (⟦<dyn Tap as Tap>⟧ b.vtable).faults b.value; wants = (⟦<dyn Tap as Tap>⟧ b.vtable).wants b.value })
        done taps.old.live.items taps.old.retired.items taps.new.live.items taps.new.retired.items }
    ensures err { IfErr result (StopsSo (Rose (K.faults kernel.old) (K.faults kernel.new)) (Rose (S.faults store.old) (S.faults store.new))
        (λ v d. IsFirstToDiffer forest.now costs.now allowance (S.stock store.old).told operations.now v d)
        (λ v. (files : List (ℕ × List ℕ)) → (S.stock store.old).told ≡ Some files → ⊥)) }
    ensures later { K.faults kernel.old ≤ K.faults kernel.new }
    ensures store_later { S.faults store.old ≤ S.faults store.new }
{
    for operation in operations {
        match step(
            alloc, forest, costs, allowance, kernel, store, texts, *operation,
        ) {
            Ok(()) => taps.tell(*operation),
            Err(fault) => return Err(fault),
        }
    }
    Ok(())
}
