//! One operation, carried out.
ghost use Rattle.std.specs.Prelude.{◌≡◌, ◌≤◌, ◌<◌, ◌+◌, ◌^◌, ℕ, List, false, true, length, IfErr, IfOk, IfSome, MatchOption, OnErr, OnOk, Some};
ghost use Rattle.chex_base.specs.Outside.{Rose};
ghost use Rattle.star_meaning.specs.Validity.{IsValid, MachineState};
ghost use Rattle.star_meaning.specs.Snapshot.{IsBytesOf};
ghost use Rattle.kernel_api.specs.Live.{PutsSnapshot, SnapshotPasses};
ghost use Rattle.kernel_api.specs.Stock.{at, holds};
ghost use Rattle.exec_tree.specs.Forests.{IsNode};
ghost use Rattle.plan_type.specs.declared.row.Row.{Row as ARow};
ghost use Rattle.plan_type.specs.Costs.{IsReached, IsSound, row_of, steps_of, tree_of};
ghost use Rattle.plan_type.specs.Operations.{Legal, Machine, after};
ghost use Rattle.plan_type.specs.Prices.{Prices};
ghost use Rattle.replayer.specs.Nodes.{depth_at, program_of};
ghost use Rattle.replayer.specs.Trees.{IsRowAt, IsTreeOf};
ghost use Rattle.replayer.specs.Differences.{AreSame};
ghost use Rattle.replayer.specs.Machines.{DiffersBy, IsDamaged, IsFine, IsRowIn, PrintsSo, RanSo, Stands, Tells, steps_in};
ghost use Rattle.replayer.specs.Faults.{StopsSo};

use crate::depths::depth_of;
use crate::difference::first_difference;
use crate::replaying::Texts;
use crate::{Difference, ReplayFault};
use chex_base::{NodeId, Text};
use exec_tree::Forest;
use kernel_api::{Kernel, KernelFault, RestoreFault, SaveFault, Store, StoreFault};
use node_rows::run_node;
use plan_type::{Costs, Operation, Row};
use std::alloc::Global;

/// The first field in which a node's recorded row and a measured one differ.
fn compare(costs: &Costs, node: NodeId, measured: &Row) -> Option<Difference>
    requires { IsReached costs.now node }
    ensures { MatchOption result ((row : ARow) → row_of costs.now node ≡ Some row → AreSame row measured.now)
        (λ d. DiffersBy costs.now node d (λ row. row ≡ measured.now)) }
{
    match costs.row(node) {
        Some(recorded) => first_difference(recorded, measured),
        None => unreachable!(),
    }
}

/// Runs a node in the live state, and compares it with its recorded row: its text.
fn compute<K: Kernel>(
    alloc: Global,
    forest: &Forest,
    costs: &Costs,
    allowance: u64,
    kernel: &mut K,
    node: NodeId,
) -> Result<Text, ReplayFault>
    requires node { IsNode forest.now node }
    requires reached { IsReached costs.now node }
    requires loaded { K.loaded kernel.old ≡ program_of forest.now }
    requires live { (s : MachineState) × (K.live kernel.old ≡ Some s) × (length s.ran < 64) }
    requires allowance { (1 ≤ allowance) × (allowance ≤ 1000000) }
    requires room { K.steps kernel.old + allowance < 2 ^ 64 }
    ensures ran { IfOk result (λ text. (s : MachineState) → K.live kernel.old ≡ Some s → RanSo forest.now costs.now allowance node s (K.live kernel.new) text) }
    ensures steps { OnOk result (K.steps kernel.new ≡ K.steps kernel.old + steps_of costs.now node) }
    ensures err { IfErr result (StopsSo (Rose (K.faults kernel.old) (K.faults kernel.new)) ⊥
        (λ v d. (v ≡ node) × DiffersBy costs.now node d (λ row. (s : MachineState) → K.live kernel.old ≡ Some s → IsRowIn forest.now allowance node s row))
        (λ v. ⊥)) }
    ensures loaded { K.loaded kernel.new ≡ K.loaded kernel.old }
    ensures later { K.faults kernel.old ≤ K.faults kernel.new }
{
    let number = kernel.depth() as usize + 1;
    let parent = forest.parent(node);
    let inputs = forest.inputs(node);
    let made = match run_node(alloc, kernel, node, parent, number, inputs, allowance) {
        Ok(made) => made,
        Err(KernelFault::Failed) => return Err(ReplayFault::KernelFailed),
        Err(KernelFault::NoMemory) => return Err(ReplayFault::NoMemory),
    };
    match compare(costs, node, &made.row) {
        Some(difference) => Err(ReplayFault::Differs { node, difference }),
        None => Ok(made.text),
    }
}

/// Stores the snapshot of the live state, for which there is room.
fn checkpoint<K: Kernel, S: Store>(
    alloc: Global,
    kernel: &mut K,
    store: &mut S,
    node: NodeId,
) -> Result<(), ReplayFault>
    requires live { (s : MachineState) × (K.live kernel.old ≡ Some s) × (SnapshotPasses s (S.stock store.old) → ⊥) }
    requires node { holds node (S.stock store.old).held ≡ false }
    ensures put { OnOk result ((s : MachineState) → K.live kernel.old ≡ Some s → PutsSnapshot s node (S.stock store.old) (S.stock store.new)) }
    ensures live { OnOk result (K.live kernel.new ≡ K.live kernel.old) }
    ensures limits { ((S.stock store.new).block ≡ (S.stock store.old).block) × ((S.stock store.new).most ≡ (S.stock store.old).most) }
    ensures err { IfErr result (StopsSo (Rose (K.faults kernel.old) (K.faults kernel.new)) (Rose (S.faults store.old) (S.faults store.new)) (λ v d. ⊥) (λ v. ⊥)) }
    ensures same { (K.loaded kernel.new ≡ K.loaded kernel.old) × (K.steps kernel.new ≡ K.steps kernel.old) }
    ensures later { K.faults kernel.old ≤ K.faults kernel.new }
    ensures store_later { S.faults store.old ≤ S.faults store.new }
{
    match kernel.save(alloc, store, node) {
        Ok(()) => Ok(()),
        Err(SaveFault::Full) => unreachable!(),
        Err(SaveFault::KernelFailed) => Err(ReplayFault::KernelFailed),
        Err(SaveFault::StoreFailed) => Err(ReplayFault::StoreFailed),
        Err(SaveFault::NoMemory) => Err(ReplayFault::NoMemory),
    }
}

/// Goes to the stored state of a node. What the store gives must be a snapshot in which as many
/// cells have run as stand on the node's path.
fn restore<K: Kernel, S: Store>(
    alloc: Global,
    forest: &Forest,
    kernel: &mut K,
    store: &mut S,
    node: NodeId,
) -> Result<(), ReplayFault>
    requires node { node ≤ length forest.now.nodes }
    requires small { node ≤ 512 }
    requires held { holds node (S.stock store.old).held ≡ true }
    ensures live { OnOk result ((s : MachineState) × (K.live kernel.new ≡ Some s) × (length s.ran ≡ depth_at forest.now node)) }
    ensures told { OnOk result (IfSome (S.stock store.old).told (λ files.
        (s : MachineState) × (bytes : List ℕ) × (K.live kernel.new ≡ Some s) × IsValid (K.loaded kernel.old) s × IsBytesOf s bytes × (length bytes < 2 ^ 64) × (at node files ≡ Some bytes))) }
    ensures store { S.stock store.new ≡ S.stock store.old }
    ensures err { IfErr result (StopsSo (Rose (K.faults kernel.old) (K.faults kernel.new)) (Rose (S.faults store.old) (S.faults store.new)) (λ v d. ⊥)
        (λ v. (v ≡ node) × IfSome (S.stock store.old).told (λ files. (bytes : List ℕ) × (at node files ≡ Some bytes) × IsDamaged (K.loaded kernel.old) (depth_at forest.now node) bytes))) }
    ensures same { (K.loaded kernel.new ≡ K.loaded kernel.old) × (K.steps kernel.new ≡ K.steps kernel.old) }
    ensures later { K.faults kernel.old ≤ K.faults kernel.new }
    ensures store_later { S.faults store.old ≤ S.faults store.new }
{
    let bytes = match store.get(alloc, node) {
        Ok(bytes) => bytes,
        Err(StoreFault::Failed) => return Err(ReplayFault::StoreFailed),
        Err(StoreFault::NoMemory) => return Err(ReplayFault::NoMemory),
    };
    match kernel.restore(alloc, &bytes) {
        Ok(()) => {
            let ran = kernel.depth();
            let due = depth_of(forest, node);
            if ran != due {
                return Err(ReplayFault::Damaged { node });
            }
            Ok(())
        }
        Err(RestoreFault::KernelFailed) => Err(ReplayFault::KernelFailed),
        Err(RestoreFault::Damaged) => Err(ReplayFault::Damaged { node }),
        Err(RestoreFault::NoMemory) => Err(ReplayFault::NoMemory),
    }
}

/// Carries one operation out. It is one that may come next where the kernel and the store stand.
pub(crate) fn step<K: Kernel, S: Store>(
    alloc: Global,
    forest: &Forest,
    costs: &Costs,
    allowance: u64,
    kernel: &mut K,
    store: &mut S,
    texts: &mut Texts,
    operation: Operation,
) -> Result<(), ReplayFault>
    requires sound { IsSound costs.now }
    requires tree { IsTreeOf costs.now forest.now }
    requires fine { IsFine costs.now operation }
    requires stands { (m : Machine) × Stands forest.now costs.now (K.live kernel.old) (S.stock store.old) m
        × Legal (tree_of costs.now (S.stock store.old).block) (S.stock store.old).most operation m }
    requires loaded { K.loaded kernel.old ≡ program_of forest.now }
    requires texts { length texts.old ≡ length costs.now.rows }
    requires allowance { (1 ≤ allowance) × (allowance ≤ 1000000) }
    requires room { K.steps kernel.old + allowance < 2 ^ 64 }
    ensures stands { OnOk result ((m : Machine) (prices : Prices) → Stands forest.now costs.now (K.live kernel.old) (S.stock store.old) m
        → Legal (tree_of costs.now (S.stock store.old).block) (S.stock store.old).most operation m
        → Stands forest.now costs.now (K.live kernel.new) (S.stock store.new) (after (tree_of costs.now (S.stock store.old).block) prices operation m)) }
    ensures told { OnOk result ((m : Machine) (prices : Prices) → Tells forest.now allowance (K.live kernel.old) (S.stock store.old).told m.live
        → Legal (tree_of costs.now (S.stock store.old).block) (S.stock store.old).most operation m
        → Tells forest.now allowance (K.live kernel.new) (S.stock store.new).told (after (tree_of costs.now (S.stock store.old).block) prices operation m).live
        × PrintsSo forest.now costs.now allowance operation texts.old texts.new) }
    ensures texts { OnOk result (length texts.new ≡ length texts.old) }
    ensures steps { OnOk result ((m : Machine) → Legal (tree_of costs.now (S.stock store.old).block) (S.stock store.old).most operation m
        → K.steps kernel.new ≡ K.steps kernel.old + steps_in operation) }
    ensures loaded { K.loaded kernel.new ≡ K.loaded kernel.old }
    ensures limits { ((S.stock store.new).block ≡ (S.stock store.old).block) × ((S.stock store.new).most ≡ (S.stock store.old).most) }
    ensures err { IfErr result (StopsSo (Rose (K.faults kernel.old) (K.faults kernel.new)) (Rose (S.faults store.old) (S.faults store.new))
        (λ v d. ((n : ℕ) × (operation ≡ Operation.Compute v n)) × DiffersBy costs.now v d (λ row. (m : Machine) → Tells forest.now allowance (K.live kernel.old) (S.stock store.old).told m.live
        → Legal (tree_of costs.now (S.stock store.old).block) (S.stock store.old).most operation m → IsRowAt forest.now allowance v row))
        (λ v. (operation ≡ Operation.Restore v) × ((m : Machine) → Tells forest.now allowance (K.live kernel.old) (S.stock store.old).told m.live → ⊥))) }
    ensures later { K.faults kernel.old ≤ K.faults kernel.new }
    ensures store_later { S.faults store.old ≤ S.faults store.new }
{
    match operation {
        Operation::Reset => {
            kernel.reset();
            Ok(())
        }
        Operation::Compute { node, .. } => {
            match compute(alloc, forest, costs, allowance, kernel, node) {
                Ok(text) => {
                    texts.set(node.0 as usize - 1, text);
                    Ok(())
                }
                Err(fault) => Err(fault),
            }
        }
        Operation::Checkpoint { node, .. } => checkpoint(alloc, kernel, store, node),
        Operation::Restore { node } => restore(alloc, forest, kernel, store, node),
        Operation::Evict { node } => match store.evict(node) {
            Ok(()) => Ok(()),
            Err(_) => Err(ReplayFault::StoreFailed),
        },
    }
}
