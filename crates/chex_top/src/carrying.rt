//! Carries out what the words and the files call for.
ghost use Rattle.std.specs.Prelude.{◌≡◌, ◌≤◌, ◌+◌, ◌-◌, ◌⊎◌, ◌^◌, [], None, length, map, min, Err, Ok};
ghost use Rattle.std.specs.Str.{encode_utf8_all};
ghost use Rattle.chex_base.specs.Outside.{Rose};
ghost use Rattle.star_meaning.specs.Cells as meaning;
ghost use Rattle.plan_type.specs.Budget.{IsBudget};
ghost use Rattle.plan_type.specs.Costs.{IsSound};
ghost use Rattle.plan_type.specs.Prices.{IsLeast};
ghost use Rattle.replayer.specs.Listening.{TellsAllBy};
ghost use Rattle.shared_run.specs.Written.{AreWays, written};
ghost use Rattle.chex_top.specs.Ends as spec;
ghost use Rattle.chex_top.specs.Ends.{End, Ends, EndsAlone, EndsShared, HasNoPlan, IsNothing, Leaves, Says, StopsWith};
ghost use Rattle.shared_run.specs.Numbers.{steps_along_all};
ghost use Rattle.chex_top.specs.RunTexts.{numbers_with, run_text};
ghost use Rattle.chex_top.specs.Tasks.{AreReady, IsReady};
ghost use Rattle.chex_top.specs.Words.{IsAllowance};

use crate::alone::run_alone;
use crate::decision::{Decision, no_memory, no_plan, with_line};
use crate::saying::{Said, numbers};
use crate::stopped;
use crate::task::Task;
use chex_base::{NoMemory, Status};
use exec_tree::Checked;
use kernel_api::{Kernel, KernelFault, Store};
use plan_type::{Budget, Plan};
use shared_run::{RunFault, Shared, run_versions};
use std::alloc::Global;
use tap_list::{Tap, Taps};

/// Carries out a task over a kernel and a store. It writes nothing, and what is to be written is
/// made whole.
pub fn carry_out<K: Kernel, S: Store>(
    alloc: Global,
    task: Task,
    kernel: &mut K,
    store: &mut S,
    taps: &mut Taps,
) -> Decision
    requires ready { IsReady task }
    requires steps { K.steps kernel.old ≤ 2 ^ 63 }
    ensures ends { (end : End) × Ends (S.stock store.old) (Ok task) end × Says end result.status result.plan (encode_utf8_all result.text)
        × Leaves end (K.steps kernel.old) (K.steps kernel.new) (K.live kernel.new) (S.stock store.new)
        × TellsAllBy (λ b. record { heard = (⟦<dyn Tap as Tap>⟧ b.vtable).heard b.value; faults = (⟦<dyn Tap as Tap>⟧ b.vtable).faults b.value; wants = (⟦<dyn Tap as Tap>⟧ b.vtable).wants b.value })
        end.done taps.old.live.items taps.old.retired.items taps.new.live.items taps.new.retired.items }
    ensures kernel { result.status ≡ Status.KernelFault → Rose (K.faults kernel.old) (K.faults kernel.new) }
    ensures store { result.status ≡ Status.StoreFault → Rose (S.faults store.old) (S.faults store.new) }
    ensures counts { (K.faults kernel.old ≤ K.faults kernel.new) × (S.faults store.old ≤ S.faults store.new) }
{
    match task {
        Task::Alone { version, steps } => alone(alloc, version, steps, kernel),
        Task::Shared {
            versions,
            budget,
            steps,
        } => shared(
            alloc,
            versions.as_slice(),
            &budget,
            steps,
            kernel,
            store,
            taps,
        ),
    }
}

/// Runs a version alone.
fn alone<K: Kernel>(alloc: Global, version: Checked, steps: u64, kernel: &mut K) -> Decision
    requires few { length version.cells ≤ 64 }
    requires steps { IsAllowance steps }
    requires room { K.steps kernel.old ≤ 2 ^ 63 }
    ensures ends { EndsAlone version steps result.status (encode_utf8_all result.text) }
    ensures plan { HasNoPlan result.plan }
    ensures steps { result.status ≡ Status.Done → K.steps kernel.new ≡ K.steps kernel.old + meaning.steps version.cells version.inputs steps }
    ensures kernel { result.status ≡ Status.KernelFault → Rose (K.faults kernel.old) (K.faults kernel.new) }
    ensures counts { K.faults kernel.old ≤ K.faults kernel.new }
{
    let Checked { cells, inputs, .. } = version;
    match run_alone(alloc, cells, &inputs, steps, kernel) {
        Ok(text) => Decision {
            status: Status::Done,
            plan: no_plan(alloc),
            text: Said::of(alloc, text),
        },
        Err(KernelFault::Failed) => stop(alloc, RunFault::KernelFailed),
        Err(KernelFault::NoMemory) => no_memory(alloc),
    }
}

/// Runs versions that share their equal beginnings.
fn shared<K: Kernel, S: Store>(
    alloc: Global,
    versions: &[Checked],
    budget: &Budget,
    steps: u64,
    kernel: &mut K,
    store: &mut S,
    taps: &mut Taps,
) -> Decision
    requires ready { AreReady versions.now }
    requires budget { IsBudget budget.now }
    requires steps { IsAllowance steps }
    requires room { K.steps kernel.old ≤ 2 ^ 63 }
    ensures ends { (end : End) × EndsShared versions.now budget.now steps (S.stock store.old) end × Says end result.status result.plan (encode_utf8_all result.text)
        × Leaves end (K.steps kernel.old) (K.steps kernel.new) (K.live kernel.new) (S.stock store.new)
        × TellsAllBy (λ b. record { heard = (⟦<dyn Tap as Tap>⟧ b.vtable).heard b.value; faults = (⟦<dyn Tap as Tap>⟧ b.vtable).faults b.value; wants = (⟦<dyn Tap as Tap>⟧ b.vtable).wants b.value })
        end.done taps.old.live.items taps.old.retired.items taps.new.live.items taps.new.retired.items }
    ensures kernel { result.status ≡ Status.KernelFault → Rose (K.faults kernel.old) (K.faults kernel.new) }
    ensures store { result.status ≡ Status.StoreFault → Rose (S.faults store.old) (S.faults store.new) }
    ensures counts { (K.faults kernel.old ≤ K.faults kernel.new) × (S.faults store.old ≤ S.faults store.new) }
{
    match run_versions(alloc, versions, budget, steps, kernel, store, taps) {
        Ok(shared) => said(alloc, versions, budget, shared),
        Err(fault) => stop(alloc, fault),
    }
}

/// What is said of versions that ran, or want of memory.
fn said(alloc: Global, versions: &[Checked], budget: &Budget, shared: Shared) -> Decision
    requires few { length versions.now ≤ 64 }
    requires budget { IsBudget budget.now }
    requires sound { IsSound shared.costs }
    requires least { IsLeast shared.costs budget.now shared.plan }
    requires many { length shared.ways ≡ length versions.now }
    requires ways { AreWays (length shared.texts) shared.ways }
    ensures { ((result.status ≡ Status.Done) × (result.plan ≡ shared.plan)
        × (result.text ≡ run_text versions.now (map (written shared.texts) shared.ways) (numbers_with (length versions.now) budget.now (min (steps_along_all shared.costs shared.ways) (2 ^ 64 - 1)) shared.costs shared.plan)))
        ⊎ IsNothing result.status result.plan (encode_utf8_all result.text) }
{
    let numbers = numbers(versions, budget, &shared);
    let Shared {
        plan,
        texts,
        ways,
        ..
    } = shared;
    match Said::run(alloc, versions, texts, ways, &numbers) {
        Ok(text) => Decision {
            status: Status::Done,
            plan,
            text,
        },
        Err(NoMemory) => no_memory(alloc),
    }
}

/// What is said where a run stops, or want of memory.
fn stop(alloc: Global, fault: RunFault) -> Decision
    ensures { StopsWith fault result.status result.plan (encode_utf8_all result.text) ⊎ IsNothing result.status result.plan (encode_utf8_all result.text) }
{
    let status = stopped::status(&fault);
    match stopped::line(alloc, &fault) {
        Ok(line) => with_line(alloc, status, plan_at(alloc, fault), line.as_str()),
        Err(NoMemory) => no_memory(alloc),
    }
}

/// The plan that is left where a run stops.
fn plan_at(alloc: Global, fault: RunFault) -> Plan
    ensures { spec.IsPlanAt fault result }
{
    match fault {
        RunFault::Differs { plan, .. } => plan,
        RunFault::TooManyNodes { .. }
        | RunFault::KernelFailed
        | RunFault::StoreFailed
        | RunFault::Damaged { .. }
        | RunFault::NoMemory => no_plan(alloc),
    }
}
