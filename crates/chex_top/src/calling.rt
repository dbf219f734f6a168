//! The top call.
ghost use Rattle.std.specs.Prelude.{◌≡◌, ◌⊎◌, ◌≤◌, ◌^◌, ℕ, None, Some, Ok, Err, IfSome, List, map, string_bytes};
ghost use Rattle.chex_base.specs.Outside.{Rose};
ghost use Rattle.replayer.specs.Listening.{TellsAllBy};
ghost use Rattle.chex_top.specs.declared.task.Task.{Task as ATask};
ghost use Rattle.chex_top.specs.Ends.{End, IsDue, IsKept, Leaves, Written, Yields};
ghost use Rattle.chex_top.specs.Refusals.{status_of};
ghost use Rattle.chex_top.specs.Stages.{IsCertain};
ghost use Rattle.chex_top.specs.Tasks.{due};
ghost use Rattle.chex_top.specs.Words.{asked_of};

use crate::decide::decide;
use crate::decision::{Decision, no_plan};
use chex_base::{Library, Sink, Status};
use kernel_api::{Kernel, Store};
use plan_type::Plan;
use std::alloc::Global;
use tap_list::{Tap, Taps};

/// How a call of `chex` ended.
#[derive(Drop)]
pub struct Finish {
    pub status: Status,
    /// The plan that was carried out; empty where none was planned, where the call was refused, and
    /// where the run stopped, unless a replay measured another row than the audit.
    pub plan: Plan,
}

/// Does what the words ask for: `solo NOTEBOOK` runs a notebook alone and writes what it prints, and
/// `run MANIFEST --budget BYTES` runs the versions of a manifest so that equal beginnings are
/// shared, and writes for each its header and what it prints, and at the end a summary.
///
/// The words are those after the program's name. Each file is read anew, and looked at before the
/// next one is. Nothing is run before all cells and nodes were looked at. The whole text is made
/// before the first write, so that writing takes no memory. A refusal writes its one line to `out`
/// and sets the status; docs/FORMATS.md lists both. The taps are told each operation of the plan
/// after it was done. The kernel must have taken at most 2^63 steps.
pub fn chex<L: Library, W: Sink, K: Kernel, S: Store>(
    alloc: Global,
    words: &[String],
    library: &mut L,
    out: &mut W,
    kernel: &mut K,
    store: &mut S,
    taps: &mut Taps,
) -> Finish
    requires { K.steps kernel.old ≤ 2 ^ 63 }
    // One end explains the call: the words and the files call for it, and it says what was written, the plan, the kernel's steps and
    // live state, the store, and what the taps were told.
    ensures ended { (end : End) × IsDue (L.files library.old) (map string_bytes words.now) (S.stock store.old) end
        × Written end result.status result.plan (W.held out.old) (W.held out.new)
        × Leaves end (K.steps kernel.old) (K.steps kernel.new) (K.live kernel.new) (S.stock store.new)
        × TellsAllBy (λ b. record { heard = (⟦<dyn Tap as Tap>⟧ b.vtable).heard b.value; faults = (⟦<dyn Tap as Tap>⟧ b.vtable).faults b.value; wants = (⟦<dyn Tap as Tap>⟧ b.vtable).wants b.value })
        end.done taps.old.live.items taps.old.retired.items taps.new.live.items taps.new.retired.items }
    // A fault of the outside comes only where its count rose.
    ensures absent { result.status ≡ Status.Absent → Rose (L.absences library.old) (L.absences library.new) }
    ensures read { result.status ≡ Status.ReadFault → Rose (L.faults library.old) (L.faults library.new) }
    ensures write { result.status ≡ Status.WriteFault → Rose (W.faults out.old) (W.faults out.new) }
    ensures kernel { result.status ≡ Status.KernelFault → Rose (K.faults kernel.old) (K.faults kernel.new) }
    ensures store { result.status ≡ Status.StoreFault → Rose (S.faults store.old) (S.faults store.new) }
    // Another row and a damaged snapshot come only over a store that does not tell its bytes.
    ensures silent { (result.status ≡ Status.Differs) ⊎ (result.status ≡ Status.Damaged) → (S.stock store.old).told ≡ None }
    // No file is changed, and no count falls.
    ensures files { L.files library.new ≡ L.files library.old }
    ensures counts { (L.absences library.old ≤ L.absences library.new) × (L.faults library.old ≤ L.faults library.new) × (W.faults out.old ≤ W.faults out.new)
        × (K.faults kernel.old ≤ K.faults kernel.new) × (S.faults store.old ≤ S.faults store.new) }
    // Words that are no command are refused, unless memory is wanting or the write fails.
    ensures usage { asked_of (map string_bytes words.now) ≡ None → Yields Status.Usage result.status }
    // So is what the words and the files refuse, with the status of the refusal, unless a read fails too; and where they refuse nothing, the versions run.
    ensures refused { IfSome (L.files library.old) (λ file. (why : _) → due file (map string_bytes words.now) (Err why) → IsCertain {A = ATask} (Err why) → Yields (status_of why) result.status) }
    ensures done { IfSome (L.files library.old) (λ file. (task : _) → due file (map string_bytes words.now) (Ok task) → Yields Status.Done result.status) }
{
    let Decision { status, plan, text } = decide(alloc, words, library, kernel, store, taps);
    if status == Status::NoMemory {
        return Finish { status, plan };
    }
    match text.write(out) {
        Ok(()) => Finish { status, plan },
        Err(_) => Finish {
            status: Status::WriteFault,
            plan: kept(alloc, status, plan),
        },
    }
}

/// The plan that is left where the write of what goes with this status fails.
fn kept(alloc: Global, status: Status, plan: Plan) -> Plan
    ensures { IsKept status plan result }
{
    if status == Status::Done {
        plan
    } else {
        no_plan(alloc)
    }
}
