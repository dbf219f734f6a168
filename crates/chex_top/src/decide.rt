//! What is to be written, made whole before the first write.
ghost use Rattle.std.specs.Prelude.{◌≡◌, ◌≤◌, ◌⊎◌, ◌^◌, None, map, string_bytes};
ghost use Rattle.std.specs.Str.{encode_utf8_all};
ghost use Rattle.chex_base.specs.Outside.{Rose};
ghost use Rattle.replayer.specs.Listening.{TellsAllBy};
ghost use Rattle.chex_top.specs.Ends.{End, IsDue, Leaves, Says};
ghost use Rattle.chex_top.specs.Words.{asked_of};

use crate::carrying::carry_out;
use crate::decision::{Decision, refused};
use crate::task::read_task;
use chex_base::{Library, Status};
use kernel_api::{Kernel, Store};
use std::alloc::Global;
use tap_list::{Tap, Taps};

/// Looks at the words and the files, carries out what they call for, and makes what is to be
/// written. It writes nothing.
pub fn decide<L: Library, K: Kernel, S: Store>(
    alloc: Global,
    words: &[String],
    library: &mut L,
    kernel: &mut K,
    store: &mut S,
    taps: &mut Taps,
) -> Decision
    requires { K.steps kernel.old ≤ 2 ^ 63 }
    ensures due { (end : End) × IsDue (L.files library.old) (map string_bytes words.now) (S.stock store.old) end × Says end result.status result.plan (encode_utf8_all result.text)
        × Leaves end (K.steps kernel.old) (K.steps kernel.new) (K.live kernel.new) (S.stock store.new)
        × TellsAllBy (λ b. record { heard = (⟦<dyn Tap as Tap>⟧ b.vtable).heard b.value; faults = (⟦<dyn Tap as Tap>⟧ b.vtable).faults b.value; wants = (⟦<dyn Tap as Tap>⟧ b.vtable).wants b.value })
        end.done taps.old.live.items taps.old.retired.items taps.new.live.items taps.new.retired.items }
    ensures absent { result.status ≡ Status.Absent → Rose (L.absences library.old) (L.absences library.new) }
    ensures read { result.status ≡ Status.ReadFault → Rose (L.faults library.old) (L.faults library.new) }
    ensures kernel { result.status ≡ Status.KernelFault → Rose (K.faults kernel.old) (K.faults kernel.new) }
    ensures store { result.status ≡ Status.StoreFault → Rose (S.faults store.old) (S.faults store.new) }
    ensures usage { asked_of (map string_bytes words.now) ≡ None → (result.status ≡ Status.Usage) ⊎ (result.status ≡ Status.NoMemory) }
    ensures files { L.files library.new ≡ L.files library.old }
    ensures counts { (L.absences library.old ≤ L.absences library.new) × (L.faults library.old ≤ L.faults library.new)
        × (K.faults kernel.old ≤ K.faults kernel.new) × (S.faults store.old ≤ S.faults store.new) }
{
    match read_task(alloc, words, library) {
        Ok(task) => carry_out(alloc, task, kernel, store, taps),
        Err(refusal) => refused(alloc, &refusal),
    }
}
