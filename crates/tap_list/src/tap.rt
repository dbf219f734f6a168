//! What hears the operations of a replay.
ghost use Rattle.std.specs.Prelude.{◌≡◌, ◌≤◌, ◌++◌, ◌∷◌, [], ℕ, List, IfOk, OnOk, OnErr, Err};
ghost use Rattle.chex_base.specs.Outside.{Rose};
ghost use Rattle.plan_type.specs.declared.operations.Operation.{Operation};

use chex_base::{NoMemory, Text};
use plan_type::Operation;
use std::alloc::Global;

/// Why a tap did not hear an event.
#[derive(Clone, Copy, Debug, PartialEq, Eq)]
pub enum TapFault {
    /// The tap failed; its count of failures rose.
    Failed,
    /// Memory was wanting; its count of wants rose.
    NoMemory,
}

/// A listener. It means the list of the events that it heard. Neither of its counts ever falls,
/// and one that has reached the greatest `u64` stays there.
pub trait Tap: Drop {
    /// The events that it heard.
    ghost heard: { Self → List Operation };

    /// How often it failed.
    ghost faults: { Self → ℕ };

    /// How often memory was wanting to it.
    ghost wants: { Self → ℕ };

    /// The text of its report.
    ghost reported: { Self → List ℕ };

    /// Tells it an event. A refused one is not heard.
    fn hear(&mut self, event: Operation) -> Result<(), TapFault>
        ensures ok { OnOk result (heard self.new ≡ heard self.old ++ event ∷ []) }
        ensures err { OnErr result (heard self.new ≡ heard self.old) }
        ensures failed { result ≡ Err TapFault.Failed → Rose (faults self.old) (faults self.new) }
        ensures wanted { result ≡ Err TapFault.NoMemory → Rose (wants self.old) (wants self.new) }
        ensures later { faults self.old ≤ faults self.new }
        ensures later_wants { wants self.old ≤ wants self.new };

    /// How often memory was wanting to it. It takes no memory.
    fn wants(&self) -> u64
        ensures { result ≡ wants self.now };

    /// How often it failed. It takes no memory.
    fn faults(&self) -> u64
        ensures { result ≡ faults self.now };

    /// What it has to say of what it heard.
    fn report(&self, alloc: Global) -> Result<Text, NoMemory>
        ensures { IfOk result (λ text. text ≡ reported self.now) };
}
