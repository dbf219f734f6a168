//! A tap for tests, which fails at one event.
ghost use Rattle.std.specs.Prelude.{◌≡◌, ◌≤◌, ◌<◌, ◌+◌, ◌-◌, ◌^◌, ◌∷◌, ◌++◌, [], true, ◌↔◌, OnOk, OnErr, Err};
ghost use Rattle.std.specs.List.{flat_map};
ghost use Rattle.chex_base.specs.Outside.{Rose, one_more};
ghost use Rattle.tap_list.specs.Lines.{line_of};

use crate::lines::transcript;
use crate::{Tap, TapFault};
use chex_base::{NoMemory, Text};
use plan_type::Operation;
use std::alloc::Global;

/// A tap that fails exactly where it is told the event with a stated number, counted from 1 over
/// all that it is told. It reports the lines of the operations that it heard.
#[derive(Drop)]
pub struct FailingTap {
    heard: Vec<Operation>,
    /// The number of the event at which it fails.
    event: u64,
    /// How many events it was told.
    told: u64,
    faults: u64,
    wants: u64,
}

impl FailingTap {
    /// A tap that was told nothing and fails at this event. It takes no memory.
    pub fn new(alloc: Global, event: u64) -> FailingTap
        ensures begins { (result.heard.items ≡ []) × (result.event ≡ event) × (result.told ≡ 0) }
        ensures counts { (result.faults ≡ 0) × (result.wants ≡ 0) }
    {
        FailingTap {
            heard: Vec::new(alloc),
            event,
            told: 0,
            faults: 0,
            wants: 0,
        }
    }
}

impl Tap for FailingTap {
    ghost heard = { λ t. t.heard.items };

    ghost faults = { λ t. t.faults };

    ghost wants = { λ t. t.wants };

    ghost reported = { λ t. flat_map line_of t.heard.items };

    fn hear(&mut self, event: Operation) -> Result<(), TapFault>
        ensures ok { OnOk result (self.new.heard.items ≡ self.old.heard.items ++ event ∷ []) }
        ensures err { OnErr result (self.new.heard.items ≡ self.old.heard.items) }
        ensures failed { result ≡ Err TapFault.Failed → Rose self.old.faults self.new.faults }
        ensures wanted { result ≡ Err TapFault.NoMemory → Rose self.old.wants self.new.wants }
        ensures later { self.old.faults ≤ self.new.faults }
        ensures later_wants { self.old.wants ≤ self.new.wants }
        ensures fails { (result ≡ Err TapFault.Failed) ↔ ((self.old.told < 2 ^ 64 - 1) × (self.old.told + 1 ≡ self.old.event)) }
        ensures told { self.new.told ≡ one_more self.old.told }
        ensures event { self.new.event ≡ self.old.event }
    {
        let due = is_due(self.told, self.event);
        self.told = self.told.saturating_add(1);
        if due {
            self.faults = self.faults.saturating_add(1);
            return Err(TapFault::Failed);
        }
        match self.heard.push(event) {
            Ok(()) => Ok(()),
            Err(_) => {
                self.wants = self.wants.saturating_add(1);
                Err(TapFault::NoMemory)
            }
        }
    }

    fn wants(&self) -> u64 {
        self.wants
    }

    fn faults(&self) -> u64 {
        self.faults
    }

    fn report(&self, alloc: Global) -> Result<Text, NoMemory> {
        transcript(alloc, &self.heard)
    }
}

/// Whether the event after these has this number.
fn is_due(told: u64, event: u64) -> bool
    ensures { (result ≡ true) ↔ ((told < 2 ^ 64 - 1) × (told + 1 ≡ event)) }
{
    told < u64::MAX && told + 1 == event
}
