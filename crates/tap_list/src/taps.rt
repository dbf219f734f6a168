//! The listeners of a replay.
ghost use Rattle.std.specs.Prelude.{◌≡◌, ◌≤◌, ◌<◌, ◌+◌, true, false, [], IfOk, length, vec_len, vec_capacity};
ghost use Rattle.tap_list.specs.Listeners.{Heard, Refused, TurnsBy, TellsBy};

use crate::Tap;
use chex_base::NoMemory;
use plan_type::Operation;
use std::alloc::Global;

/// The taps that are told, and those that are told no longer.
#[derive(Drop)]
pub struct Taps {
    live: Vec<Box<dyn Tap>>,
    retired: Vec<Box<dyn Tap>>,
    ghost roomy: { vec_len retired + vec_len live ≤ vec_capacity retired },
}

impl Taps {
    pub fn live(&self) -> &[Box<dyn Tap>]
        ensures { result.now ≡ self.now.live.items }
    {
        &self.live
    }

    pub fn retired(&self) -> &[Box<dyn Tap>]
        ensures { result.now ≡ self.now.retired.items }
    {
        &self.retired
    }
}

/// Lets one tap hear an event.
fn told(tap: &mut Box<dyn Tap>, event: &Operation) -> bool
    ensures heard { result ≡ true → Heard event.now (record { heard = heard tap.old; faults = faults tap.old; wants = wants tap.old }) (record { heard = heard tap.new; faults = faults tap.new; wants = wants tap.new }) }
    ensures refused { result ≡ false → Refused (record { heard = heard tap.old; faults = faults tap.old; wants = wants tap.old }) (record { heard = heard tap.new; faults = faults tap.new; wants = wants tap.new }) }
{
    match tap.hear(*event) {
        Ok(()) => true,
        Err(_) => false,
    }
}

/// Tells the first tap.
fn turn(live: &mut Vec<Box<dyn Tap>>, retired: &mut Vec<Box<dyn Tap>>, event: &Operation)
    requires some { 0 < length live.old.items }
    requires room { vec_len retired.old < vec_capacity retired.old }
    ensures turns { TurnsBy (λ b. record { heard = heard b; faults = faults b; wants = wants b }) event.now live.old.items retired.old.items live.new.items retired.new.items }
    ensures count { vec_len live.new + vec_len retired.new ≡ vec_len live.old + vec_len retired.old }
    ensures one { length live.old.items ≤ length live.new.items + 1 }
    ensures capacity { vec_capacity retired.old ≤ vec_capacity retired.new }
{
    let mut tap = live.remove(0);
    if told(&mut tap, event) {
        match live.push(tap) {
            Ok(()) => {}
            Err(_) => unreachable!(),
        }
    } else {
        match retired.push(tap) {
            Ok(()) => {}
            Err(_) => unreachable!(),
        }
    }
}

/// Tells each tap, in order.
fn tell_all(live: &mut Vec<Box<dyn Tap>>, retired: &mut Vec<Box<dyn Tap>>, event: &Operation)
    requires room { vec_len retired.old + vec_len live.old ≤ vec_capacity retired.old }
    ensures tells { TellsBy (λ b. record { heard = heard b; faults = faults b; wants = wants b }) event.now live.old.items retired.old.items live.new.items retired.new.items }
    ensures room { vec_len retired.new + vec_len live.new ≤ vec_capacity retired.new }
{
    for _ in 0..live.len() {
        turn(live, retired, event);
    }
}

impl Taps {
    /// The taps in order, all of them live; want of memory drops them. It takes the room for all retired taps.
    pub fn new(alloc: Global, live: Vec<Box<dyn Tap>>) -> Result<Taps, NoMemory>
        ensures live { IfOk result (λ t. t.live.items ≡ live.items) }
        ensures retired { IfOk result (λ t. t.retired.items ≡ []) }
    {
        Ok(Taps {
            retired: Vec::with_capacity(alloc, live.len())?,
            live,
        })
    }

    /// Lets each live tap hear the event, in order. One that refuses it, where a count of its own rose and it
    /// heard nothing, moves to the end of the retired; the others keep their order. It takes no memory.
    pub fn tell(&mut self, event: Operation)
        ensures { TellsBy (λ b. record { heard = heard b; faults = faults b; wants = wants b }) event self.old.live.items self.old.retired.items self.new.live.items self.new.retired.items }
    {
        tell_all(&mut self.live, &mut self.retired, &event);
    }
}
