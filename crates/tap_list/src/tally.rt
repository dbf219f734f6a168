//! A tap that counts.
ghost use Rattle.std.specs.Prelude.{◌≡◌, ◌≤◌, ◌<◌, ◌+◌, ◌*◌, ◌-◌, ◌^◌, [], ◌∷◌, ◌++◌, IfOk, OnOk, OnErr, string_bytes, vec_len};
ghost use Rattle.std.specs.Str.{chars};
ghost use Rattle.tap_list.specs.Counts.{counts_of, with_event, tally_text, IsWithin};

use crate::{Tap, TapFault};
use chex_base::{NoMemory, Text};
use plan_type::Operation;
use std::alloc::Global;

/// How many operations of each kind there were, and the sum of the computed steps.
#[derive(Clone, Copy, Debug, PartialEq, Eq)]
pub struct Counts {
    computes: u64,
    checkpoints: u64,
    restores: u64,
    evicts: u64,
    steps: u128,
}

/// A tap that counts the operations that it hears, by their kinds, and adds up the steps of
/// those that compute. It never fails.
#[derive(Drop)]
pub struct Tally {
    heard: Vec<Operation>,
    counts: Counts,
    wants: u64,
    ghost counted: { counts ≡ counts_of heard.items },
    ghost within: { IsWithin (vec_len heard) counts },
}

impl Tally {
    /// A tally that has heard nothing. It takes no memory.
    pub fn new(alloc: Global) -> Tally
        ensures { (result.heard.items ≡ []) × (result.wants ≡ 0) }
    {
        Tally {
            heard: Vec::new(alloc),
            counts: Counts {
                computes: 0,
                checkpoints: 0,
                restores: 0,
                evicts: 0,
                steps: 0,
            },
            wants: 0,
        }
    }
}

impl Tap for Tally {
    ghost heard = { λ t. t.heard.items };

    ghost faults = { λ t. 0 };

    ghost wants = { λ t. t.wants };

    ghost reported = { λ t. tally_text (counts_of t.heard.items) };

    fn hear(&mut self, event: Operation) -> Result<(), TapFault> {
        let counts = counted(self.counts, &event, self.heard.len());
        match self.heard.push(event) {
            Ok(()) => {
                self.counts = counts;
                Ok(())
            }
            Err(_) => {
                self.wants = self.wants.saturating_add(1);
                Err(TapFault::NoMemory)
            }
        }
    }

    fn wants(&self) -> u64 {
        self.wants
    }

    fn faults(&self) -> u64 {
        0
    }

    fn report(&self, alloc: Global) -> Result<Text, NoMemory> {
        let line = line(alloc, self.counts)?;
        Text::from_str(alloc, &line)
    }
}

/// The counts of `many` events and one more.
fn counted(counts: Counts, event: &Operation, many: usize) -> Counts
    requires within { IsWithin many counts }
    requires small { many < 2 ^ 63 }
    ensures counts { result ≡ with_event counts event.now }
    ensures within { IsWithin (many + 1) result }
{
    let mut counts = counts;
    match event {
        Operation::Reset => {}
        Operation::Compute { steps, .. } => {
            counts.computes += 1;
            counts.steps += u128::from(*steps);
        }
        Operation::Checkpoint { .. } => counts.checkpoints += 1,
        Operation::Restore { .. } => counts.restores += 1,
        Operation::Evict { .. } => counts.evicts += 1,
    }
    counts
}

/// The line of these counts.
fn line(alloc: Global, counts: Counts) -> Result<String, NoMemory>
    ensures { IfOk result (λ line. chars (string_bytes line) ≡ tally_text counts) }
{
    let Counts {
        computes,
        checkpoints,
        restores,
        evicts,
        steps,
    } = counts;
    Ok(format!(in alloc;
        "computes {computes} checkpoints {checkpoints} restores {restores} evicts {evicts} steps {steps}\n"
    )?)
}
