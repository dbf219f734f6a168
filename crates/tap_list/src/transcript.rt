//! A tap that reports what it heard.
ghost use Rattle.std.specs.Prelude.{◌≡◌, []};
ghost use Rattle.std.specs.List.{flat_map};
ghost use Rattle.tap_list.specs.Lines.{line_of};

use crate::lines::transcript;
use crate::{Tap, TapFault};
use chex_base::{NoMemory, Text};
use plan_type::Operation;
use std::alloc::Global;

/// A tap that reports the lines of the operations that it heard. It never fails.
#[derive(Drop)]
pub struct Transcript {
    heard: Vec<Operation>,
    wants: u64,
}

impl Transcript {
    /// A transcript that has heard nothing. It takes no memory.
    pub fn new(alloc: Global) -> Transcript
        ensures { (result.heard.items ≡ []) × (result.wants ≡ 0) }
    {
        Transcript {
            heard: Vec::new(alloc),
            wants: 0,
        }
    }
}

impl Tap for Transcript {
    ghost heard = { λ t. t.heard.items };

    ghost faults = { λ t. 0 };

    ghost wants = { λ t. t.wants };

    ghost reported = { λ t. flat_map line_of t.heard.items };

    fn hear(&mut self, event: Operation) -> Result<(), TapFault> {
        match self.heard.push(event) {
            Ok(()) => Ok(()),
            Err(_) => {
                self.wants = self.wants.saturating_add(1);
                Err(TapFault::NoMemory)
            }
        }
    }

    fn wants(&self) -> u64 {
        self.wants
    }

    fn faults(&self) -> u64 {
        0
    }

    fn report(&self, alloc: Global) -> Result<Text, NoMemory> {
        transcript(alloc, &self.heard)
    }
}
