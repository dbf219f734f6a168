//! What the words ask for.
ghost use Rattle.std.specs.Prelude.{◌≡◌, ◌⊎◌, None, Some, IfErr, IfOk, map, string_bytes};
ghost use Rattle.chex_top.specs.Words as spec;

use crate::refusal::Refusal;
use chex_words::{Command, RunWords, SoloWords, WordsFault, read_words};
use std::alloc::Global;

/// What the words ask for, of what is carried out.
#[derive(Drop)]
pub enum Asked {
    /// Run one notebook alone.
    Solo(SoloWords),
    /// Run all versions of a manifest within a budget.
    Run(RunWords),
}

/// What the words ask for. Words that are no command are refused, and so are those of a command that
/// is not carried out.
#[tactic(auto, unfolding(crate::specs::Words::asked_of))]
pub fn read_asked(alloc: Global, words: &[String]) -> Result<Asked, Refusal>
    ensures ok { IfOk result (λ asked. spec.asked_of (map string_bytes words.now) ≡ Some asked) }
    ensures within { IfOk result spec.IsWithin }
    ensures refused { IfErr result (λ r. ((r ≡ Refusal.Usage) × (spec.asked_of (map string_bytes words.now) ≡ None)) ⊎ (r ≡ Refusal.NoMemory)) }
{
    match read_words(alloc, words) {
        Ok(Command::Solo(words)) => Ok(Asked::Solo(words)),
        Ok(Command::Run(words)) => Ok(Asked::Run(words)),
        Ok(
            Command::Audit(_)
            | Command::Replay(_)
            | Command::Plan(_)
            | Command::Check(_)
            | Command::Make(_),
        ) => Err(Refusal::Usage),
        Err(WordsFault::Usage) => Err(Refusal::Usage),
        Err(WordsFault::NoMemory) => Err(Refusal::NoMemory),
    }
}
