//! Texts that are joined only where they are short enough.
ghost use Rattle.std.specs.Prelude.{◌≡◌, ◌<◌, ◌-◌, ◌^◌, ℕ, length, min, IfOk, IfSome, IfNone};
ghost use Rattle.star_builtins.specs.Reached.{Fits, GivesWeighed};
ghost use Rattle.star_meaning.specs.State.{State};
ghost use Rattle.star_meaning.specs.Steps.{pure};
ghost use Rattle.star_meaning.specs.Validity.{MachineState};
ghost use Rattle.star_value.specs.Texts as spec;
ghost use Rattle.star_value.specs.declared.value.Value.TheVariants as value;

use crate::texts;
use chex_base::{NoMemory, Text};
use star_value::{Failure, Meter, Stop, Value, join};
use std::alloc::Global;

/// The texts with another between each two, as a result. Where its weight passes what is left it is
/// not made: the call then fails with StepLimit, as the charge of its weight would.
#[tactic(auto, using(crate::proofs::JoinLemmas::join_stopped))]
pub fn joined_value(
    alloc: Global,
    by: &Text,
    parts: &[Text],
    meter: &mut Meter,
) -> Result<Value, Stop>
    ensures gives { (s : State ℕ) → GivesWeighed (pure (value.Text (spec.join by.now parts.now)) (record { state = s; left = meter.old.left })) result (record { state = s; left = meter.new.left }) }
    ensures fits { (m : MachineState) → IfOk result (λ v. Fits m v) }
{
    let Some(joined) = joined_within(alloc, by, parts, meter.left)? else {
        meter.left = 0;
        return Err(Stop::Failure(Failure::StepLimit));
    };
    Ok(texts::value_of(joined))
}

/// The texts with another between each two, if that has at most so many code points. It takes time
/// linear in `parts` where it has more.
fn joined_within(
    alloc: Global,
    by: &Text,
    parts: &[Text],
    most: u64,
) -> Result<Option<Text>, NoMemory>
    ensures some { IfOk result (λ found. IfSome found (λ text. text ≡ spec.join by.now parts.now)) }
    ensures none { IfOk result (λ found. IfNone found (most < length (spec.join by.now parts.now))) }
{
    if joined_length(by, parts) > most {
        return Ok(None);
    }
    Ok(Some(join(alloc, by, parts)?))
}

/// How many code points the texts have with another between each two, or the greatest number where
/// they have more. It takes no memory.
fn joined_length(by: &Text, parts: &[Text]) -> u64
    ensures { result ≡ min (length (spec.join by.now parts.now)) (2 ^ 64 - 1) }
{
    let [first, rest @ ..] = parts else {
        return 0;
    };
    let mut sum = first.len() as u64;
    for part in rest {
        sum = sum.saturating_add(by.len() as u64 + part.len() as u64);
    }
    sum
}
