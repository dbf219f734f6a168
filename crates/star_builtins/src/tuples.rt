//! New tuples.
ghost use Rattle.std.specs.Prelude.{◌≡◌, ℕ, [], ◌∷◌, IfOk, nat_lt};
ghost use Rattle.star_builtins.specs.Reached.{AllFit, Answers, Fits};
ghost use Rattle.star_meaning.specs.Steps.{Store};
ghost use Rattle.star_meaning.specs.Validity.{MachineState};
ghost use Rattle.star_meaning.specs.Values as values;
ghost use Rattle.star_value.specs.Weight.{depth};
ghost use Rattle.star_value.specs.declared.value.Value.TheVariants as value;

use star_value::{Failure, Value, Values};

/// How deep tuples may nest in one another.
const DEEPEST: u32 = 64;

/// A tuple of these items, as a result; where tuples then nest too deep it is TooDeep. What it
/// costs was charged before.
pub fn new_tuple(items: Values) -> Result<Value, Failure>
    ensures gives { (s : Store ℕ) → Answers (values.new_tuple items s) result s }
    ensures fits { (m : MachineState) → AllFit m items → IfOk result (λ v. Fits m v) }
{
    let tuple = Value::Tuple(items);
    if nests_too_deep(&tuple) {
        return Err(Failure::TooDeep);
    }
    Ok(tuple)
}

#[tactic(auto, using(crate::proofs::DepthLemmas::deeper))]
fn nests_too_deep(of: &Value) -> bool
    ensures { result ≡ nat_lt 64 (depth of.now) }
{
    of.depth() > DEEPEST
}

/// Whether a tuple around a value nests too deep.
#[tactic(auto, using(crate::proofs::DepthLemmas::around))]
pub fn nests_around(of: &Value) -> bool
    ensures { result ≡ nat_lt 64 (depth (value.Tuple (of.now ∷ []))) }
{
    of.depth() >= DEEPEST
}
