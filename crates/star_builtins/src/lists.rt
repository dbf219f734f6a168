//! New lists.
ghost use Rattle.std.specs.Prelude.{ℕ, IfOk};
ghost use Rattle.star_builtins.specs.Reached.{AllFit, Fits, Follows, HasRoom, store};
ghost use Rattle.star_meaning.specs.Steps.{Gives};
ghost use Rattle.star_meaning.specs.Values as values;

use heap_store::Machine;
use star_value::{Stop, Value, Values};

/// A new list of these items, as a result. What it costs was charged before.
#[tactic(auto, unfolding(star_meaning::specs::Values::new_list, star_meaning::specs::State::with_new, star_meaning::specs::State::next_id), using(crate::proofs::FollowLemmas::new_list))]
pub fn new_list(items: Values, machine: &mut Machine) -> Result<Value, Stop>
    requires fit { AllFit machine.old items }
    requires room { HasRoom machine.old }
    ensures gives { (left : ℕ) → Gives (values.new_list items (store machine.old left)) result (store machine.new left) }
    ensures fits { IfOk result (λ v. Fits machine.new v) }
    ensures follows { Follows machine.old machine.new }
{
    let id = machine.new_list(items)?;
    Ok(Value::List(id))
}
