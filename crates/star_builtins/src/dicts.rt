//! New dicts.
ghost use Rattle.std.specs.Prelude.{ℕ, IfOk};
ghost use Rattle.star_builtins.specs.Changes.{PairsFit};
ghost use Rattle.star_builtins.specs.Reached.{Fits, Follows, HasRoom, store};
ghost use Rattle.star_meaning.specs.Steps.{Gives};
ghost use Rattle.star_meaning.specs.Values as values;

use heap_store::{Machine, Pairs};
use star_value::{Stop, Value};

/// A new dict of these pairs, as a result. What it costs was charged before.
#[tactic(auto, unfolding(star_meaning::specs::Values::new_dict, star_meaning::specs::State::with_new, star_meaning::specs::State::next_id), using(crate::proofs::ChangeLemmas::new_dict))]
pub fn new_dict(pairs: Pairs, machine: &mut Machine) -> Result<Value, Stop>
    requires fit { PairsFit machine.old pairs }
    requires room { HasRoom machine.old }
    ensures gives { (left : ℕ) → Gives (values.new_dict pairs (store machine.old left)) result (store machine.new left) }
    ensures fits { IfOk result (λ v. Fits machine.new v) }
    ensures follows { Follows machine.old machine.new }
{
    let id = machine.new_dict_of(pairs)?;
    let _count = machine.objects();
    Ok(Value::Dict(id))
}
