//! Which values count as true, and bools as values.
ghost use Rattle.std.specs.Prelude.{◌≡◌, IsTrue};
ghost use Rattle.star_builtins.specs.Reached.{Fits};
ghost use Rattle.star_meaning.specs.Validity.{MachineState, fits};
ghost use Rattle.star_meaning.specs.Values as values;
ghost use Rattle.star_value.specs.declared.value.Value.TheVariants as value;

use crate::integers;
use heap_store::Machine;
use star_value::Value;

/// Whether a value counts as true: all do but None, False, 0, and an empty text, tuple, list, dict
/// or range. It takes constant time and no memory.
#[tactic(auto, using(crate::proofs::TruthLemmas::truths, crate::proofs::Held::references))]
pub fn is_true(value: &Value, machine: &Machine) -> bool
    requires { IsTrue (fits machine.now.state.objects value.now) }
    ensures { result ≡ values.is_true machine.now.state value.now }
{
    match value {
        Value::None => false,
        Value::Bool(truth) => *truth,
        Value::Int(number) => !integers::is_zero(*number),
        Value::Text(text) => text.len() != 0,
        Value::Tuple(items) => items.len() != 0,
        Value::Range(range) => range.len() != 0,
        Value::List(id) => machine.list(*id).len() != 0,
        Value::Dict(id) => machine.dict_len(*id) != 0,
        Value::Function(_) => true,
        Value::Builtin(_) => true,
    }
}

/// A bool as a value.
pub fn value_of(truth: bool) -> Value
    ensures is { result ≡ value.Bool truth }
    ensures fits { (m : MachineState) → Fits m result }
{
    Value::Bool(truth)
}
