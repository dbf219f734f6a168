//! Values that may stand in any machine.
ghost use Rattle.std.specs.Prelude.{◌≡◌};
ghost use Rattle.star_builtins.specs.Reached.{Fits};
ghost use Rattle.star_meaning.specs.Validity.{MachineState};
ghost use Rattle.star_value.specs.declared.value.Value.TheVariants as value;

use chex_base::Text;
use star_value::{Builtin, Value};

/// None.
pub fn none() -> Value
    ensures is { result ≡ value.None }
    ensures fits { (m : MachineState) → Fits m result }
{
    Value::None
}

/// A bool.
pub fn bool_value(truth: bool) -> Value
    ensures is { result ≡ value.Bool truth }
    ensures fits { (m : MachineState) → Fits m result }
{
    Value::Bool(truth)
}

/// An integer.
pub fn int_value(number: i128) -> Value
    ensures is { result ≡ value.Int number }
    ensures fits { (m : MachineState) → Fits m result }
{
    Value::Int(number)
}

/// A text.
pub fn text_value(text: Text) -> Value
    ensures is { result ≡ value.Text text }
    ensures fits { (m : MachineState) → Fits m result }
{
    let _characters = text.as_str();
    Value::Text(text)
}

/// A built-in function.
pub fn builtin_value(which: Builtin) -> Value
    ensures is { result ≡ value.Builtin which }
    ensures fits { (m : MachineState) → Fits m result }
{
    Value::Builtin(which)
}
