//! Texts as values.
ghost use Rattle.std.specs.Prelude.{◌≡◌};
ghost use Rattle.star_builtins.specs.Reached.{Fits};
ghost use Rattle.star_meaning.specs.Validity.{MachineState};
ghost use Rattle.star_value.specs.declared.value.Value.TheVariants as value;

use chex_base::Text;
use star_value::Value;

/// A text as a value. It takes no time: a text is known to be Unicode scalar values.
pub fn value_of(text: Text) -> Value
    ensures is { result ≡ value.Text text }
    ensures fits { (m : MachineState) → Fits m result }
{
    let _characters = text.as_str();
    Value::Text(text)
}
