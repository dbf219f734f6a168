//! What a value is, if it is of one type.
ghost use Rattle.std.specs.Prelude.{◌≡◌};
ghost use Rattle.std.specs.Option.{option_copied};
ghost use Rattle.star_builtins.specs.Weighing.{tuple_at, list_at, dict_at};
ghost use Rattle.star_meaning.specs.Values.{text_in, int_in};
ghost use Rattle.star_value.specs.declared.value.Value.{out-Value};

use chex_base::{ObjectId, Text};
use star_value::Value;

/// The text that a value is, if it is one.
#[tactic(auto, using(crate::proofs::Outs::outs))]
pub fn text_of(value: &Value) -> Option<&Text>
    ensures { option_copied result ≡ text_in value.now }
{
    match value {
        Value::Text(text) => Some(text),
        _ => None,
    }
}

/// The integer that a value is, if it is one; a bool is none.
#[tactic(auto, using(crate::proofs::Outs::outs))]
pub fn int_of(value: &Value) -> Option<i128>
    ensures { result ≡ int_in value.now }
{
    match value {
        Value::Int(number) => Some(*number),
        _ => None,
    }
}

/// The items of a tuple.
#[tactic(auto, using(crate::proofs::Outs::outs))]
pub fn tuple_of(value: &Value) -> Option<&[Value]>
    ensures { option_copied result ≡ tuple_at (out-Value value.now) }
{
    match value {
        Value::Tuple(items) => Some(items.as_slice()),
        _ => None,
    }
}

/// The number of a list.
#[tactic(auto, using(crate::proofs::Outs::outs))]
pub fn list_of(value: &Value) -> Option<ObjectId>
    ensures { result ≡ list_at (out-Value value.now) }
{
    match value {
        Value::List(id) => Some(*id),
        _ => None,
    }
}

/// The number of a dict.
#[tactic(auto, using(crate::proofs::Outs::outs))]
pub fn dict_of(value: &Value) -> Option<ObjectId>
    ensures { result ≡ dict_at (out-Value value.now) }
{
    match value {
        Value::Dict(id) => Some(*id),
        _ => None,
    }
}
