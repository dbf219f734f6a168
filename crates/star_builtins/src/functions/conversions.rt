//! What a value is as a value of another type: truth, integers, lengths, sizes and names of types.
ghost use Rattle.std.specs.Prelude.{◌≡◌, ℕ, pos, IfOk, IsTrue};
ghost use Rattle.std.specs.Str.{chars};
ghost use Rattle.star_builtins.specs.Reached.{Fits, store};
ghost use Rattle.star_meaning.specs.Builtins as spec;
ghost use Rattle.star_meaning.specs.State.{State};
ghost use Rattle.star_meaning.specs.Steps.{Gives, Store, Went};
ghost use Rattle.star_meaning.specs.Validity.{MachineState, fits};
ghost use Rattle.star_meaning.specs.Values as values;
ghost use Rattle.star_value.specs.declared.value.Value.{out-Value};
ghost use Rattle.star_value.specs.declared.value.Value.TheVariants as variant;

use super::numerals::read_int;
use crate::parts::int_of;
use crate::{integers, texts, truths};
use chex_base::{NoMemory, Text};
use heap_store::Machine;
use star_value::{Failure, Meter, Stop, Value};
use std::alloc::Global;

/// `bool(x)`: whether a value counts as true. It takes constant time and no memory.
pub fn truth(value: &Value, machine: &Machine) -> Value
    requires { IsTrue (fits machine.now.state.objects value.now) }
    ensures gives { (left : ℕ) → spec.truth value.now (store machine.now left) ≡ Went result (store machine.now left) }
    ensures fits { (m : MachineState) → Fits m result }
{
    truths::value_of(truths::is_true(value, machine))
}

/// `abs(i)`: an integer without its sign. The size of the least integer is IntegerTooLarge.
#[tactic(auto, using(crate::proofs::RowLemmas::absolutes))]
pub fn absolute(value: &Value) -> Result<Value, Stop>
    ensures gives { (s : Store ℕ) → Gives (spec.absolute value.now s) result s }
    ensures fits { (m : MachineState) → IfOk result (λ v. Fits m v) }
{
    match int_of(value) {
        Some(number) => number_of(number.unsigned_abs()),
        None => Err(Stop::Failure(Failure::WrongType)),
    }
}

/// A size as a result.
fn number_of(size: u128) -> Result<Value, Stop>
    ensures gives { (s : Store ℕ) → Gives (values.integer (pos size) s) result s }
    ensures fits { (m : MachineState) → IfOk result (λ v. Fits m v) }
{
    integers::as_result(integers::positive(size))
}

/// `len(x)`: how many code points, items or keys a text, tuple, list, dict or range has. It takes
/// constant time and no memory.
#[tactic(auto, using(crate::proofs::RowLemmas::lengths, crate::proofs::Held::references))]
pub fn len(value: &Value, machine: &Machine) -> Result<Value, Stop>
    requires { IsTrue (fits machine.now.state.objects value.now) }
    ensures gives { (left : ℕ) → Gives (spec.len value.now (store machine.now left)) result (store machine.now left) }
    ensures fits { (m : MachineState) → IfOk result (λ v. Fits m v) }
{
    match value {
        Value::Text(text) => number_of(text.len() as u128),
        Value::Tuple(items) => number_of(items.len() as u128),
        Value::Range(range) => number_of(range.len()),
        Value::List(id) => number_of(machine.list(*id).len() as u128),
        Value::Dict(id) => number_of(machine.dict_len(*id) as u128),
        Value::None => Err(Stop::Failure(Failure::WrongType)),
        Value::Bool(_) => Err(Stop::Failure(Failure::WrongType)),
        Value::Int(_) => Err(Stop::Failure(Failure::WrongType)),
        Value::Function(_) => Err(Stop::Failure(Failure::WrongType)),
        Value::Builtin(_) => Err(Stop::Failure(Failure::WrongType)),
    }
}

/// `int(x)`: an integer as itself, a bool as 0 or 1, and a text of an optional sign and decimal
/// digits as the number that it spells, for a step a code point. Another text is BadText, and a
/// number that does not fit 128 bits is IntegerTooLarge.
#[tactic(auto, using(crate::proofs::RowLemmas::integers))]
pub fn int(value: &Value, meter: &mut Meter) -> Result<Value, Stop>
    ensures gives { (s : State ℕ) → Gives (spec.int_of (out-Value value.now) (record { state = s; left = meter.old.left })) result (record { state = s; left = meter.new.left }) }
    ensures fits { (m : MachineState) → IfOk result (λ v. Fits m v) }
{
    match value {
        Value::Int(number) => Ok(integers::value_of(*number)),
        Value::Bool(true) => Ok(integers::value_of(1)),
        Value::Bool(false) => Ok(integers::value_of(0)),
        Value::Text(text) => int_of_text(text, meter),
        Value::None => Err(Stop::Failure(Failure::WrongType)),
        Value::Tuple(_) => Err(Stop::Failure(Failure::WrongType)),
        Value::Range(_) => Err(Stop::Failure(Failure::WrongType)),
        Value::List(_) => Err(Stop::Failure(Failure::WrongType)),
        Value::Dict(_) => Err(Stop::Failure(Failure::WrongType)),
        Value::Function(_) => Err(Stop::Failure(Failure::WrongType)),
        Value::Builtin(_) => Err(Stop::Failure(Failure::WrongType)),
    }
}

/// The number that a text spells.
#[tactic(auto, using(crate::proofs::RowLemmas::numerals))]
fn int_of_text(text: &Text, meter: &mut Meter) -> Result<Value, Stop>
    ensures gives { (s : State ℕ) → Gives (spec.int_of_text text.now (record { state = s; left = meter.old.left })) result (record { state = s; left = meter.new.left }) }
    ensures fits { (m : MachineState) → IfOk result (λ v. Fits m v) }
{
    match read_int(text) {
        Some(Some(number)) => {
            meter.charge(text.len() as u64)?;
            Ok(integers::value_of(number))
        }
        Some(None) => Err(Stop::Failure(Failure::IntegerTooLarge)),
        None => Err(Stop::Failure(Failure::BadText)),
    }
}

/// `type(x)`: the name of the type of a value.
pub fn type_name(alloc: Global, value: &Value) -> Result<Value, NoMemory>
    ensures is { IfOk result (λ v. v ≡ variant.Text (values.type_name value.now)) }
    ensures fits { (m : MachineState) → IfOk result (λ v. Fits m v) }
{
    let name = Text::from_str(alloc, type_word(value))?;
    Ok(texts::value_of(name))
}

#[tactic(auto, using(crate::proofs::RowLemmas::types))]
fn type_word(value: &Value) -> &'static str
    ensures { chars result.now ≡ values.type_name value.now }
{
    match value {
        Value::None => "NoneType",
        Value::Bool(_) => "bool",
        Value::Int(_) => "int",
        Value::Text(_) => "string",
        Value::Tuple(_) => "tuple",
        Value::Range(_) => "range",
        Value::List(_) => "list",
        Value::Dict(_) => "dict",
        Value::Function(_) => "function",
        Value::Builtin(_) => "builtin",
    }
}
