//! Inputs files: an object of names and their values.
ghost use Rattle.std.specs.Prelude.{◌≡◌, IfOk};
ghost use Rattle.serde_json.specs.View.{items_view, members_view, number_view, view};
ghost use Rattle.nb_reader.specs.Inputs.{input_of, inputs_file_of, inputs_in, inputs_of, integer_of, item_of, list_of, values_of};
ghost use Rattle.nb_reader.specs.Reading.{IsReading};

use crate::json::read_value;
use crate::{Counted, NbFault};
use chex_base::{Input, InputItem, InputList, Inputs, NoMemory, Text};
use serde_json::{Map, Number, Value};
use std::alloc::Global;

/// The most names of an inputs file.
const MOST_INPUTS: usize = 256;

/// The inputs of a file, or the first refusal by the order of docs/FORMATS.md: `NotJson`,
/// `NotObject`, `TooMany` of `Inputs`, and then `BadInput` at the first name in byte order whose
/// value is neither null, a bool, a text, an integer that fits `i64` or `u64`, nor a list of these.
///
/// A caller hands in at most 16,777,216 bytes, and counts them itself. The cost is linear but for
/// the look-up of each name's place.
pub fn read_inputs(alloc: Global, bytes: &[u8]) -> Result<Inputs, NbFault>
    ensures { IsReading result (inputs_file_of bytes.now) }
{
    let value = read_value(alloc, bytes)?;
    inputs_from(alloc, &value)
}

// The inputs in a value that was read.
fn inputs_from(alloc: Global, value: &Value) -> Result<Inputs, NbFault>
    ensures { IsReading result (inputs_in (view value.now)) }
{
    match value.as_object() {
        None => Err(NbFault::NotObject),
        Some(members) => limited(alloc, members),
    }
}

// The inputs, unless they are too many.
fn limited(alloc: Global, members: &Map<String, Value>) -> Result<Inputs, NbFault>
    ensures { IsReading result (inputs_of (members_view members.now.entries)) }
{
    let count = members.len();
    if count > MOST_INPUTS {
        return Err(NbFault::TooMany {
            what: Counted::Inputs,
            count: count as u64,
        });
    }
    all_inputs(alloc, members)
}

// All names with their values, or the first bad one.
fn all_inputs(alloc: Global, members: &Map<String, Value>) -> Result<Inputs, NbFault>
    ensures { IsReading result (values_of (members_view members.now.entries)) }
{
    let mut inputs = Inputs::new(alloc);
    for (name, value) in members.iter() {
        let name = Text::from_str(alloc, name.as_str())?;
        match input_in(alloc, value)? {
            None => return Err(NbFault::BadInput { name }),
            Some(value) => inputs.set(name, value)?,
        }
    }
    Ok(inputs)
}

// The input that a value stands for, if it may stand for one.
fn input_in(alloc: Global, value: &Value) -> Result<Option<Input>, NoMemory>
    ensures { IfOk result (λ found. found ≡ input_of (view value.now)) }
{
    match value {
        Value::Null => Ok(Some(Input::None)),
        Value::Bool(truth) => Ok(Some(Input::Bool(*truth))),
        Value::Number(number) => Ok(integer_in(number).map(Input::Int)),
        Value::String(text) => Ok(Some(Input::Text(Text::from_str(alloc, text.as_str())?))),
        Value::Array(values) => Ok(list_in(alloc, values.as_slice())?.map(Input::List)),
        Value::Object(_) => Ok(None),
    }
}

// The items of a list, if each may stand in one.
fn list_in(alloc: Global, values: &[Value]) -> Result<Option<InputList>, NoMemory>
    ensures { IfOk result (λ found. found ≡ list_of (items_view values.now)) }
{
    let mut items = InputList::new(alloc);
    for value in values {
        match item_in(alloc, value)? {
            None => return Ok(None),
            Some(item) => items.add(item)?,
        }
    }
    Ok(Some(items))
}

// The item that a value stands for, if it may stand for one.
fn item_in(alloc: Global, value: &Value) -> Result<Option<InputItem>, NoMemory>
    ensures { IfOk result (λ found. found ≡ item_of (view value.now)) }
{
    match value {
        Value::Null => Ok(Some(InputItem::None)),
        Value::Bool(truth) => Ok(Some(InputItem::Bool(*truth))),
        Value::Number(number) => Ok(integer_in(number).map(InputItem::Int)),
        Value::String(text) => Ok(Some(InputItem::Text(Text::from_str(alloc, text.as_str())?))),
        Value::Array(_) | Value::Object(_) => Ok(None),
    }
}

// The integer that a number is, if it is one that fits `i64` or `u64`.
fn integer_in(number: &Number) -> Option<i128>
    ensures { result ≡ integer_of (number_view number.now) }
{
    match number.as_i64() {
        Some(value) => Some(i128::from(value)),
        None => number.as_u64().map(i128::from),
    }
}
