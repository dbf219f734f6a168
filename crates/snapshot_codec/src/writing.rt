//! Adds the bytes of values to a list of bytes. `numbers` has the numbers of the objects to which
//! they refer; what was added is of no use where memory was wanting.
ghost use Rattle.std.specs.Prelude.{◌≡◌, ◌++◌, [], ◌∷◌, OnOk};
ghost use Rattle.std.specs.Int.{to_be_bytes, w128};
ghost use Rattle.star_meaning.specs.Snapshot.{builtin_byte, count_bytes, id_bytes, integer_bytes, text_bytes, value_bytes, counted};
ghost use Rattle.star_value.specs.Keys as keys;
ghost use Rattle.snapshot_codec.specs.Writing.{number_in, value_bytes_by, pair_bytes_by};

use crate::numbers::Numbers;
use chex_base::{NoMemory, ObjectId, Text};
use heap_store::Pairs;
use star_value::{Builtin, Key, Value};

/// Adds a number of eight bytes, the greatest first.
pub fn put_count(out: &mut Vec<u8>, count: usize) -> Result<(), NoMemory>
    ensures { OnOk result (out.new.items ≡ out.old.items ++ count_bytes count) }
{
    out.extend_from_slice(&(count as u64).to_be_bytes())?;
    Ok(())
}

/// Adds a number of four bytes, the greatest first.
pub fn put_id(out: &mut Vec<u8>, id: u32) -> Result<(), NoMemory>
    ensures { OnOk result (out.new.items ≡ out.old.items ++ id_bytes id) }
{
    out.extend_from_slice(&id.to_be_bytes())?;
    Ok(())
}

/// Adds sixteen bytes, the greatest first.
fn put_bits(out: &mut Vec<u8>, bits: u128) -> Result<(), NoMemory>
    ensures { OnOk result (out.new.items ≡ out.old.items ++ to_be_bytes w128 bits) }
{
    out.extend_from_slice(&bits.to_be_bytes())?;
    Ok(())
}

/// Adds an integer of sixteen bytes in two's complement, the greatest first.
fn put_integer(out: &mut Vec<u8>, number: &i128) -> Result<(), NoMemory>
    ensures { OnOk result (out.new.items ≡ out.old.items ++ integer_bytes number.now) }
{
    put_bits(out, number.cast_unsigned())?;
    Ok(())
}

/// Adds a count of bytes and a text.
pub fn put_text(out: &mut Vec<u8>, text: &Text) -> Result<(), NoMemory>
    ensures { OnOk result (out.new.items ≡ out.old.items ++ text_bytes text.now) }
{
    let bytes = text.as_str().as_bytes();
    put_count(out, bytes.len())?;
    out.extend_from_slice(bytes)?;
    Ok(())
}

/// Adds a tag.
fn put_tag(out: &mut Vec<u8>, tag: u8) -> Result<(), NoMemory>
    ensures { OnOk result (out.new.items ≡ out.old.items ++ tag ∷ []) }
{
    out.push(tag)?;
    Ok(())
}

/// The number of a built-in function.
#[tactic(auto, unfolding(star_meaning::specs::Values::builtin_name))]
fn builtin_byte(which: Builtin) -> u8
    ensures { result ≡ builtin_byte which }
{
    match which {
        Builtin::Abs => 0,
        Builtin::All => 1,
        Builtin::Any => 2,
        Builtin::Bool => 3,
        Builtin::Dict => 4,
        Builtin::Enumerate => 5,
        Builtin::Int => 6,
        Builtin::Len => 7,
        Builtin::List => 8,
        Builtin::Max => 9,
        Builtin::Min => 10,
        Builtin::Print => 11,
        Builtin::Range => 12,
        Builtin::Repr => 13,
        Builtin::Reversed => 14,
        Builtin::Sorted => 15,
        Builtin::Str => 16,
        Builtin::Tuple => 17,
        Builtin::Type => 18,
        Builtin::Zip => 19,
    }
}

/// A tag, and the new number of an object.
fn put_reference(
    out: &mut Vec<u8>,
    tag: u8,
    numbers: &Numbers,
    id: ObjectId,
) -> Result<(), NoMemory>
    ensures { OnOk result (out.new.items ≡ out.old.items ++ (tag ∷ id_bytes (number_in numbers.now.order.keys id))) }
{
    let number = numbers.number(id);
    out.push(tag)?;
    put_id(out, number)?;
    Ok(())
}

/// Adds the bytes of a value. The stack grows with the depth of its tuples alone.
#[cycle(put_value)]
#[tactic(auto, using(crate::proofs::WritingForms::by_cases))]
pub fn put_value(out: &mut Vec<u8>, numbers: &Numbers, value: &Value) -> Result<(), NoMemory>
    ensures { OnOk result (out.new.items ≡ out.old.items ++ value_bytes_by (number_in numbers.now.order.keys) value.now) }
{
    match value {
        Value::None => put_tag(out, 0),
        Value::Bool(false) => put_tag(out, 1),
        Value::Bool(true) => put_tag(out, 2),
        Value::Int(number) => {
            out.push(3)?;
            put_integer(out, number)?;
            Ok(())
        }
        Value::Text(text) => {
            out.push(4)?;
            put_text(out, text)?;
            Ok(())
        }
        Value::Tuple(items) => {
            out.push(5)?;
            put_values(out, numbers, items.as_slice())?;
            Ok(())
        }
        Value::Range(range) => {
            out.push(6)?;
            put_integer(out, &range.start)?;
            put_integer(out, &range.stop)?;
            put_integer(out, &range.step)?;
            Ok(())
        }
        Value::List(id) => put_reference(out, 7, numbers, *id),
        Value::Dict(id) => put_reference(out, 8, numbers, *id),
        Value::Function(id) => put_reference(out, 9, numbers, *id),
        Value::Builtin(which) => {
            out.push(10)?;
            out.push(builtin_byte(*which))?;
            Ok(())
        }
    }
}

/// Adds a count and the bytes of the values.
#[cycle(put_value)]
pub fn put_values(out: &mut Vec<u8>, numbers: &Numbers, values: &[Value]) -> Result<(), NoMemory>
    ensures { OnOk result (out.new.items ≡ out.old.items ++ counted (value_bytes_by (number_in numbers.now.order.keys)) values.now) }
{
    put_count(out, values.len())?;
    for value in values {
        put_value(out, numbers, value)?;
    }
    Ok(())
}

/// Adds the bytes of a key, which are those of the value that it is.
#[cycle(put_key)]
#[tactic(auto, using(crate::proofs::WritingForms::key_cases))]
fn put_key(out: &mut Vec<u8>, key: &Key) -> Result<(), NoMemory>
    ensures { OnOk result (out.new.items ≡ out.old.items ++ value_bytes (keys.value_of key.now)) }
{
    match key {
        Key::None => put_tag(out, 0),
        Key::Bool(false) => put_tag(out, 1),
        Key::Bool(true) => put_tag(out, 2),
        Key::Int(number) => {
            out.push(3)?;
            put_integer(out, number)?;
            Ok(())
        }
        Key::Text(text) => {
            out.push(4)?;
            put_text(out, text)?;
            Ok(())
        }
        Key::Tuple(parts) => {
            out.push(5)?;
            put_keys(out, parts.as_slice())?;
            Ok(())
        }
    }
}

/// Adds a count and the bytes of the keys.
#[cycle(put_key)]
fn put_keys(out: &mut Vec<u8>, parts: &[Key]) -> Result<(), NoMemory>
    ensures { OnOk result (out.new.items ≡ out.old.items ++ counted (λ key. value_bytes (keys.value_of key)) parts.now) }
{
    put_count(out, parts.len())?;
    for key in parts {
        put_key(out, key)?;
    }
    Ok(())
}

/// Adds a count and the bytes of the pairs of a dict.
pub fn put_pairs(out: &mut Vec<u8>, numbers: &Numbers, pairs: &Pairs) -> Result<(), NoMemory>
    ensures { OnOk result (out.new.items ≡ out.old.items ++ counted (pair_bytes_by (number_in numbers.now.order.keys)) pairs.now) }
{
    let count = pairs.len();
    put_count(out, count)?;
    for place in 0..count {
        let (key, value) = pairs.at(place);
        put_key(out, key)?;
        put_value(out, numbers, value)?;
    }
    Ok(())
}
