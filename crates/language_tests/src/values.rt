//! Values, keys and charges whose answers were worked out by hand.

use crate::fault::Fault;
use crate::report::Report;
use chex_base::{ObjectId, Text};
use sqlite_items::Items;
use star_value::{Builtin, Failure, Key, Meter, Range, Stop, Value};
use std::alloc::Global;

/// The value that a row names.
fn named(alloc: Global, name: &str) -> Result<Value, Fault> {
    match name {
        "None" => Ok(Value::None),
        "integer" => Ok(Value::Int(-7)),
        "text" => Ok(Value::Text(Text::from_str(alloc, "a\u{e9}")?)),
        "empty tuple" => Ok(Value::Tuple(Items::new(alloc))),
        "tuple in a tuple" => nested(alloc),
        "list" => Ok(Value::List(ObjectId(3))),
        "list in a tuple" => pair(alloc, Value::None, Value::List(ObjectId(3))),
        _ => single(name),
    }
}

/// The value that a row names, of the kinds that are no key.
fn single(name: &str) -> Result<Value, Fault> {
    match name {
        "range" => Ok(Value::Range(Range {
            start: 0,
            stop: 3,
            step: 1,
        })),
        "dict" => Ok(Value::Dict(ObjectId(1))),
        "function" => Ok(Value::Function(ObjectId(2))),
        "built-in" => Ok(Value::Builtin(Builtin::Len)),
        _ => Err(Fault::Unread),
    }
}

/// `('aé', (None, True))`
fn nested(alloc: Global) -> Result<Value, Fault> {
    let inner = pair(alloc, Value::None, Value::Bool(true))?;
    let text = Value::Text(Text::from_str(alloc, "a\u{e9}")?);
    pair(alloc, text, inner)
}

fn pair(alloc: Global, first: Value, second: Value) -> Result<Value, Fault> {
    Ok(Value::Tuple(Items::from_vec(vec![in alloc; first, second]?)))
}

/// The weight and the depth of a value, and whether it is a key.
pub fn answer(alloc: Global, name: &str) -> Result<String, Fault> {
    let value = named(alloc, name)?;
    let kind = kind(alloc, &value)?;
    let copy = value.copy(alloc)?;
    let weight = copy.weight();
    let depth = copy.depth();
    Ok(format!(in alloc; "{weight} {depth} {kind}")?)
}

/// Whether a value is a key. A value that is handed over becomes the key that it is, and the key
/// gives it back.
fn kind(alloc: Global, value: &Value) -> Result<&'static str, Fault> {
    match Key::of(alloc, value) {
        Ok(key) => given_back(alloc, value, &key),
        Err(Stop::NoMemory) => Err(Fault::NoMemory),
        Err(Stop::Failure(failure)) => refused(alloc, value, failure),
    }
}

fn given_back(alloc: Global, value: &Value, key: &Key) -> Result<&'static str, Fault> {
    let again = again(alloc, key)?;
    if again.weight() != value.weight() || again.depth() != value.depth() {
        return Ok("a key of another value");
    }
    match Key::from_value(alloc, again) {
        Ok(found) => Ok(if found == *key { "key" } else { "two keys" }),
        Err(_) => Ok("a key that is refused"),
    }
}

/// The value of a copy of a key.
fn again(alloc: Global, key: &Key) -> Result<Value, Fault> {
    let copy = key.copy(alloc)?;
    Ok(copy.value(alloc)?)
}

fn refused(alloc: Global, value: &Value, failure: Failure) -> Result<&'static str, Fault> {
    let Err(stop) = Key::from_value(alloc, value.copy(alloc)?) else {
        return Ok("a key after all");
    };
    if failure == Failure::Unhashable && stop == Stop::Failure(Failure::Unhashable) {
        Ok("no key")
    } else {
        Ok("another failure")
    }
}

/// How many keys stand in order.
const KEYS: usize = 11;

/// Of keys in order, the one at a place.
fn key(alloc: Global, place: usize) -> Result<Key, Fault> {
    match place {
        0 => Ok(Key::None),
        1 => Ok(Key::Bool(false)),
        2 => Ok(Key::Bool(true)),
        3 => Ok(Key::Int(-1)),
        4 => Ok(Key::Int(1)),
        5 => Ok(Key::Text(Text::from_str(alloc, "a")?)),
        6 => Ok(Key::Text(Text::from_str(alloc, "ab")?)),
        7 => Ok(Key::Text(Text::from_str(alloc, "b")?)),
        8 => Ok(Key::Tuple(Items::new(alloc))),
        9 => tuple(alloc, Key::None, Key::Int(2)),
        _ => tuple(alloc, Key::Int(1), Key::None),
    }
}

fn tuple(alloc: Global, first: Key, second: Key) -> Result<Key, Fault> {
    Ok(Key::Tuple(Items::from_vec(vec![in alloc; first, second]?)))
}

/// Whether the keys at two places compare as their places do.
fn compare_as_placed(alloc: Global, first: usize, second: usize) -> Result<bool, Fault> {
    let one = key(alloc, first)?;
    let other = key(alloc, second)?;
    Ok(one.cmp(&other) == first.cmp(&second) && (one == other) == (first == second))
}

fn check_order(alloc: Global, report: &mut Report) -> Result<(), Fault> {
    for first in 0..KEYS {
        for second in 0..KEYS {
            report.note(
                "the order of keys",
                compare_as_placed(alloc, first, second)?,
            )?;
        }
    }
    Ok(())
}

/// A charge takes its count, or leaves nothing.
fn check_charges(report: &mut Report) -> Result<(), Fault> {
    let mut meter = Meter { left: 9 };
    report.note("a charge of 4 of 9", meter.charge(4) == Ok(()))?;
    report.note("a charge of 5 of 5", meter.charge(5) == Ok(()))?;
    report.note("what both charges leave", meter.left == 0)?;
    let mut meter = Meter { left: 8 };
    let found = meter.charge(9);
    report.note("a charge of 9 of 8", found == Err(Failure::StepLimit))?;
    report.note("what that charge leaves", meter.left == 0)
}

/// Keys are in order, and charges take their counts.
pub fn check(alloc: Global, report: &mut Report) -> Result<(), Fault> {
    check_order(alloc, report)?;
    check_charges(report)
}
