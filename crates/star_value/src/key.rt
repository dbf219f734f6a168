//! Keys of dicts.
ghost use Rattle.std.specs.Prelude.{◌≡◌, IfOk, map};
ghost use Rattle.star_value.specs.Keys as spec;

use crate::{Failure, Stop, Value, Values};
use chex_base::{NoMemory, Text};
use sqlite_items::Items;
use std::alloc::Global;

/// The parts of a tuple that is a key, which contracts see as a list.
pub type Keys = Items<Key>;

/// A value that may be a key of a dict.
#[derive(Debug, Drop)]
pub enum Key {
    None,
    Bool(bool),
    /// An integer of 128 bits.
    Int(i128),
    Text(Text),
    Tuple(Items<Key>),
}

impl Key {
    /// The key that a value is. It answers Unhashable where the value is not None, a bool, an
    /// integer, a text or a tuple of these. It takes time linear in the value.
    #[cycle(key)]
    pub fn of(alloc: Global, value: &Value) -> Result<Key, Stop>
        ensures { spec.AnswersKey (spec.key_of value.now) result }
    {
        match value {
            Value::None => Ok(Key::None),
            Value::Bool(truth) => Ok(Key::Bool(*truth)),
            Value::Int(number) => Ok(Key::Int(*number)),
            Value::Text(text) => Ok(Key::Text(text.copy(alloc)?)),
            Value::Tuple(items) => Ok(Key::Tuple(keys_of(alloc, items.as_slice())?)),
            Value::Range(_) => Err(Stop::Failure(Failure::Unhashable)),
            Value::List(_) => Err(Stop::Failure(Failure::Unhashable)),
            Value::Dict(_) => Err(Stop::Failure(Failure::Unhashable)),
            Value::Function(_) => Err(Stop::Failure(Failure::Unhashable)),
            Value::Builtin(_) => Err(Stop::Failure(Failure::Unhashable)),
        }
    }

    /// The key that a value is, as `of` answers it, from the value itself: a text is moved, and
    /// only the parts of a tuple are copied.
    pub fn from_value(alloc: Global, value: Value) -> Result<Key, Stop>
        ensures { spec.AnswersKey (spec.key_of value) result }
    {
        match value {
            Value::Text(text) => Ok(Key::Text(text)),
            other => Key::of(alloc, &other),
        }
    }

    /// The value that the key is.
    #[cycle(value)]
    pub fn value(&self, alloc: Global) -> Result<Value, NoMemory>
        ensures { IfOk result (λ value. value ≡ spec.value_of self.now) }
    {
        match self {
            Key::None => Ok(Value::None),
            Key::Bool(truth) => Ok(Value::Bool(*truth)),
            Key::Int(number) => Ok(Value::Int(*number)),
            Key::Text(text) => Ok(Value::Text(text.copy(alloc)?)),
            Key::Tuple(parts) => Ok(Value::Tuple(values_of(alloc, parts.as_slice())?)),
        }
    }

    /// An equal key.
    #[cycle(copy_key)]
    pub fn copy(&self, alloc: Global) -> Result<Key, NoMemory>
        ensures { IfOk result (λ copy. copy ≡ self.now) }
    {
        match self {
            Key::None => Ok(Key::None),
            Key::Bool(truth) => Ok(Key::Bool(*truth)),
            Key::Int(number) => Ok(Key::Int(*number)),
            Key::Text(text) => Ok(Key::Text(text.copy(alloc)?)),
            Key::Tuple(parts) => Ok(Key::Tuple(copy_keys(alloc, parts.as_slice())?)),
        }
    }
}

#[cycle(key)]
fn keys_of(alloc: Global, values: &[Value]) -> Result<Keys, Stop>
    ensures { spec.AnswersKey (spec.all_some (map spec.key_of values.now)) result }
{
    let mut keys = Items::new(alloc);
    for value in values {
        keys.push(Key::of(alloc, value)?)?;
    }
    Ok(keys)
}

#[cycle(value)]
fn values_of(alloc: Global, keys: &[Key]) -> Result<Values, NoMemory>
    ensures { IfOk result (λ values. values ≡ map spec.value_of keys.now) }
{
    let mut values = Items::new(alloc);
    for key in keys {
        values.push(key.value(alloc)?)?;
    }
    Ok(values)
}

#[cycle(copy_key)]
fn copy_keys(alloc: Global, keys: &[Key]) -> Result<Keys, NoMemory>
    ensures { IfOk result (λ copies. copies ≡ keys.now) }
{
    let mut copies = Items::new(alloc);
    for key in keys {
        copies.push(key.copy(alloc)?)?;
    }
    Ok(copies)
}
