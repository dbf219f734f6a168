//! Values.
ghost use Rattle.std.specs.Prelude.{◌≡◌, min, ◌-◌, ◌^◌, IfOk};
ghost use Rattle.star_value.specs.Weight as spec;

use crate::{Builtin, Range};
use chex_base::{NoMemory, ObjectId, Text};
use sqlite_items::Items;
use std::alloc::Global;

/// The items of a tuple, which contracts see as a list.
pub type Values = Items<Value>;

/// A value of a running cell. Lists, dicts and functions are heap objects, and a value names one by
/// its number; two equal numbers are one object.
#[derive(Debug, Drop)]
pub enum Value {
    None,
    Bool(bool),
    /// An integer of 128 bits.
    Int(i128),
    Text(Text),
    Tuple(Items<Value>),
    Range(Range),
    List(ObjectId),
    Dict(ObjectId),
    Function(ObjectId),
    Builtin(Builtin),
}

impl Value {
    /// What it costs to make the value, in steps, or the greatest number where it costs more: 1,
    /// for a text 1 and its code points, for a tuple 1 and the weights of its items. It takes no
    /// memory, and time linear in the value.
    #[cycle(weight)]
    pub fn weight(&self) -> u64
        ensures { result ≡ min (spec.weight self.now) (2 ^ 64 - 1) }
    {
        match self {
            Value::Text(text) => (text.len() as u64).saturating_add(1),
            Value::Tuple(items) => sum_of_weights(items.as_slice()).saturating_add(1),
            _ => 1,
        }
    }

    /// How deep tuples nest in the value, or the greatest number where they nest deeper: 0 where
    /// the value is no tuple. It takes no memory, and time linear in the value.
    #[cycle(depth)]
    pub fn depth(&self) -> u32
        ensures { result ≡ min (spec.depth self.now) (2 ^ 32 - 1) }
    {
        match self {
            Value::Tuple(items) => greatest_depth(items.as_slice()).saturating_add(1),
            _ => 0,
        }
    }

    /// An equal value.
    #[cycle(copy)]
    pub fn copy(&self, alloc: Global) -> Result<Value, NoMemory>
        ensures { IfOk result (λ copy. copy ≡ self.now) }
    {
        match self {
            Value::None => Ok(Value::None),
            Value::Bool(truth) => Ok(Value::Bool(*truth)),
            Value::Int(number) => Ok(Value::Int(*number)),
            Value::Text(text) => Ok(Value::Text(text.copy(alloc)?)),
            Value::Tuple(items) => Ok(Value::Tuple(copy_values(alloc, items.as_slice())?)),
            Value::Range(range) => Ok(Value::Range(*range)),
            Value::List(id) => Ok(Value::List(*id)),
            Value::Dict(id) => Ok(Value::Dict(*id)),
            Value::Function(id) => Ok(Value::Function(*id)),
            Value::Builtin(which) => Ok(Value::Builtin(*which)),
        }
    }
}

/// The sum of the weights of these values, or the greatest number where it is more.
#[cycle(weight)]
pub fn sum_of_weights(values: &[Value]) -> u64
    ensures { result ≡ min (spec.sum_of_weights values.now) (2 ^ 64 - 1) }
{
    let mut sum = 0;
    for value in values {
        sum = value.weight().saturating_add(sum);
    }
    sum
}

/// How deep tuples nest in the deepest of these values, or the greatest number where it is more.
#[cycle(depth)]
pub fn greatest_depth(values: &[Value]) -> u32
    ensures { result ≡ min (spec.greatest_depth values.now) (2 ^ 32 - 1) }
{
    let mut most = 0;
    for value in values {
        most = value.depth().max(most);
    }
    most
}

/// Equal values, in the same order.
#[cycle(copy)]
pub fn copy_values(alloc: Global, values: &[Value]) -> Result<Values, NoMemory>
    ensures { IfOk result (λ copies. copies ≡ values.now) }
{
    let mut copies = Items::new(alloc);
    for value in values {
        copies.push(value.copy(alloc)?)?;
    }
    Ok(copies)
}
