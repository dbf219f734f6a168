//! What a value gives when it is iterated: a tuple, a list or a range its items, and a dict its
//! keys. An item is asked for by its place, so that nothing is collected before it is needed.
ghost use Rattle.std.specs.Prelude.{◌≡◌, ◌<◌, List, length, IsTrue, IfOk, IsSomeAnd, slice_get, option_map};
ghost use Rattle.star_value.specs.Ranges.{range_count, range_item};
ghost use Rattle.star_value.specs.declared.value.Value.{Value as AValue};
ghost use Rattle.star_value.specs.declared.value.Value.TheVariants as value;
ghost use Rattle.star_meaning.specs.Validity.{fits};
ghost use Rattle.star_meaning.specs.Values.{items_in, key_values};

use crate::{Machine, Pairs};
use chex_base::NoMemory;
use star_value::{Range, Value};
use std::alloc::Global;

/// How many items a value gives, or None where it cannot be iterated. It takes constant time and no
/// memory.
#[tactic(auto, using(crate::proofs::GivenItems::counts))]
pub fn count(of: &Value, machine: &Machine) -> Option<u128>
    requires { IsTrue (fits machine.now.state.objects of.now) }
    ensures { option_map length (items_in machine.now.state of.now) ≡ result }
{
    match of {
        Value::Tuple(items) => Some(items.len() as u128),
        Value::Range(range) => Some(range.len()),
        Value::List(id) => Some(machine.list(*id).len() as u128),
        Value::Dict(id) => Some(machine.dict_len(*id) as u128),
        _ => None,
    }
}

/// The item that a value gives at a place below its count. It is copied, and takes time linear in
/// the item; an integer of a range is computed, and an item of a dict is the key as a value.
#[tactic(auto, using(crate::proofs::GivenItems::items, crate::proofs::GivenItems::within))]
pub fn item(alloc: Global, of: &Value, machine: &Machine, place: u128) -> Result<Value, NoMemory>
    requires fit { IsTrue (fits machine.now.state.objects of.now) }
    requires within { IsSomeAnd (option_map length (items_in machine.now.state of.now)) (λ count. place < count) }
    ensures value { (items : List AValue) → items_in machine.now.state of.now ≡ Some items → IfOk result (λ v. slice_get items place ≡ Some v) }
    ensures fits { IfOk result (λ v. IsTrue (fits machine.now.state.objects v)) }
{
    match of {
        Value::Tuple(items) => copy_at(alloc, items.as_slice(), place),
        Value::Range(range) => Ok(integer_at(range, place)),
        Value::List(id) => copy_at(alloc, machine.list(*id), place),
        Value::Dict(id) => key_at(alloc, machine.dict(*id), place),
        _ => unreachable!(),
    }
}

fn integer_at(range: &Range, place: u128) -> Value
    requires { place < range_count range.now }
    ensures { result ≡ value.Int (range_item range.now place) }
{
    Value::Int(range.item(place))
}

fn copy_at(alloc: Global, items: &[Value], place: u128) -> Result<Value, NoMemory>
    requires { place < length items.now }
    ensures { IfOk result (λ v. slice_get items.now place ≡ Some v) }
{
    match items.get(place as usize) {
        Some(item) => item.copy(alloc),
        None => unreachable!(),
    }
}

#[tactic(auto, using(crate::proofs::GivenItems::key_here))]
fn key_at(alloc: Global, pairs: &Pairs, place: u128) -> Result<Value, NoMemory>
    requires { place < length pairs.now }
    ensures { IfOk result (λ v. slice_get (key_values pairs.now) place ≡ Some v) }
{
    let count = pairs.len() as u128;
    prove!(place < count);
    let (key, _) = pairs.at(place as usize);
    key.value(alloc)
}
