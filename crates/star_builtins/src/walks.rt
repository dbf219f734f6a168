//! What a value gives when it is iterated: how many items, and the item at a place with its charge.
//! No list of the items is made, so that a range may give as many as it likes.
ghost use Rattle.std.specs.Prelude.{◌≡◌, ◌<◌, Some, IfOk, IsTrue, length, slice_get};
ghost use Rattle.star_builtins.specs.Reached.{Fits};
ghost use Rattle.star_builtins.specs.Walks.{Counts, GivesItem, given, weight_at};
ghost use Rattle.star_meaning.specs.State as state;
ghost use Rattle.star_meaning.specs.Validity.{all_in, is_dict, is_proper};
ghost use Rattle.star_meaning.specs.Values.{key_values};
ghost use Rattle.star_value.specs.Keys.{value_of};
ghost use Rattle.star_value.specs.Charge.{charged};
ghost use Rattle.star_value.specs.Weight.{sum_of_weights};

use crate::charges::{charge_key, charge_weight};
use chex_base::{NoMemory, ObjectId};
use heap_store::{Machine, iterated};
use star_value::{Failure, Key, Meter, Stop, Value};
use std::alloc::Global;

/// How many items a value gives: those of a tuple, list or range, or the keys of a dict. Any other
/// value is of a wrong type.
#[tactic(auto, using(crate::proofs::WalkLemmas::counted))]
pub fn count_of(of: &Value, machine: &Machine) -> Result<u128, Failure>
    requires { Fits machine.now of.now }
    ensures { Counts machine.now.state of.now result }
{
    match iterated::count(of, machine) {
        Some(count) => Ok(count),
        None => Err(Failure::WrongType),
    }
}

/// Charges the weight of the item that a value gives at a place. It takes no memory.
#[tactic(auto, using(crate::proofs::WalkLemmas::weights))]
pub fn charge_at(
    of: &Value,
    place: u128,
    machine: &Machine,
    meter: &mut Meter,
) -> Result<(), Failure>
    requires of { Fits machine.now of.now }
    requires within { place < length (given machine.now.state of.now) }
    ensures { charged meter.old.left (weight_at (given machine.now.state of.now) place) ≡ (result, meter.new.left) }
{
    match of {
        Value::Tuple(items) => charge_weight(item_of(items.as_slice(), place), meter),
        Value::Range(_) => meter.charge(1),
        Value::List(id) => charge_weight(item_of(machine.list(*id), place), meter),
        Value::Dict(id) => charge_key(key_of(*id, place, machine), meter),
        Value::None => Ok(()),
        Value::Bool(_) => Ok(()),
        Value::Int(_) => Ok(()),
        Value::Text(_) => Ok(()),
        Value::Function(_) => Ok(()),
        Value::Builtin(_) => Ok(()),
    }
}

/// The item that a value gives at a place. An item of a range is computed; any other is copied, so
/// charge it first.
pub fn item(alloc: Global, of: &Value, place: u128, machine: &Machine) -> Result<Value, NoMemory>
    requires of { Fits machine.now of.now }
    requires held { IsTrue (all_in is_proper machine.now.state) }
    requires within { place < length (given machine.now.state of.now) }
    ensures value { IfOk result (λ v. slice_get (given machine.now.state of.now) place ≡ Some v) }
    ensures fits { IfOk result (λ v. Fits machine.now v) }
{
    let _nodes = machine.ran();
    let item = iterated::item(alloc, of, machine, place)?;
    Ok(item)
}

/// The item that a value gives at a place, once its weight is charged.
#[tactic(auto, using(crate::proofs::WalkLemmas::at_some))]
pub fn charged_item(
    alloc: Global,
    of: &Value,
    place: u128,
    machine: &Machine,
    meter: &mut Meter,
) -> Result<Value, Stop>
    requires of { Fits machine.now of.now }
    requires held { IsTrue (all_in is_proper machine.now.state) }
    requires within { place < length (given machine.now.state of.now) }
    ensures gives { GivesItem (given machine.now.state of.now) place meter.old.left result meter.new.left }
    ensures fits { IfOk result (λ v. Fits machine.now v) }
{
    charge_at(of, place, machine, meter)?;
    let item = item(alloc, of, place, machine)?;
    Ok(item)
}

/// The item at a place.
pub fn item_of(items: &[Value], place: u128) -> &Value
    requires { place < length items.now }
    ensures { slice_get items.now place ≡ Some result.now }
{
    let _count = items.len();
    &items[place as usize]
}

/// The key of a dict at a place.
pub fn key_of(id: ObjectId, place: u128, machine: &Machine) -> &Key
    requires kind { IsTrue (is_dict (slice_get machine.now.state.objects id)) }
    requires within { place < length (state.dict machine.now.state id) }
    ensures { slice_get (key_values (state.dict machine.now.state id)) place ≡ Some (value_of result.now) }
{
    let pairs = machine.dict(id);
    let _count = pairs.len();
    pairs.at(place as usize).0
}

/// Charges the weights of all items that a value gives, of which there are so many.
#[tactic(auto, using(crate::proofs::WalkLemmas::walked))]
pub fn charge_iterated(
    of: &Value,
    count: u128,
    machine: &Machine,
    meter: &mut Meter,
) -> Result<(), Failure>
    requires of { Fits machine.now of.now }
    requires count { length (given machine.now.state of.now) ≡ count }
    ensures { charged meter.old.left (sum_of_weights (given machine.now.state of.now)) ≡ (result, meter.new.left) }
{
    for place in 0..count {
        charge_at(of, place, machine, meter)?;
    }
    Ok(())
}

/// Equal items to those that a value gives, of which there are so many. Charge them first.
#[tactic(auto, using(crate::proofs::WalkLemmas::walked))]
pub fn collected(
    alloc: Global,
    of: &Value,
    count: u128,
    machine: &Machine,
) -> Result<Vec<Value>, NoMemory>
    requires of { Fits machine.now of.now }
    requires held { IsTrue (all_in is_proper machine.now.state) }
    requires count { length (given machine.now.state of.now) ≡ count }
    ensures { IfOk result (λ items. items.items ≡ given machine.now.state of.now) }
{
    let mut items = Vec::new(alloc);
    for place in 0..count {
        items.push(item(alloc, of, place, machine)?)?;
    }
    Ok(items)
}
