//! `dict`. Keys are charged before they are put, and found by their hash.
ghost use Rattle.std.specs.Prelude.{◌≡◌, [], ℕ, IfOk, IfSome, IsTrue, length, slice_get};
ghost use Rattle.star_builtins.specs.Changes.{PairsFit};
ghost use Rattle.star_builtins.specs.Reached.{Answers, Fits, Follows, HasRoom, store};
ghost use Rattle.star_builtins.specs.Rows.{dict_of_pairs, keyed};
ghost use Rattle.star_builtins.specs.Walks.{given};
ghost use Rattle.star_meaning.specs.Builtins as spec;
ghost use Rattle.star_meaning.specs.State.{dict, list};
ghost use Rattle.star_meaning.specs.Steps.{Gives, Store};
ghost use Rattle.star_meaning.specs.Validity.{MachineState, all_in, are_distinct, is_list, is_proper};
ghost use Rattle.star_meaning.specs.Values.{key_values};
ghost use Rattle.star_value.specs.Charge.{charged};
ghost use Rattle.star_value.specs.Keys.{value_of};
ghost use Rattle.star_value.specs.Weight.{sum_of_weights};
ghost use Rattle.star_value.specs.declared.value.Value.{out-Value};
ghost use Rattle.star_value.specs.declared.value.Value.TheVariants as value;

use crate::charges::charge_key;
use crate::dicts::new_dict;
use crate::walks::{charge_iterated, charged_item, count_of};
use chex_base::{NoMemory, ObjectId};
use heap_store::{Machine, Pairs};
use star_value::{Failure, Key, Meter, Stop, Value, Values};
use std::alloc::Global;

/// `dict([x])`: a new dict of the pairs of a dict, of the items of any other value, or of nothing.
/// The keys of a dict are charged twice, as items and as keys. Of other items each one's weight is
/// charged; then one that is no list or tuple of two is BadUnpack, and a first part that is no key
/// is Unhashable; then the weight of the key is charged. A key that stood before keeps its place
/// and takes the new value. A value that gives nothing is WrongType.
pub fn dict_of(
    alloc: Global,
    of: Option<Value>,
    machine: &mut Machine,
    meter: &mut Meter,
) -> Result<Value, Stop>
    requires of { IfSome of (λ v. Fits machine.old v) }
    requires held { IsTrue (all_in is_proper machine.old.state) }
    requires room { HasRoom machine.old }
    ensures gives { Gives (spec.dict_of of (store machine.old meter.old.left)) result (store machine.new meter.new.left) }
    ensures fits { IfOk result (λ v. Fits machine.new v) }
    ensures follows { Follows machine.old machine.new }
{
    match of {
        Some(of) => dict_from(alloc, &of, machine, meter),
        None => new_dict(Pairs::new(alloc), machine),
    }
}

fn dict_from(
    alloc: Global,
    of: &Value,
    machine: &mut Machine,
    meter: &mut Meter,
) -> Result<Value, Stop>
    requires of { Fits machine.old of.now }
    requires held { IsTrue (all_in is_proper machine.old.state) }
    requires room { HasRoom machine.old }
    ensures gives { Gives (spec.dict_from (out-Value of.now) of.now (store machine.old meter.old.left)) result (store machine.new meter.new.left) }
    ensures fits { IfOk result (λ v. Fits machine.new v) }
    ensures follows { Follows machine.old machine.new }
{
    match of {
        Value::Dict(id) => copied_dict(alloc, of, *id, machine, meter),
        _ => dict_of_items(alloc, of, machine, meter),
    }
}

fn copied_dict(
    alloc: Global,
    of: &Value,
    id: ObjectId,
    machine: &mut Machine,
    meter: &mut Meter,
) -> Result<Value, Stop>
    requires of { Fits machine.old of.now }
    requires is { of.now ≡ value.Dict id }
    requires held { IsTrue (all_in is_proper machine.old.state) }
    requires room { HasRoom machine.old }
    ensures gives { Gives (spec.copied_pairs (dict machine.old.state id) (store machine.old meter.old.left)) result (store machine.new meter.new.left) }
    ensures fits { IfOk result (λ v. Fits machine.new v) }
    ensures follows { Follows machine.old machine.new }
{
    charge_keys(of, id, machine, meter)?;
    charge_keys(of, id, machine, meter)?;
    let pairs = copied_pairs(alloc, machine.dict(id))?;
    new_dict(pairs, machine)
}

/// Charges the weights of the keys of a dict.
fn charge_keys(
    of: &Value,
    id: ObjectId,
    machine: &Machine,
    meter: &mut Meter,
) -> Result<(), Failure>
    requires of { Fits machine.now of.now }
    requires is { of.now ≡ value.Dict id }
    ensures { charged meter.old.left (sum_of_weights (key_values (dict machine.now.state id))) ≡ (result, meter.new.left) }
{
    let count = machine.dict_len(id) as u128;
    charge_iterated(of, count, machine, meter)
}

/// Equal pairs to these.
fn copied_pairs(alloc: Global, pairs: &Pairs) -> Result<Pairs, NoMemory>
    requires { IsTrue (are_distinct pairs.now) }
    ensures { IfOk result (λ copies. copies ≡ pairs.now) }
{
    let mut copies = Pairs::new(alloc);
    for place in 0..pairs.len() {
        let (key, value) = pairs.at(place);
        copies.put(key.copy(alloc)?, value.copy(alloc)?)?;
    }
    Ok(copies)
}

fn dict_of_items(
    alloc: Global,
    of: &Value,
    machine: &mut Machine,
    meter: &mut Meter,
) -> Result<Value, Stop>
    requires of { Fits machine.old of.now }
    requires held { IsTrue (all_in is_proper machine.old.state) }
    requires room { HasRoom machine.old }
    ensures gives { Gives (dict_of_pairs of.now (store machine.old meter.old.left)) result (store machine.new meter.new.left) }
    ensures fits { IfOk result (λ v. Fits machine.new v) }
    ensures follows { Follows machine.old machine.new }
{
    let count = count_of(of, machine)?;
    let pairs = pairs_from(alloc, of, count, machine, meter)?;
    new_dict(pairs, machine)
}

/// The pairs that the items of a value are, of which there are so many.
fn pairs_from(
    alloc: Global,
    of: &Value,
    count: u128,
    machine: &Machine,
    meter: &mut Meter,
) -> Result<Pairs, Stop>
    requires of { Fits machine.now of.now }
    requires held { IsTrue (all_in is_proper machine.now.state) }
    requires count { length (given machine.now.state of.now) ≡ count }
    ensures gives { Gives (spec.pairs_from [] (given machine.now.state of.now) (store machine.now meter.old.left)) result (store machine.now meter.new.left) }
    ensures fits { IfOk result (λ pairs. PairsFit machine.now pairs) }
{
    let mut pairs = Pairs::new(alloc);
    for place in 0..count {
        let item = charged_item(alloc, of, place, machine, meter)?;
        let (key, value) = keyed_pair(alloc, item, machine, meter)?;
        pairs.put(key, value)?;
    }
    Ok(pairs)
}

/// The key and the value that an item is, once the weight of the key is charged.
fn keyed_pair(
    alloc: Global,
    item: Value,
    machine: &Machine,
    meter: &mut Meter,
) -> Result<(Key, Value), Stop>
    requires item { Fits machine.now item }
    requires held { IsTrue (all_in is_proper machine.now.state) }
    ensures gives { Gives (keyed item (store machine.now meter.old.left)) result (store machine.now meter.new.left) }
    ensures key { IfOk result (λ pair. IsTrue (is_proper (value_of pair.0))) }
    ensures value { IfOk result (λ pair. Fits machine.now pair.1) }
{
    let (key, value) = two_in(alloc, item, machine)?;
    let key = Key::from_value(alloc, key)?;
    charge_key(&key, meter)?;
    Ok((key, value))
}

/// The two items of a list or tuple; anything else is BadUnpack.
fn two_in(alloc: Global, of: Value, machine: &Machine) -> Result<(Value, Value), Stop>
    requires of { Fits machine.now of }
    requires held { IsTrue (all_in is_proper machine.now.state) }
    ensures gives { (left : ℕ) → Gives (spec.pair_at (out-Value of) (store machine.now left)) result (store machine.now left) }
    ensures first { IfOk result (λ two. Fits machine.now two.0) }
    ensures second { IfOk result (λ two. Fits machine.now two.1) }
{
    match of {
        Value::List(id) => two_copied(alloc, id, machine),
        Value::Tuple(items) => Ok(two_taken(items)?),
        _ => Err(Stop::Failure(Failure::BadUnpack)),
    }
}

fn two_copied(alloc: Global, id: ObjectId, machine: &Machine) -> Result<(Value, Value), Stop>
    requires kind { IsTrue (is_list (slice_get machine.now.state.objects id)) }
    requires held { IsTrue (all_in is_proper machine.now.state) }
    ensures gives { (s : Store ℕ) → Gives (spec.two_of (list machine.now.state id) s) result s }
    ensures first { IfOk result (λ two. Fits machine.now two.0) }
    ensures second { IfOk result (λ two. Fits machine.now two.1) }
{
    let items = machine.list(id);
    if items.len() != 2 {
        return Err(Stop::Failure(Failure::BadUnpack));
    }
    Ok((items[0].copy(alloc)?, items[1].copy(alloc)?))
}

fn two_taken(mut items: Values) -> Result<(Value, Value), Failure>
    ensures gives { (s : Store ℕ) → Answers (spec.two_of items s) result s }
    ensures first { (m : MachineState) → Fits m (value.Tuple items) → IfOk result (λ two. Fits m two.0) }
    ensures second { (m : MachineState) → Fits m (value.Tuple items) → IfOk result (λ two. Fits m two.1) }
{
    if items.len() != 2 {
        return Err(Failure::BadUnpack);
    }
    let Some(second) = items.pop() else {
        return Err(Failure::BadUnpack);
    };
    let Some(first) = items.pop() else {
        return Err(Failure::BadUnpack);
    };
    Ok((first, second))
}
