//! The methods of dicts. A dict that is iterated over is not changed, and a call that fails changes
//! nothing. A key is found by its hash.
ghost use Rattle.std.specs.Prelude.{◌≡◌, ℕ, List, IfOk, IfSome, IsTrue, slice_get, unwrap_or};
ghost use Rattle.star_builtins.specs.MethodRows as rows;
ghost use Rattle.star_builtins.specs.Reached.{AllFit, Fits, Follows, HasRoom, store};
ghost use Rattle.star_builtins.specs.Taken.{GivesCharged};
ghost use Rattle.star_meaning.specs.Methods as spec;
ghost use Rattle.star_meaning.specs.State as state;
ghost use Rattle.star_meaning.specs.Steps.{Gives};
ghost use Rattle.star_meaning.specs.Validity.{MachineState, all_in, is_dict, is_proper};
ghost use Rattle.star_meaning.specs.Values.{key_values};
ghost use Rattle.star_value.specs.Charge.{charged};
ghost use Rattle.star_value.specs.Weight.{sum_of_weights};
ghost use Rattle.star_value.specs.declared.value.Value.TheVariants as value;

use crate::arguments::{none, one, one_or_two};
use crate::changes::{check_unlocked, clear_dict, put_pair, take_pair};
use crate::charges::charge_key;
use crate::dict_walks::{charge_pairs, charged_values, item_tuples, put_pairs, reversed_pairs};
use crate::lists::new_list;
use crate::walks::{charge_iterated, collected};
use chex_base::ObjectId;
use heap_store::Machine;
use sqlite_items::Items;
use star_value::{Failure, Key, Meter, Stop, Value, Values};
use std::alloc::Global;

/// `get(k[, d])` is the value of a key, or else the one that is given, which is None by default. It
/// charges the weight of the key.
pub fn get(
    alloc: Global,
    id: ObjectId,
    arguments: Values,
    machine: &Machine,
    meter: &mut Meter,
) -> Result<Value, Stop>
    requires kind { IsTrue (is_dict (slice_get machine.now.state.objects id)) }
    requires arguments { AllFit machine.now arguments }
    requires held { IsTrue (all_in is_proper machine.now.state) }
    ensures gives { (locked : List ℕ) → Gives (spec.get locked id arguments (store machine.now meter.old.left)) result (store machine.now meter.new.left) }
    ensures fits { IfOk result (λ v. Fits machine.now v) }
{
    let (key, otherwise) = one_or_two(arguments)?;
    get_value(alloc, id, key, otherwise, machine, meter)
}

#[tactic(auto, unfolding(star_meaning::specs::Steps::charge), using(crate::proofs::FollowLemmas::follows_equal, crate::proofs::FitLemmas::dict_value, crate::proofs::KeyLemmas::keys))]
fn get_value(
    alloc: Global,
    id: ObjectId,
    key: Value,
    otherwise: Option<Value>,
    machine: &Machine,
    meter: &mut Meter,
) -> Result<Value, Stop>
    requires kind { IsTrue (is_dict (slice_get machine.now.state.objects id)) }
    requires otherwise { IfSome otherwise (λ v. Fits machine.now v) }
    requires held { IsTrue (all_in is_proper machine.now.state) }
    ensures gives { Gives (rows.get_value id key otherwise (store machine.now meter.old.left)) result (store machine.now meter.new.left) }
    ensures fits { IfOk result (λ v. Fits machine.now v) }
{
    let key = Key::from_value(alloc, key)?;
    charge_key(&key, meter)?;
    match machine.dict_get(id, &key) {
        Some(held) => Ok(held.copy(alloc)?),
        None => Ok(given_or_none(otherwise)),
    }
}

/// The value that is given, or None.
#[tactic(auto, using(crate::proofs::TruthLemmas::fits_none))]
fn given_or_none(given: Option<Value>) -> Value
    ensures is { result ≡ unwrap_or given value.None }
    ensures fits { (m : MachineState) → IfSome given (λ v. Fits m v) → Fits m result }
{
    match given {
        Some(given) => given,
        None => Value::None,
    }
}

/// `pop(k[, d])` takes a key out of a dict and answers its value, or else the one that is given. A
/// key that is not there is NoKey where none is given. It charges the weight of the key.
#[tactic(auto, using(crate::proofs::FollowLemmas::follows_equal))]
pub fn pop(
    alloc: Global,
    locked: &[ObjectId],
    id: ObjectId,
    arguments: Values,
    machine: &mut Machine,
    meter: &mut Meter,
) -> Result<Value, Stop>
    requires kind { IsTrue (is_dict (slice_get machine.old.state.objects id)) }
    requires arguments { AllFit machine.old arguments }
    requires held { IsTrue (all_in is_proper machine.old.state) }
    ensures gives { Gives (spec.pop_key locked.now id arguments (store machine.old meter.old.left)) result (store machine.new meter.new.left) }
    ensures fits { IfOk result (λ v. Fits machine.new v) }
    ensures follows { Follows machine.old machine.new }
{
    let (key, otherwise) = one_or_two(arguments)?;
    pop_value(alloc, locked, id, key, otherwise, machine, meter)
}

#[tactic(auto, unfolding(star_meaning::specs::Steps::charge), using(crate::proofs::FollowLemmas::follows_equal, crate::proofs::FitLemmas::dict_value, crate::proofs::KeyLemmas::keys))]
fn pop_value(
    alloc: Global,
    locked: &[ObjectId],
    id: ObjectId,
    key: Value,
    otherwise: Option<Value>,
    machine: &mut Machine,
    meter: &mut Meter,
) -> Result<Value, Stop>
    requires kind { IsTrue (is_dict (slice_get machine.old.state.objects id)) }
    requires otherwise { IfSome otherwise (λ v. Fits machine.old v) }
    requires held { IsTrue (all_in is_proper machine.old.state) }
    ensures gives { Gives (rows.pop_value locked.now id key otherwise (store machine.old meter.old.left)) result (store machine.new meter.new.left) }
    ensures fits { IfOk result (λ v. Fits machine.new v) }
    ensures follows { Follows machine.old machine.new }
{
    let key = Key::from_value(alloc, key)?;
    check_unlocked(locked, id)?;
    check_found(id, &key, &otherwise, machine)?;
    charge_key(&key, meter)?;
    match take_pair(id, &key, machine) {
        Some(held) => Ok(held),
        None => Ok(given_or_none(otherwise)),
    }
}

/// A key that is not there is NoKey where no value is given in its place.
fn check_found(
    id: ObjectId,
    key: &Key,
    otherwise: &Option<Value>,
    machine: &Machine,
) -> Result<(), Failure>
    requires { IsTrue (is_dict (slice_get machine.now.state.objects id)) }
    ensures { result ≡ rows.found_check otherwise.now (state.dict_get (state.dict machine.now.state id) key.now) }
{
    match otherwise {
        Some(_) => Ok(()),
        None => match machine.dict_get(id, key) {
            Some(_) => Ok(()),
            None => Err(Failure::NoKey),
        },
    }
}

/// `setdefault(k[, d])` is the value of a key. A key that is not there gets the value that is given,
/// which is None by default. It charges the weight of the key.
#[tactic(auto, using(crate::proofs::FollowLemmas::follows_equal))]
pub fn set_default(
    alloc: Global,
    locked: &[ObjectId],
    id: ObjectId,
    arguments: Values,
    machine: &mut Machine,
    meter: &mut Meter,
) -> Result<Value, Stop>
    requires kind { IsTrue (is_dict (slice_get machine.old.state.objects id)) }
    requires arguments { AllFit machine.old arguments }
    requires held { IsTrue (all_in is_proper machine.old.state) }
    ensures gives { Gives (spec.set_default locked.now id arguments (store machine.old meter.old.left)) result (store machine.new meter.new.left) }
    ensures fits { IfOk result (λ v. Fits machine.new v) }
    ensures follows { Follows machine.old machine.new }
{
    let (key, otherwise) = one_or_two(arguments)?;
    default_value(alloc, locked, id, key, otherwise, machine, meter)
}

#[tactic(auto, unfolding(star_meaning::specs::Steps::charge), using(crate::proofs::FollowLemmas::follows_equal, crate::proofs::FitLemmas::dict_value, crate::proofs::KeyLemmas::keys))]
fn default_value(
    alloc: Global,
    locked: &[ObjectId],
    id: ObjectId,
    key: Value,
    otherwise: Option<Value>,
    machine: &mut Machine,
    meter: &mut Meter,
) -> Result<Value, Stop>
    requires kind { IsTrue (is_dict (slice_get machine.old.state.objects id)) }
    requires key { Fits machine.old key }
    requires otherwise { IfSome otherwise (λ v. Fits machine.old v) }
    requires held { IsTrue (all_in is_proper machine.old.state) }
    ensures gives { Gives (rows.default_value locked.now id key otherwise (store machine.old meter.old.left)) result (store machine.new meter.new.left) }
    ensures fits { IfOk result (λ v. Fits machine.new v) }
    ensures follows { Follows machine.old machine.new }
{
    let key = Key::from_value(alloc, key)?;
    check_unlocked(locked, id)?;
    charge_key(&key, meter)?;
    if let Some(held) = machine.dict_get(id, &key) {
        return Ok(held.copy(alloc)?);
    }
    let held = given_or_none(otherwise);
    let copy = held.copy(alloc)?;
    put_pair(id, key, held, machine)?;
    Ok(copy)
}

/// `keys()` is a new list of the keys of a dict, once their weights are charged.
#[tactic(auto, using(crate::proofs::FollowLemmas::follows_equal))]
pub fn keys(
    alloc: Global,
    id: ObjectId,
    arguments: Values,
    machine: &mut Machine,
    meter: &mut Meter,
) -> Result<Value, Stop>
    requires kind { IsTrue (is_dict (slice_get machine.old.state.objects id)) }
    requires held { IsTrue (all_in is_proper machine.old.state) }
    requires room { HasRoom machine.old }
    ensures gives { (locked : List ℕ) → Gives (spec.keys_of locked id arguments (store machine.old meter.old.left)) result (store machine.new meter.new.left) }
    ensures fits { IfOk result (λ v. Fits machine.new v) }
    ensures follows { Follows machine.old machine.new }
{
    none(&arguments)?;
    key_list(alloc, id, machine, meter)
}

#[tactic(auto, using(crate::proofs::FollowLemmas::follows_equal))]
fn key_list(
    alloc: Global,
    id: ObjectId,
    machine: &mut Machine,
    meter: &mut Meter,
) -> Result<Value, Stop>
    requires kind { IsTrue (is_dict (slice_get machine.old.state.objects id)) }
    requires held { IsTrue (all_in is_proper machine.old.state) }
    requires room { HasRoom machine.old }
    ensures gives { Gives (rows.key_list id (store machine.old meter.old.left)) result (store machine.new meter.new.left) }
    ensures fits { IfOk result (λ v. Fits machine.new v) }
    ensures follows { Follows machine.old machine.new }
{
    let keys = charged_keys(alloc, id, machine, meter)?;
    new_list(keys, machine)
}

/// The keys of a dict as values, once their weights are charged.
fn charged_keys(
    alloc: Global,
    id: ObjectId,
    machine: &Machine,
    meter: &mut Meter,
) -> Result<Values, Stop>
    requires kind { IsTrue (is_dict (slice_get machine.now.state.objects id)) }
    requires held { IsTrue (all_in is_proper machine.now.state) }
    ensures charges { GivesCharged (charged meter.old.left (sum_of_weights (key_values (state.dict machine.now.state id)))) (key_values (state.dict machine.now.state id)) result meter.new.left }
    ensures fits { IfOk result (λ keys. AllFit machine.now keys) }
{
    let of = Value::Dict(id);
    let count = machine.dict_len(id) as u128;
    charge_iterated(&of, count, machine, meter)?;
    let keys = collected(alloc, &of, count, machine)?;
    Ok(Items::from_vec(keys))
}

/// `values()` is a new list of the values of a dict, once their weights are charged.
#[tactic(auto, using(crate::proofs::FollowLemmas::follows_equal))]
pub fn values(
    alloc: Global,
    id: ObjectId,
    arguments: Values,
    machine: &mut Machine,
    meter: &mut Meter,
) -> Result<Value, Stop>
    requires kind { IsTrue (is_dict (slice_get machine.old.state.objects id)) }
    requires held { IsTrue (all_in is_proper machine.old.state) }
    requires room { HasRoom machine.old }
    ensures gives { (locked : List ℕ) → Gives (spec.values_of locked id arguments (store machine.old meter.old.left)) result (store machine.new meter.new.left) }
    ensures fits { IfOk result (λ v. Fits machine.new v) }
    ensures follows { Follows machine.old machine.new }
{
    none(&arguments)?;
    value_list(alloc, id, machine, meter)
}

#[tactic(auto, using(crate::proofs::FollowLemmas::follows_equal))]
fn value_list(
    alloc: Global,
    id: ObjectId,
    machine: &mut Machine,
    meter: &mut Meter,
) -> Result<Value, Stop>
    requires kind { IsTrue (is_dict (slice_get machine.old.state.objects id)) }
    requires held { IsTrue (all_in is_proper machine.old.state) }
    requires room { HasRoom machine.old }
    ensures gives { Gives (rows.value_list id (store machine.old meter.old.left)) result (store machine.new meter.new.left) }
    ensures fits { IfOk result (λ v. Fits machine.new v) }
    ensures follows { Follows machine.old machine.new }
{
    let values = charged_values(alloc, machine.dict(id), meter)?;
    new_list(values, machine)
}

/// `items()` is a new list of tuples, each of a key and its value; each tuple is charged before it
/// is made.
#[tactic(auto, using(crate::proofs::FollowLemmas::follows_equal))]
pub fn items(
    alloc: Global,
    id: ObjectId,
    arguments: Values,
    machine: &mut Machine,
    meter: &mut Meter,
) -> Result<Value, Stop>
    requires kind { IsTrue (is_dict (slice_get machine.old.state.objects id)) }
    requires held { IsTrue (all_in is_proper machine.old.state) }
    requires room { HasRoom machine.old }
    ensures gives { (locked : List ℕ) → Gives (spec.items_of_dict locked id arguments (store machine.old meter.old.left)) result (store machine.new meter.new.left) }
    ensures fits { IfOk result (λ v. Fits machine.new v) }
    ensures follows { Follows machine.old machine.new }
{
    none(&arguments)?;
    item_list(alloc, id, machine, meter)
}

#[tactic(auto, using(crate::proofs::FollowLemmas::follows_equal))]
fn item_list(
    alloc: Global,
    id: ObjectId,
    machine: &mut Machine,
    meter: &mut Meter,
) -> Result<Value, Stop>
    requires kind { IsTrue (is_dict (slice_get machine.old.state.objects id)) }
    requires held { IsTrue (all_in is_proper machine.old.state) }
    requires room { HasRoom machine.old }
    ensures gives { Gives (rows.item_list id (store machine.old meter.old.left)) result (store machine.new meter.new.left) }
    ensures fits { IfOk result (λ v. Fits machine.new v) }
    ensures follows { Follows machine.old machine.new }
{
    let tuples = item_tuples(alloc, machine.dict(id), meter)?;
    new_list(tuples, machine)
}

/// `update(d)` puts the pairs of another dict into a dict, in their order, once the weights of these
/// keys and values are charged. They are copied before the first one is put, so a dict may be
/// updated with itself.
#[tactic(auto, using(crate::proofs::FollowLemmas::follows_equal))]
pub fn update(
    alloc: Global,
    locked: &[ObjectId],
    id: ObjectId,
    arguments: Values,
    machine: &mut Machine,
    meter: &mut Meter,
) -> Result<Value, Stop>
    requires kind { IsTrue (is_dict (slice_get machine.old.state.objects id)) }
    requires arguments { AllFit machine.old arguments }
    requires held { IsTrue (all_in is_proper machine.old.state) }
    ensures gives { Gives (spec.update locked.now id arguments (store machine.old meter.old.left)) result (store machine.new meter.new.left) }
    ensures fits { IfOk result (λ v. Fits machine.new v) }
    ensures follows { Follows machine.old machine.new }
{
    let of = one(arguments)?;
    update_with(alloc, locked, id, &of, machine, meter)
}

#[tactic(auto, using(crate::proofs::FollowLemmas::follows_equal, crate::proofs::FitLemmas::held, crate::proofs::Outs::outs))]
fn update_with(
    alloc: Global,
    locked: &[ObjectId],
    id: ObjectId,
    of: &Value,
    machine: &mut Machine,
    meter: &mut Meter,
) -> Result<Value, Stop>
    requires kind { IsTrue (is_dict (slice_get machine.old.state.objects id)) }
    requires of { Fits machine.old of.now }
    requires held { IsTrue (all_in is_proper machine.old.state) }
    ensures gives { Gives (rows.update_with locked.now id of.now (store machine.old meter.old.left)) result (store machine.new meter.new.left) }
    ensures fits { IfOk result (λ v. Fits machine.new v) }
    ensures follows { Follows machine.old machine.new }
{
    match of {
        Value::Dict(other) => update_pairs(alloc, locked, id, *other, machine, meter),
        _ => Err(Stop::Failure(Failure::WrongType)),
    }
}

#[tactic(auto, unfolding(star_meaning::specs::Steps::charge), using(crate::proofs::FollowLemmas::follows_equal, crate::proofs::TruthLemmas::fits_none))]
fn update_pairs(
    alloc: Global,
    locked: &[ObjectId],
    id: ObjectId,
    other: ObjectId,
    machine: &mut Machine,
    meter: &mut Meter,
) -> Result<Value, Stop>
    requires kind { IsTrue (is_dict (slice_get machine.old.state.objects id)) }
    requires other { IsTrue (is_dict (slice_get machine.old.state.objects other)) }
    requires held { IsTrue (all_in is_proper machine.old.state) }
    ensures gives { Gives (rows.update_pairs locked.now id (state.dict machine.old.state other) (store machine.old meter.old.left)) result (store machine.new meter.new.left) }
    ensures fits { IfOk result (λ v. Fits machine.new v) }
    ensures follows { Follows machine.old machine.new }
{
    check_unlocked(locked, id)?;
    charge_pairs(machine.dict(other), meter)?;
    let more = reversed_pairs(alloc, machine.dict(other))?;
    put_pairs(id, more, machine)?;
    Ok(Value::None)
}

/// `clear()` takes all pairs out of a dict.
#[tactic(auto, using(crate::proofs::FollowLemmas::follows_equal))]
pub fn clear(
    locked: &[ObjectId],
    id: ObjectId,
    arguments: Values,
    machine: &mut Machine,
) -> Result<Value, Stop>
    requires { IsTrue (is_dict (slice_get machine.old.state.objects id)) }
    ensures gives { (left : ℕ) → Gives (spec.clear_dict locked.now id arguments (store machine.old left)) result (store machine.new left) }
    ensures fits { IfOk result (λ v. Fits machine.new v) }
    ensures follows { Follows machine.old machine.new }
{
    none(&arguments)?;
    clear_pairs(locked, id, machine)
}

#[tactic(auto, using(crate::proofs::FollowLemmas::follows_equal, crate::proofs::TruthLemmas::fits_none))]
fn clear_pairs(locked: &[ObjectId], id: ObjectId, machine: &mut Machine) -> Result<Value, Stop>
    requires { IsTrue (is_dict (slice_get machine.old.state.objects id)) }
    ensures gives { (left : ℕ) → Gives (rows.clear_pairs locked.now id (store machine.old left)) result (store machine.new left) }
    ensures fits { IfOk result (λ v. Fits machine.new v) }
    ensures follows { Follows machine.old machine.new }
{
    check_unlocked(locked, id)?;
    clear_dict(id, machine);
    Ok(Value::None)
}
