//! The methods of lists. A list that is iterated over is not changed, and a call that fails changes
//! nothing.
ghost use Rattle.std.specs.Prelude.{◌≡◌, ◌<◌, ◌≤◌, ℕ, List, length, IfOk, IsTrue, negsuc, slice_get};
ghost use Rattle.star_builtins.specs.MethodRows as rows;
ghost use Rattle.star_builtins.specs.Reached.{AllFit, Answers, Fits, Follows, store};
ghost use Rattle.star_meaning.specs.Builtins as builtins;
ghost use Rattle.star_meaning.specs.Methods as spec;
ghost use Rattle.star_meaning.specs.State as state;
ghost use Rattle.star_meaning.specs.Steps.{Gives, Store};
ghost use Rattle.star_meaning.specs.Validity.{all_in, is_list, is_proper};

use crate::arguments::{as_int, none, one, optional, two};
use crate::changes::{check_unlocked, clear_list, insert_item, remove_item};
use crate::membership::search_in;
use crate::places::place_of;
use crate::slicing::{clamped, counted};
use crate::{integers, stores};
use chex_base::ObjectId;
use heap_store::Machine;
use star_value::{Failure, Meter, Stop, Value, Values};
use std::alloc::Global;

/// `append(x)` puts a value at the end of a list.
#[tactic(auto, using(crate::proofs::FollowLemmas::follows_equal))]
pub fn append(
    locked: &[ObjectId],
    id: ObjectId,
    arguments: Values,
    machine: &mut Machine,
) -> Result<Value, Stop>
    requires kind { IsTrue (is_list (slice_get machine.old.state.objects id)) }
    requires arguments { AllFit machine.old arguments }
    requires held { IsTrue (all_in is_proper machine.old.state) }
    ensures gives { (left : ℕ) → Gives (spec.append locked.now id arguments (store machine.old left)) result (store machine.new left) }
    ensures fits { IfOk result (λ v. Fits machine.new v) }
    ensures follows { Follows machine.old machine.new }
{
    let item = one(arguments)?;
    append_value(locked, id, item, machine)
}

#[tactic(auto, using(crate::proofs::FollowLemmas::follows_equal, crate::proofs::TruthLemmas::fits_none, crate::proofs::MethodLemmas::lists))]
fn append_value(
    locked: &[ObjectId],
    id: ObjectId,
    item: Value,
    machine: &mut Machine,
) -> Result<Value, Stop>
    requires kind { IsTrue (is_list (slice_get machine.old.state.objects id)) }
    requires item { Fits machine.old item }
    requires held { IsTrue (all_in is_proper machine.old.state) }
    ensures gives { (left : ℕ) → Gives (rows.append_value locked.now id item (store machine.old left)) result (store machine.new left) }
    ensures fits { IfOk result (λ v. Fits machine.new v) }
    ensures follows { Follows machine.old machine.new }
{
    check_unlocked(locked, id)?;
    let end = machine.list(id).len();
    insert_item(id, end, item, machine)?;
    Ok(Value::None)
}

/// `clear()` takes all items out of a list.
#[tactic(auto, using(crate::proofs::FollowLemmas::follows_equal))]
pub fn clear(
    locked: &[ObjectId],
    id: ObjectId,
    arguments: Values,
    machine: &mut Machine,
) -> Result<Value, Stop>
    requires { IsTrue (is_list (slice_get machine.old.state.objects id)) }
    ensures gives { (left : ℕ) → Gives (spec.clear_list locked.now id arguments (store machine.old left)) result (store machine.new left) }
    ensures fits { IfOk result (λ v. Fits machine.new v) }
    ensures follows { Follows machine.old machine.new }
{
    none(&arguments)?;
    clear_items(locked, id, machine)
}

#[tactic(auto, using(crate::proofs::FollowLemmas::follows_equal, crate::proofs::TruthLemmas::fits_none, crate::proofs::MethodLemmas::lists))]
fn clear_items(locked: &[ObjectId], id: ObjectId, machine: &mut Machine) -> Result<Value, Stop>
    requires { IsTrue (is_list (slice_get machine.old.state.objects id)) }
    ensures gives { (left : ℕ) → Gives (rows.clear_items locked.now id (store machine.old left)) result (store machine.new left) }
    ensures fits { IfOk result (λ v. Fits machine.new v) }
    ensures follows { Follows machine.old machine.new }
{
    check_unlocked(locked, id)?;
    clear_list(id, machine);
    Ok(Value::None)
}

/// `extend(x)` puts what a value gives at the end of a list, once the weights of these items are
/// charged.
#[tactic(auto, using(crate::proofs::FollowLemmas::follows_equal))]
pub fn extend(
    alloc: Global,
    locked: &[ObjectId],
    id: ObjectId,
    arguments: Values,
    machine: &mut Machine,
    meter: &mut Meter,
) -> Result<Value, Stop>
    requires kind { IsTrue (is_list (slice_get machine.old.state.objects id)) }
    requires arguments { AllFit machine.old arguments }
    requires held { IsTrue (all_in is_proper machine.old.state) }
    ensures gives { Gives (spec.extend_by locked.now id arguments (store machine.old meter.old.left)) result (store machine.new meter.new.left) }
    ensures fits { IfOk result (λ v. Fits machine.new v) }
    ensures follows { Follows machine.old machine.new }
{
    let of = one(arguments)?;
    extend_value(alloc, locked, id, &of, machine, meter)
}

#[tactic(auto, using(crate::proofs::FollowLemmas::follows_equal, crate::proofs::TruthLemmas::fits_none))]
fn extend_value(
    alloc: Global,
    locked: &[ObjectId],
    id: ObjectId,
    of: &Value,
    machine: &mut Machine,
    meter: &mut Meter,
) -> Result<Value, Stop>
    requires kind { IsTrue (is_list (slice_get machine.old.state.objects id)) }
    requires of { Fits machine.old of.now }
    requires held { IsTrue (all_in is_proper machine.old.state) }
    ensures gives { Gives (rows.extend_value locked.now id of.now (store machine.old meter.old.left)) result (store machine.new meter.new.left) }
    ensures fits { IfOk result (λ v. Fits machine.new v) }
    ensures follows { Follows machine.old machine.new }
{
    stores::extend(alloc, locked, id, of, machine, meter)?;
    Ok(Value::None)
}

/// `insert(i, x)` puts a value at a place of a list. A negative place has the length added, and is
/// then brought into the list.
#[tactic(auto, using(crate::proofs::FollowLemmas::follows_equal))]
pub fn insert(
    locked: &[ObjectId],
    id: ObjectId,
    arguments: Values,
    machine: &mut Machine,
) -> Result<Value, Stop>
    requires kind { IsTrue (is_list (slice_get machine.old.state.objects id)) }
    requires arguments { AllFit machine.old arguments }
    requires held { IsTrue (all_in is_proper machine.old.state) }
    ensures gives { (left : ℕ) → Gives (spec.insert_in locked.now id arguments (store machine.old left)) result (store machine.new left) }
    ensures fits { IfOk result (λ v. Fits machine.new v) }
    ensures follows { Follows machine.old machine.new }
{
    let (at, item) = two(arguments)?;
    insert_value(locked, id, &at, item, machine)
}

#[tactic(auto, using(crate::proofs::FollowLemmas::follows_equal))]
fn insert_value(
    locked: &[ObjectId],
    id: ObjectId,
    at: &Value,
    item: Value,
    machine: &mut Machine,
) -> Result<Value, Stop>
    requires kind { IsTrue (is_list (slice_get machine.old.state.objects id)) }
    requires item { Fits machine.old item }
    requires held { IsTrue (all_in is_proper machine.old.state) }
    ensures gives { (left : ℕ) → Gives (rows.insert_value locked.now id at.now item (store machine.old left)) result (store machine.new left) }
    ensures fits { IfOk result (λ v. Fits machine.new v) }
    ensures follows { Follows machine.old machine.new }
{
    let number = as_int(at)?;
    insert_number(locked, id, number, item, machine)
}

#[tactic(auto, using(crate::proofs::FollowLemmas::follows_equal, crate::proofs::TruthLemmas::fits_none, crate::proofs::MethodLemmas::lists))]
fn insert_number(
    locked: &[ObjectId],
    id: ObjectId,
    number: i128,
    item: Value,
    machine: &mut Machine,
) -> Result<Value, Stop>
    requires kind { IsTrue (is_list (slice_get machine.old.state.objects id)) }
    requires item { Fits machine.old item }
    requires held { IsTrue (all_in is_proper machine.old.state) }
    ensures gives { (left : ℕ) → Gives (rows.insert_number locked.now id number item (store machine.old left)) result (store machine.new left) }
    ensures fits { IfOk result (λ v. Fits machine.new v) }
    ensures follows { Follows machine.old machine.new }
{
    check_unlocked(locked, id)?;
    let place = insert_place(number, machine.list(id).len());
    insert_item(id, place, item, machine)?;
    Ok(Value::None)
}

/// The place at which `insert` puts a value into a list of so many items.
fn insert_place(number: i128, count: usize) -> usize
    ensures is { result ≡ spec.insert_place number count }
    ensures within { result ≤ count }
{
    let high = count as i128;
    clamped(0, high, counted(high, number)) as usize
}

/// `pop([i])` takes an item out of a list and answers it; without a place it is the last one.
#[tactic(auto, using(crate::proofs::FollowLemmas::follows_equal))]
pub fn pop(
    locked: &[ObjectId],
    id: ObjectId,
    arguments: Values,
    machine: &mut Machine,
) -> Result<Value, Stop>
    requires kind { IsTrue (is_list (slice_get machine.old.state.objects id)) }
    requires held { IsTrue (all_in is_proper machine.old.state) }
    ensures gives { (left : ℕ) → Gives (spec.pop_item locked.now id arguments (store machine.old left)) result (store machine.new left) }
    ensures fits { IfOk result (λ v. Fits machine.new v) }
    ensures follows { Follows machine.old machine.new }
{
    let at = optional(arguments)?;
    pop_at(locked, id, &at, machine)
}

#[tactic(auto, using(crate::proofs::FollowLemmas::follows_equal))]
fn pop_at(
    locked: &[ObjectId],
    id: ObjectId,
    at: &Option<Value>,
    machine: &mut Machine,
) -> Result<Value, Stop>
    requires kind { IsTrue (is_list (slice_get machine.old.state.objects id)) }
    requires held { IsTrue (all_in is_proper machine.old.state) }
    ensures gives { (left : ℕ) → Gives (rows.pop_at locked.now id at.now (store machine.old left)) result (store machine.new left) }
    ensures fits { IfOk result (λ v. Fits machine.new v) }
    ensures follows { Follows machine.old machine.new }
{
    let number = number_or_last(at)?;
    pop_number(locked, id, number, machine)
}

/// The integer that an argument is, or -1 where none is given.
fn number_or_last(at: &Option<Value>) -> Result<i128, Failure>
    ensures { (s : Store ℕ) → Answers (builtins.as_int_or (negsuc 0) at.now s) result s }
{
    match at {
        Some(at) => as_int(at),
        None => Ok(-1),
    }
}

#[tactic(auto, using(crate::proofs::FollowLemmas::follows_equal, crate::proofs::TruthLemmas::fits_none, crate::proofs::MethodLemmas::lists))]
fn pop_number(
    locked: &[ObjectId],
    id: ObjectId,
    number: i128,
    machine: &mut Machine,
) -> Result<Value, Stop>
    requires kind { IsTrue (is_list (slice_get machine.old.state.objects id)) }
    requires held { IsTrue (all_in is_proper machine.old.state) }
    ensures gives { (left : ℕ) → Gives (rows.pop_number locked.now id number (store machine.old left)) result (store machine.new left) }
    ensures fits { IfOk result (λ v. Fits machine.new v) }
    ensures follows { Follows machine.old machine.new }
{
    check_unlocked(locked, id)?;
    let Some(place) = place_of(number, machine.list(id).len() as u128) else {
        return Err(Stop::Failure(Failure::BadIndex));
    };
    let item = remove_item(id, place as usize, machine);
    Ok(item)
}

/// `remove(x)` takes the first item out of a list that is equal to a value. Where there is none it
/// is NoElement, after the charges of the walk.
#[tactic(auto, using(crate::proofs::FollowLemmas::follows_equal))]
pub fn remove(
    locked: &[ObjectId],
    id: ObjectId,
    arguments: Values,
    machine: &mut Machine,
    meter: &mut Meter,
) -> Result<Value, Stop>
    requires kind { IsTrue (is_list (slice_get machine.old.state.objects id)) }
    requires arguments { AllFit machine.old arguments }
    requires held { IsTrue (all_in is_proper machine.old.state) }
    ensures gives { Gives (spec.remove_item locked.now id arguments (store machine.old meter.old.left)) result (store machine.new meter.new.left) }
    ensures fits { IfOk result (λ v. Fits machine.new v) }
    ensures follows { Follows machine.old machine.new }
{
    let wanted = one(arguments)?;
    remove_value(locked, id, &wanted, machine, meter)
}

#[tactic(auto, using(crate::proofs::FollowLemmas::follows_equal, crate::proofs::TruthLemmas::fits_none, crate::proofs::MethodLemmas::lists))]
fn remove_value(
    locked: &[ObjectId],
    id: ObjectId,
    wanted: &Value,
    machine: &mut Machine,
    meter: &mut Meter,
) -> Result<Value, Stop>
    requires kind { IsTrue (is_list (slice_get machine.old.state.objects id)) }
    requires wanted { Fits machine.old wanted.now }
    requires held { IsTrue (all_in is_proper machine.old.state) }
    ensures gives { Gives (rows.remove_value locked.now id wanted.now (store machine.old meter.old.left)) result (store machine.new meter.new.left) }
    ensures fits { IfOk result (λ v. Fits machine.new v) }
    ensures follows { Follows machine.old machine.new }
{
    check_unlocked(locked, id)?;
    let place = place_in(id, wanted, machine, meter)?;
    let _item = remove_item(id, place, machine);
    Ok(Value::None)
}

/// `index(x)` is the place of the first item that is equal to a value. Where there is none it is
/// NoElement, after the charges of the walk.
pub fn index(
    id: ObjectId,
    arguments: Values,
    machine: &Machine,
    meter: &mut Meter,
) -> Result<Value, Stop>
    requires kind { IsTrue (is_list (slice_get machine.now.state.objects id)) }
    requires arguments { AllFit machine.now arguments }
    ensures gives { (locked : List ℕ) → Gives (spec.index_of locked id arguments (store machine.now meter.old.left)) result (store machine.now meter.new.left) }
    ensures fits { IfOk result (λ v. Fits machine.now v) }
{
    let wanted = one(arguments)?;
    index_value(id, &wanted, machine, meter)
}

fn index_value(
    id: ObjectId,
    wanted: &Value,
    machine: &Machine,
    meter: &mut Meter,
) -> Result<Value, Stop>
    requires kind { IsTrue (is_list (slice_get machine.now.state.objects id)) }
    requires wanted { Fits machine.now wanted.now }
    ensures gives { Gives (rows.index_value id wanted.now (store machine.now meter.old.left)) result (store machine.now meter.new.left) }
    ensures fits { IfOk result (λ v. Fits machine.now v) }
{
    let place = place_in(id, wanted, machine, meter)?;
    Ok(integers::value_of(place as i128))
}

/// The place of the first item that is equal to a value.
#[tactic(auto, using(crate::proofs::Held::references, crate::proofs::MethodLemmas::placing))]
fn place_in(
    id: ObjectId,
    wanted: &Value,
    machine: &Machine,
    meter: &mut Meter,
) -> Result<usize, Failure>
    requires kind { IsTrue (is_list (slice_get machine.now.state.objects id)) }
    requires wanted { Fits machine.now wanted.now }
    ensures gives { Answers (spec.place_in id wanted.now (store machine.now meter.old.left)) result (store machine.now meter.new.left) }
    ensures within { IfOk result (λ place. place < length (state.list machine.now.state id)) }
{
    match search_in(wanted, machine.list(id), machine, meter)? {
        Some(place) => Ok(place),
        None => Err(Failure::NoElement),
    }
}
