//! `enumerate` and `zip`: new lists of tuples. A tuple's weight is charged before it is made, item
//! by item, so that nothing is collected.
ghost use Rattle.std.specs.Prelude.{◌≡◌, ◌<◌, ◌∷◌, [], Some, IfOk, IfSome, IsTrue, length, map, slice_get};
ghost use Rattle.star_builtins.specs.Calling.{AnswersOr};
ghost use Rattle.star_builtins.specs.Reached.{AllFit, Fits, Follows, HasRoom, store};
ghost use Rattle.star_builtins.specs.Rows.{CountsRows, HasRow, charged_tuple, has_last as has_last_of, row_at as row_of, start_in};
ghost use Rattle.star_builtins.specs.Walks.{given};
ghost use Rattle.star_meaning.specs.Builtins as spec;
ghost use Rattle.star_meaning.specs.Steps.{Gives};
ghost use Rattle.star_meaning.specs.Validity.{all_in, is_proper};
ghost use Rattle.star_value.specs.Charge.{charged};
ghost use Rattle.star_value.specs.Weight.{weight};
ghost use Rattle.star_value.specs.declared.failure.Failure.TheVariants as failure;
ghost use Rattle.star_value.specs.declared.value.Value.{Value as AValue};
ghost use Rattle.star_value.specs.declared.value.Value.TheVariants as value;

use crate::arguments::as_int;
use crate::lists::new_list;
use crate::tuples::new_tuple;
use crate::walks::{charge_at, charged_item, count_of, item};
use chex_base::NoMemory;
use heap_store::Machine;
use sqlite_items::Items;
use star_value::{Failure, Meter, Stop, Value, Values};
use std::alloc::Global;

/// `enumerate(x[, start])`: a new list of tuples, each of a number and an item. A value that gives
/// nothing and a start that is no integer are WrongType, and a last number outside 128 bits is
/// IntegerTooLarge. Then each tuple's weight is charged, and one that nests too deep is TooDeep.
pub fn enumerate(
    alloc: Global,
    of: &Value,
    start: Option<Value>,
    machine: &mut Machine,
    meter: &mut Meter,
) -> Result<Value, Stop>
    requires of { Fits machine.old of.now }
    requires held { IsTrue (all_in is_proper machine.old.state) }
    requires room { HasRoom machine.old }
    ensures gives { Gives (spec.enumerate of.now start (store machine.old meter.old.left)) result (store machine.new meter.new.left) }
    ensures fits { IfOk result (λ v. Fits machine.new v) }
    ensures follows { Follows machine.old machine.new }
{
    let count = count_of(of, machine)?;
    let start = first_number(start)?;
    if !has_last(&start, count) {
        return Err(Stop::Failure(Failure::IntegerTooLarge));
    }
    let tuples = numbered(alloc, &start, of, count, machine, meter)?;
    new_list(tuples, machine)
}

/// The number that is given, or 0.
fn first_number(start: Option<Value>) -> Result<i128, Failure>
    ensures { AnswersOr failure.WrongType (start_in start) result }
{
    match start {
        Some(start) => as_int(&start),
        None => Ok(0),
    }
}

/// Whether the last of so many numbers has 128 bits.
fn has_last(start: &i128, count: u128) -> bool
    ensures { result ≡ has_last_of start.now count }
{
    if count == 0 {
        return true;
    }
    start.checked_add_unsigned(count - 1).is_some()
}

/// A tuple for each item that a value gives, of which there are so many.
fn numbered(
    alloc: Global,
    start: &i128,
    of: &Value,
    count: u128,
    machine: &Machine,
    meter: &mut Meter,
) -> Result<Values, Stop>
    requires of { Fits machine.now of.now }
    requires held { IsTrue (all_in is_proper machine.now.state) }
    requires count { length (given machine.now.state of.now) ≡ count }
    requires last { IsTrue (has_last_of start.now count) }
    ensures gives { Gives (spec.tuples (spec.numbered start.now (given machine.now.state of.now)) (store machine.now meter.old.left)) result (store machine.now meter.new.left) }
    ensures fits { IfOk result (λ tuples. AllFit machine.now tuples) }
{
    let mut tuples = Vec::new(alloc);
    for place in 0..count {
        let number = start.saturating_add_unsigned(place);
        let tuple = numbered_item(alloc, &number, of, place, machine, meter)?;
        tuples.push(tuple)?;
    }
    Ok(Items::from_vec(tuples))
}

/// A number and the item at a place.
fn numbered_item(
    alloc: Global,
    number: &i128,
    of: &Value,
    place: u128,
    machine: &Machine,
    meter: &mut Meter,
) -> Result<Value, Stop>
    requires of { Fits machine.now of.now }
    requires held { IsTrue (all_in is_proper machine.now.state) }
    requires within { place < length (given machine.now.state of.now) }
    ensures gives { (x : AValue) → slice_get (given machine.now.state of.now) place ≡ Some x → Gives (charged_tuple (value.Int number.now ∷ x ∷ []) (store machine.now meter.old.left)) result (store machine.now meter.new.left) }
    ensures fits { IfOk result (λ v. Fits machine.now v) }
{
    meter.charge(2)?;
    let item = charged_item(alloc, of, place, machine, meter)?;
    let row = pair(alloc, Value::Int(*number), item)?;
    Ok(new_tuple(row)?)
}

fn pair(alloc: Global, first: Value, second: Value) -> Result<Values, NoMemory>
    ensures { IfOk result (λ both. both ≡ first ∷ second ∷ []) }
{
    let mut both = Items::new(alloc);
    both.push(first)?;
    both.push(second)?;
    Ok(both)
}

/// `zip(..)`: a new list of tuples, each of the items of all columns at one place, up to the
/// shortest column; an empty one where there are no columns. A column that gives nothing is
/// WrongType. Then each tuple's weight is charged, and one that nests too deep is TooDeep.
pub fn zip(
    alloc: Global,
    columns: &[Value],
    machine: &mut Machine,
    meter: &mut Meter,
) -> Result<Value, Stop>
    requires columns { AllFit machine.old columns.now }
    requires held { IsTrue (all_in is_proper machine.old.state) }
    requires room { HasRoom machine.old }
    ensures gives { Gives (spec.zip columns.now (store machine.old meter.old.left)) result (store machine.new meter.new.left) }
    ensures fits { IfOk result (λ v. Fits machine.new v) }
    ensures follows { Follows machine.old machine.new }
{
    let count = row_count(columns, machine)?;
    let tuples = zipped(alloc, columns, count, machine, meter)?;
    new_list(tuples, machine)
}

/// How many rows columns give: as many as the shortest column has items.
fn row_count(columns: &[Value], machine: &Machine) -> Result<u128, Failure>
    requires { AllFit machine.now columns.now }
    ensures { CountsRows machine.now.state columns.now result }
{
    let Some(first) = columns.first() else {
        return Ok(0);
    };
    let mut least = count_of(first, machine)?;
    for column in columns {
        least = least.min(count_of(column, machine)?);
    }
    Ok(least)
}

/// A tuple for each row of some columns, of which there are so many.
fn zipped(
    alloc: Global,
    columns: &[Value],
    count: u128,
    machine: &Machine,
    meter: &mut Meter,
) -> Result<Values, Stop>
    requires columns { AllFit machine.now columns.now }
    requires held { IsTrue (all_in is_proper machine.now.state) }
    requires count { length (spec.rows_of (map (given machine.now.state) columns.now)) ≡ count }
    ensures gives { Gives (spec.tuples (spec.rows_of (map (given machine.now.state) columns.now)) (store machine.now meter.old.left)) result (store machine.now meter.new.left) }
    ensures fits { IfOk result (λ tuples. AllFit machine.now tuples) }
{
    let mut tuples = Vec::new(alloc);
    for place in 0..count {
        let tuple = zipped_items(alloc, columns, place, machine, meter)?;
        tuples.push(tuple)?;
    }
    Ok(Items::from_vec(tuples))
}

/// The items that columns give at a place.
fn zipped_items(
    alloc: Global,
    columns: &[Value],
    place: u128,
    machine: &Machine,
    meter: &mut Meter,
) -> Result<Value, Stop>
    requires columns { AllFit machine.now columns.now }
    requires held { IsTrue (all_in is_proper machine.now.state) }
    requires within { HasRow machine.now.state place columns.now }
    ensures gives { Gives (charged_tuple (row_of machine.now.state place columns.now) (store machine.now meter.old.left)) result (store machine.now meter.new.left) }
    ensures fits { IfOk result (λ v. Fits machine.now v) }
{
    let _nodes = machine.ran();
    charge_row(columns, place, machine, meter)?;
    let row = row_at(alloc, columns, place, machine)?;
    Ok(new_tuple(row)?)
}

/// Charges the weight of the tuple of a row.
fn charge_row(
    columns: &[Value],
    place: u128,
    machine: &Machine,
    meter: &mut Meter,
) -> Result<(), Failure>
    requires columns { AllFit machine.now columns.now }
    requires within { HasRow machine.now.state place columns.now }
    ensures { charged meter.old.left (weight (value.Tuple (row_of machine.now.state place columns.now))) ≡ (result, meter.new.left) }
{
    meter.charge(1)?;
    for column in columns {
        charge_at(column, place, machine, meter)?;
    }
    Ok(())
}

/// The items of a row. Charge them first.
fn row_at(
    alloc: Global,
    columns: &[Value],
    place: u128,
    machine: &Machine,
) -> Result<Values, NoMemory>
    requires columns { AllFit machine.now columns.now }
    requires held { IsTrue (all_in is_proper machine.now.state) }
    requires within { HasRow machine.now.state place columns.now }
    ensures { IfOk result (λ row. row ≡ row_of machine.now.state place columns.now) }
{
    let mut row = Vec::new(alloc);
    for column in columns {
        row.push(item(alloc, column, place, machine)?)?;
    }
    Ok(Items::from_vec(row))
}
