//! A part of a list, tuple or text.
ghost use Rattle.std.specs.Prelude.{unwrap_or, ◌≡◌, ◌+ℤ◌, ◌-ℤ◌, ◌<◌, ◌≤ℤ◌, if◌then◌else◌, int_lt, ℕ, pos, IsTrue, IfOk, length, slice_get};
ghost use Rattle.std.specs.List.{filter_map};
ghost use Rattle.std.specs.Option.{option_copied};
ghost use Rattle.star_builtins.specs.Reached.{Fits, Follows, HasRoom, store};
ghost use Rattle.star_builtins.specs.Taken.{GivesCharged};
ghost use Rattle.star_meaning.specs.Operators as spec;
ghost use Rattle.star_meaning.specs.Steps.{Gives, Store};
ghost use Rattle.star_meaning.specs.Validity.{MachineState, all_in, is_list, is_proper};
ghost use Rattle.star_meaning.specs.Values as values;
ghost use Rattle.star_meaning.specs.Values.{integers_of};
ghost use Rattle.star_value.specs.Charge.{charged};
ghost use Rattle.star_value.specs.Ranges.{range_count};
ghost use Rattle.star_value.specs.Weight.{sum_of_weights};
ghost use Rattle.star_value.specs.declared.value.Value.{out-Value};
ghost use Rattle.star_value.specs.declared.value.Value.TheOpen.{Value-F};
ghost use Rattle.star_value.specs.declared.value.Value.TheVariants as value;

use crate::{Bounds, charges, integers, lists, places, texts};
use chex_base::{NoMemory, ObjectId, Text};
use heap_store::Machine;
use sqlite_items::Items;
use star_value::{Failure, Meter, Range, Stop, Value, Values};
use std::alloc::Global;

/// What `of[start:stop:step]` is: a list, tuple or text of the items at the places that the bounds
/// name. A new list charges the weights of its items before any of them is copied. Another value,
/// and a bound that is no integer, is WrongType; the step 0 is ZeroDivisor.
///
/// It takes time linear in the result, and for a text linear in the text.
#[tactic(auto, unfolding(star_meaning::specs::Operators::slice))]
pub fn slice(
    alloc: Global,
    of: &Value,
    bounds: &Bounds,
    machine: &mut Machine,
    meter: &mut Meter,
) -> Result<Value, Stop>
    requires of { Fits machine.old of.now }
    requires held { IsTrue (all_in is_proper machine.old.state) }
    requires room { HasRoom machine.old }
    ensures gives { Gives (spec.slice of.now (record { start = bounds.now.start; stop = bounds.now.stop; step = bounds.now.step }) (store machine.old meter.old.left)) result (store machine.new meter.new.left) }
    ensures fits { IfOk result (λ v. Fits machine.new v) }
    ensures follows { Follows machine.old machine.new }
{
    if !is_sliced(of) {
        return Err(Stop::Failure(Failure::WrongType));
    }
    let Some(start) = bound(&bounds.start) else {
        return Err(Stop::Failure(Failure::WrongType));
    };
    let Some(stop) = bound(&bounds.stop) else {
        return Err(Stop::Failure(Failure::WrongType));
    };
    let Some(step) = bound(&bounds.step) else {
        return Err(Stop::Failure(Failure::WrongType));
    };
    stepped(alloc, of, start, stop, step_of(step), machine, meter)
}

fn step_of(step: Option<i128>) -> i128
    ensures { result ≡ unwrap_or step (pos 1) }
{
    match step {
        Some(step) => step,
        None => 1,
    }
}

fn stepped(
    alloc: Global,
    of: &Value,
    start: Option<i128>,
    stop: Option<i128>,
    step: i128,
    machine: &mut Machine,
    meter: &mut Meter,
) -> Result<Value, Stop>
    requires of { Fits machine.old of.now }
    requires held { IsTrue (all_in is_proper machine.old.state) }
    requires room { HasRoom machine.old }
    ensures gives { Gives (spec.stepped (out-Value of.now) start stop step (store machine.old meter.old.left)) result (store machine.new meter.new.left) }
    ensures fits { IfOk result (λ v. Fits machine.new v) }
    ensures follows { Follows machine.old machine.new }
{
    if integers::is_zero(step) {
        return Err(Stop::Failure(Failure::ZeroDivisor));
    }
    slice_at(alloc, of, start, stop, step, machine, meter)
}

#[tactic(auto, using(crate::proofs::FitLemmas::held))]
fn slice_at(
    alloc: Global,
    of: &Value,
    start: Option<i128>,
    stop: Option<i128>,
    step: i128,
    machine: &mut Machine,
    meter: &mut Meter,
) -> Result<Value, Stop>
    requires of { Fits machine.old of.now }
    requires held { IsTrue (all_in is_proper machine.old.state) }
    requires room { HasRoom machine.old }
    ensures gives { Gives (spec.slice_at (out-Value of.now) start stop step (store machine.old meter.old.left)) result (store machine.new meter.new.left) }
    ensures fits { IfOk result (λ v. Fits machine.new v) }
    ensures follows { Follows machine.old machine.new }
{
    match of {
        Value::List(id) => slice_list(alloc, *id, start, stop, step, machine, meter),
        Value::Tuple(items) => {
            let taken = taken_values(alloc, items.as_slice(), start, stop, step)?;
            Ok(Value::Tuple(taken))
        }
        Value::Text(text) => {
            let taken = taken_text(alloc, text, start, stop, step)?;
            Ok(texts::value_of(taken))
        }
        _ => Err(Stop::Failure(Failure::WrongType)),
    }
}

fn slice_list(
    alloc: Global,
    id: ObjectId,
    start: Option<i128>,
    stop: Option<i128>,
    step: i128,
    machine: &mut Machine,
    meter: &mut Meter,
) -> Result<Value, Stop>
    requires kind { IsTrue (is_list (slice_get machine.old.state.objects id)) }
    requires held { IsTrue (all_in is_proper machine.old.state) }
    requires room { HasRoom machine.old }
    ensures gives { Gives (spec.slice_at (Value-F.List id) start stop step (store machine.old meter.old.left)) result (store machine.new meter.new.left) }
    ensures fits { IfOk result (λ v. Fits machine.new v) }
    ensures follows { Follows machine.old machine.new }
{
    let taken = charged_values(alloc, machine.list(id), start, stop, step, meter)?;
    lists::new_list(taken, machine)
}

/// Equal values to those that a slice takes, once their weights are charged.
fn charged_values(
    alloc: Global,
    items: &[Value],
    start: Option<i128>,
    stop: Option<i128>,
    step: i128,
    meter: &mut Meter,
) -> Result<Values, Stop>
    ensures charges { GivesCharged (charged meter.old.left (sum_of_weights (spec.taken items.now start stop step))) (spec.taken items.now start stop step) result meter.new.left }
{
    charge_taken(items, start, stop, step, meter)?;
    Ok(taken_values(alloc, items, start, stop, step)?)
}

fn taken_text(
    alloc: Global,
    text: &Text,
    start: Option<i128>,
    stop: Option<i128>,
    step: i128,
) -> Result<Text, NoMemory>
    ensures { IfOk result (λ taken. taken ≡ spec.taken text.now start stop step) }
{
    let points = points(alloc, text)?;
    taken_points(alloc, &points, start, stop, step)
}

/// Charges the weights of the values that a slice takes.
#[tactic(auto, unfolding(star_meaning::specs::Operators::taken))]
fn charge_taken(
    items: &[Value],
    start: Option<i128>,
    stop: Option<i128>,
    step: i128,
    meter: &mut Meter,
) -> Result<(), Failure>
    ensures { charged meter.old.left (sum_of_weights (spec.taken items.now start stop step)) ≡ (result, meter.new.left) }
{
    let range = places_taken(items.len(), start, stop, step);
    charge_values_at(items, &range, meter)
}

/// Equal values to those that a slice takes.
#[tactic(auto, unfolding(star_meaning::specs::Operators::taken))]
fn taken_values(
    alloc: Global,
    items: &[Value],
    start: Option<i128>,
    stop: Option<i128>,
    step: i128,
) -> Result<Values, NoMemory>
    ensures { IfOk result (λ taken. taken ≡ spec.taken items.now start stop step) }
{
    let range = places_taken(items.len(), start, stop, step);
    values_at(alloc, items, &range)
}

/// The text of the code points that a slice takes.
#[tactic(auto, unfolding(star_meaning::specs::Operators::taken))]
fn taken_points(
    alloc: Global,
    points: &[char],
    start: Option<i128>,
    stop: Option<i128>,
    step: i128,
) -> Result<Text, NoMemory>
    ensures { IfOk result (λ taken. taken ≡ spec.taken points.now start stop step) }
{
    let range = places_taken(points.len(), start, stop, step);
    points_at(alloc, points, &range)
}

fn points(alloc: Global, text: &Text) -> Result<Vec<char>, NoMemory>
    ensures { IfOk result (λ points. points.items ≡ text.now) }
{
    Ok(text.as_str().chars().collect::<Vec<char>>(alloc)?)
}

/// A bound, which is absent or an integer, if it is of a right type.
fn bound(of: &Option<Value>) -> Option<Option<i128>>
    ensures { result ≡ spec.bound of.now }
{
    match of {
        None => Some(None),
        Some(Value::None) => Some(None),
        Some(Value::Int(number)) => Some(Some(*number)),
        _ => None,
    }
}

fn is_sliced(of: &Value) -> bool
    ensures { result ≡ spec.is_sliced (out-Value of.now) }
{
    match of {
        Value::List(_) => true,
        Value::Tuple(_) => true,
        Value::Text(_) => true,
        _ => false,
    }
}

fn bound_from(low: i128, high: i128, count: i128, bound: Option<i128>, otherwise: i128) -> i128
    requires { pos 0 ≤ℤ count }
    ensures { result ≡ spec.bound_from low high count bound otherwise }
{
    match bound {
        None => otherwise,
        Some(number) => clamped(low, high, counted(count, number)),
    }
}

/// An integer that counts from the end where it is negative, among so many.
pub fn counted(count: i128, number: i128) -> i128
    requires { pos 0 ≤ℤ count }
    ensures { result ≡ (if int_lt number (pos 0) then number +ℤ count else number) }
{
    if number < 0 { number + count } else { number }
}

/// An integer brought between two others.
pub fn clamped(low: i128, high: i128, number: i128) -> i128
    ensures { result ≡ values.clamped low high number }
{
    if number < low {
        low
    } else if high < number {
        high
    } else {
        number
    }
}

/// The places that a slice takes from so many items.
fn places_taken(count: usize, start: Option<i128>, stop: Option<i128>, step: i128) -> Range
    ensures { result ≡ spec.places_taken (pos count) start stop step }
{
    let count = count as i128;
    if step > 0 {
        Range {
            start: bound_from(0, count, count, start, 0),
            stop: bound_from(0, count, count, stop, count),
            step,
        }
    } else {
        let last = before(count);
        Range {
            start: bound_from(-1, last, count, start, last),
            stop: bound_from(-1, last, count, stop, -1),
            step,
        }
    }
}

fn before(count: i128) -> i128
    requires { pos 0 ≤ℤ count }
    ensures { result ≡ count -ℤ pos 1 }
{
    count - 1
}

/// The item whose place is the integer that a range gives at a place, if there is one.
fn given_item<'a, T>(items: &'a [T], range: &Range, place: u128) -> Option<&'a T>
    requires { place < range_count range.now }
    ensures { option_copied result ≡ spec.at_int items.now (values.range_item range.now place) }
{
    at_number(items, places::range_item(range, place))
}

/// The item at a place, if there is one.
fn at_number<T>(items: &[T], number: i128) -> Option<&T>
    ensures { option_copied result ≡ spec.at_int items.now number }
{
    if number < 0 || number >= items.len() as i128 {
        return None;
    }
    items.get(number as usize)
}

/// Equal values to those at the places of a range.
fn values_at(alloc: Global, items: &[Value], range: &Range) -> Result<Values, NoMemory>
    ensures { IfOk result (λ taken. taken ≡ filter_map (spec.at_int items.now) (integers_of range.now)) }
{
    let mut taken = Items::new(alloc);
    for place in 0..range.len() {
        let Some(item) = given_item(items, range, place) else {
            continue;
        };
        taken.push(item.copy(alloc)?)?;
    }
    Ok(taken)
}

/// The code points at the places of a range.
fn points_at(alloc: Global, points: &[char], range: &Range) -> Result<Text, NoMemory>
    ensures { IfOk result (λ taken. taken ≡ filter_map (spec.at_int points.now) (integers_of range.now)) }
{
    let mut taken = Vec::new(alloc);
    for place in 0..range.len() {
        let Some(point) = given_item(points, range, place) else {
            continue;
        };
        taken.push(*point)?;
    }
    Text::from_chars(alloc, &taken)
}

/// Charges the weights of the values at the places of a range.
fn charge_values_at(items: &[Value], range: &Range, meter: &mut Meter) -> Result<(), Failure>
    ensures { charged meter.old.left (sum_of_weights (filter_map (spec.at_int items.now) (integers_of range.now))) ≡ (result, meter.new.left) }
{
    for place in 0..range.len() {
        let Some(item) = given_item(items, range, place) else {
            continue;
        };
        charges::charge_weight(item, meter)?;
    }
    Ok(())
}
