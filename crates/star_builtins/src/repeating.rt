//! `*` on two integers, or on an integer and a text, tuple or list.
ghost use Rattle.std.specs.List.{repeat};
ghost use Rattle.std.specs.Prelude.{◌≡◌, ◌<◌, ◌++◌, ◌*◌, ◌*ℤ◌, ℕ, true, IsTrue, IfOk, slice_get};
ghost use Rattle.star_builtins.specs.Reached.{Fits, Follows, GivesWeighed, HasRoom, store};
ghost use Rattle.star_builtins.specs.Taken.{GivesCharged};
ghost use Rattle.star_meaning.specs.Operators as spec;
ghost use Rattle.star_meaning.specs.State.{State};
ghost use Rattle.star_meaning.specs.Steps.{Gives, Store, pure};
ghost use Rattle.star_meaning.specs.Validity.{MachineState, all_in, is_list, is_proper};
ghost use Rattle.star_meaning.specs.Values as values;
ghost use Rattle.star_value.specs.Charge.{charged};
ghost use Rattle.star_value.specs.Weight.{sum_of_weights};
ghost use Rattle.star_value.specs.declared.value.Value.TheOpen.{Value-F};
ghost use Rattle.star_value.specs.declared.value.Value.TheVariants as value;
ghost use Rattle.star_value.specs.declared.value.Value.{out-Value};

use crate::{charges, integers, lists, texts};
use chex_base::{NoMemory, ObjectId, Text};
use heap_store::Machine;
use sqlite_items::Items;
use star_value::{Failure, Meter, Stop, Value, Values, copy_values, sum_of_weights};
use std::alloc::Global;

/// The product of two integers, or a text, tuple or list so many times as an integer on the other
/// side says, which is no time below 1. A new list charges the weights of its items before they are
/// copied. A text or tuple whose weight passes what is left is not made: the call then fails with
/// StepLimit, as the charge of its weight would.
#[tactic(auto, using(crate::proofs::FitLemmas::held, crate::proofs::WeighedLemmas::weighing))]
pub fn multiply(
    alloc: Global,
    left: &Value,
    right: &Value,
    machine: &mut Machine,
    meter: &mut Meter,
) -> Result<Value, Stop>
    requires left { Fits machine.old left.now }
    requires right { Fits machine.old right.now }
    requires held { IsTrue (all_in is_proper machine.old.state) }
    requires room { HasRoom machine.old }
    ensures gives { GivesWeighed (spec.multiply_at (out-Value left.now) (out-Value right.now) (store machine.old meter.old.left)) result (store machine.new meter.new.left) }
    ensures fits { IfOk result (λ v. Fits machine.new v) }
    ensures follows { Follows machine.old machine.new }
{
    match (left, right) {
        (Value::Int(number), other) => repeated(alloc, other, number, machine, meter),
        (Value::Text(text), Value::Int(number)) => times_text(alloc, text, number, meter),
        (Value::Tuple(items), Value::Int(number)) => times_tuple(alloc, items, number, meter),
        (Value::List(id), Value::Int(number)) => times_list(alloc, *id, number, machine, meter),
        _ => Err(Stop::Failure(Failure::WrongType)),
    }
}

/// An integer on the left.
#[tactic(auto, using(crate::proofs::FitLemmas::held, crate::proofs::WeighedLemmas::weighing))]
fn repeated(
    alloc: Global,
    of: &Value,
    number: &i128,
    machine: &mut Machine,
    meter: &mut Meter,
) -> Result<Value, Stop>
    requires of { Fits machine.old of.now }
    requires held { IsTrue (all_in is_proper machine.old.state) }
    requires room { HasRoom machine.old }
    ensures gives { GivesWeighed (spec.multiply_at (Value-F.Int number.now) (out-Value of.now) (store machine.old meter.old.left)) result (store machine.new meter.new.left) }
    ensures fits { IfOk result (λ v. Fits machine.new v) }
    ensures follows { Follows machine.old machine.new }
{
    match of {
        Value::Int(other) => times_int(number, other),
        Value::Text(text) => times_text(alloc, text, number, meter),
        Value::Tuple(items) => times_tuple(alloc, items, number, meter),
        Value::List(id) => times_list(alloc, *id, number, machine, meter),
        _ => Err(Stop::Failure(Failure::WrongType)),
    }
}

fn times_int(left: &i128, right: &i128) -> Result<Value, Stop>
    ensures gives { (s : Store ℕ) → Gives (values.integer (left.now *ℤ right.now) s) result s }
    ensures fits { (m : MachineState) → IfOk result (λ v. Fits m v) }
{
    integers::as_result(integers::product(*left, *right))
}

#[tactic(auto, using(crate::proofs::WeighedLemmas::weighing))]
fn times_text(alloc: Global, text: &Text, number: &i128, meter: &mut Meter) -> Result<Value, Stop>
    ensures gives { (s : State ℕ) → GivesWeighed (pure (value.Text (repeat (values.times number.now) text.now)) (record { state = s; left = meter.old.left })) result (record { state = s; left = meter.new.left }) }
    ensures fits { (m : MachineState) → IfOk result (λ v. Fits m v) }
{
    let count = times(*number);
    if passes(count, text.len() as u64, meter.left) {
        meter.left = 0;
        return Err(Stop::Failure(Failure::StepLimit));
    }
    Ok(texts::value_of(repeated_text(alloc, text, count)?))
}

#[tactic(auto, using(crate::proofs::WeighedLemmas::weighing))]
fn times_tuple(
    alloc: Global,
    items: &Values,
    number: &i128,
    meter: &mut Meter,
) -> Result<Value, Stop>
    ensures gives { (s : State ℕ) → GivesWeighed (pure (value.Tuple (repeat (values.times number.now) items.now)) (record { state = s; left = meter.old.left })) result (record { state = s; left = meter.new.left }) }
    ensures fits { (m : MachineState) → Fits m (value.Tuple items.now) → IfOk result (λ v. Fits m v) }
{
    let items = items.as_slice();
    let count = times(*number);
    if passes(count, sum_of_weights(items), meter.left) {
        meter.left = 0;
        return Err(Stop::Failure(Failure::StepLimit));
    }
    let repeated = repeated_values(alloc, items, count)?;
    Ok(Value::Tuple(repeated))
}

/// Whether so many times a weight passes what is left.
fn passes(count: u128, weight: u64, left: u64) -> bool
    ensures { result ≡ true → left < count * weight }
{
    count.saturating_mul(weight as u128) > left as u128
}

fn times_list(
    alloc: Global,
    id: ObjectId,
    number: &i128,
    machine: &mut Machine,
    meter: &mut Meter,
) -> Result<Value, Stop>
    requires kind { IsTrue (is_list (slice_get machine.old.state.objects id)) }
    requires held { IsTrue (all_in is_proper machine.old.state) }
    requires room { HasRoom machine.old }
    ensures gives { Gives (spec.repeated_list number.now id (store machine.old meter.old.left)) result (store machine.new meter.new.left) }
    ensures fits { IfOk result (λ v. Fits machine.new v) }
    ensures follows { Follows machine.old machine.new }
{
    let repeated = charged_repeated(alloc, machine.list(id), number, meter)?;
    lists::new_list(repeated, machine)
}

/// Equal values to these, so many times, once their weights are charged.
fn charged_repeated(
    alloc: Global,
    items: &[Value],
    number: &i128,
    meter: &mut Meter,
) -> Result<Values, Stop>
    ensures charges { GivesCharged (charged meter.old.left (sum_of_weights (repeat (values.times number.now) items.now))) (repeat (values.times number.now) items.now) result meter.new.left }
{
    let count = times(*number);
    charge_repeated(items, count, meter)?;
    Ok(repeated_values(alloc, items, count)?)
}

/// How often something is repeated: an integer below 1 is no time.
fn times(number: i128) -> u128
    ensures { result ≡ values.times number }
{
    if number < 0 { 0 } else { number as u128 }
}

/// A text so many times. Nothing is walked where the text is empty.
fn repeated_text(alloc: Global, text: &Text, count: u128) -> Result<Text, NoMemory>
    ensures { IfOk result (λ repeated. repeated ≡ repeat count text.now) }
{
    let mut repeated = Text::new(alloc);
    if text.len() == 0 {
        return Ok(repeated);
    }
    for _time in 0..count {
        repeated.push_text(text)?;
    }
    Ok(repeated)
}

/// Equal values to these, so many times. Nothing is walked where there are none.
fn repeated_values(alloc: Global, items: &[Value], count: u128) -> Result<Values, NoMemory>
    ensures { IfOk result (λ repeated. repeated ≡ repeat count items.now) }
{
    let mut repeated = Items::new(alloc);
    if items.len() == 0 {
        return Ok(repeated);
    }
    for _time in 0..count {
        repeated.append(copy_values(alloc, items)?)?;
    }
    Ok(repeated)
}

/// Charges the weights of these values, so many times. Nothing is walked where there are none.
fn charge_repeated(items: &[Value], count: u128, meter: &mut Meter) -> Result<(), Failure>
    ensures { charged meter.old.left (sum_of_weights (repeat count items.now)) ≡ (result, meter.new.left) }
{
    if items.len() == 0 {
        return meter.charge(0);
    }
    for _time in 0..count {
        charges::charge_items(items, meter)?;
    }
    Ok(())
}
