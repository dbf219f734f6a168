//! `+` on two integers, texts, tuples or lists.
ghost use Rattle.std.specs.Prelude.{◌≡◌, ◌++◌, ℕ, IsTrue, IfOk, slice_get};
ghost use Rattle.star_builtins.specs.Reached.{Fits, Follows, HasRoom, store};
ghost use Rattle.star_builtins.specs.Taken.{GivesCharged};
ghost use Rattle.star_meaning.specs.Operators as spec;
ghost use Rattle.star_meaning.specs.Steps.{Gives, Store};
ghost use Rattle.star_meaning.specs.Validity.{MachineState, all_in, is_list, is_proper};
ghost use Rattle.star_value.specs.Charge.{charged};
ghost use Rattle.star_value.specs.Weight.{sum_of_weights};
ghost use Rattle.star_value.specs.declared.value.Value.TheOpen.{Value-F};
ghost use Rattle.star_value.specs.declared.value.Value.TheVariants as value;
ghost use Rattle.star_value.specs.declared.value.Value.{out-Value};

use crate::{charges, integers, lists, texts};
use chex_base::{NoMemory, ObjectId, Text};
use heap_store::Machine;
use star_value::{Failure, Meter, Stop, Value, Values, copy_values};
use std::alloc::Global;

/// The sum of two integers, or one text, tuple or list after the other. A text or tuple on the left
/// is extended in its place; a new list charges the weights of its items before they are copied.
#[tactic(auto, using(crate::proofs::FitLemmas::held))]
pub fn add(
    alloc: Global,
    left: Value,
    right: Value,
    machine: &mut Machine,
    meter: &mut Meter,
) -> Result<Value, Stop>
    requires left { Fits machine.old left }
    requires right { Fits machine.old right }
    requires held { IsTrue (all_in is_proper machine.old.state) }
    requires room { HasRoom machine.old }
    ensures gives { Gives (spec.add_at (out-Value left) (out-Value right) (store machine.old meter.old.left)) result (store machine.new meter.new.left) }
    ensures fits { IfOk result (λ v. Fits machine.new v) }
    ensures follows { Follows machine.old machine.new }
{
    match left {
        Value::Int(number) => add_int(number, &right),
        Value::Text(text) => add_text(text, &right),
        Value::Tuple(items) => add_tuple(items, right),
        Value::List(id) => add_list(alloc, id, &right, machine, meter),
        _ => Err(Stop::Failure(Failure::WrongType)),
    }
}

fn add_int(left: i128, right: &Value) -> Result<Value, Stop>
    ensures gives { (s : Store ℕ) → Gives (spec.add_at (Value-F.Int left) (out-Value right.now) s) result s }
    ensures fits { (m : MachineState) → IfOk result (λ v. Fits m v) }
{
    match right {
        Value::Int(right) => integers::as_result(integers::sum(left, *right)),
        _ => Err(Stop::Failure(Failure::WrongType)),
    }
}

fn add_text(left: Text, right: &Value) -> Result<Value, Stop>
    ensures gives { (s : Store ℕ) → Gives (spec.add_at (Value-F.Text left) (out-Value right.now) s) result s }
    ensures fits { (m : MachineState) → IfOk result (λ v. Fits m v) }
{
    match right {
        Value::Text(right) => Ok(texts::value_of(joined_text(left, right)?)),
        _ => Err(Stop::Failure(Failure::WrongType)),
    }
}

fn joined_text(mut left: Text, right: &Text) -> Result<Text, NoMemory>
    ensures { IfOk result (λ joined. joined ≡ left ++ right.now) }
{
    left.push_text(right)?;
    Ok(left)
}

#[tactic(auto, using(crate::proofs::PartLemmas::joined_fits))]
fn add_tuple(left: Values, right: Value) -> Result<Value, Stop>
    ensures gives { (s : Store ℕ) → Gives (spec.add_at (Value-F.Tuple left) (out-Value right) s) result s }
    ensures fits { (m : MachineState) → Fits m (value.Tuple left) → Fits m right → IfOk result (λ v. Fits m v) }
{
    match right {
        Value::Tuple(right) => Ok(Value::Tuple(joined_items(left, right)?)),
        _ => Err(Stop::Failure(Failure::WrongType)),
    }
}

fn joined_items(mut left: Values, right: Values) -> Result<Values, NoMemory>
    ensures { IfOk result (λ joined. joined ≡ left ++ right) }
{
    left.append(right)?;
    Ok(left)
}

#[tactic(auto, using(crate::proofs::FitLemmas::held))]
fn add_list(
    alloc: Global,
    left: ObjectId,
    right: &Value,
    machine: &mut Machine,
    meter: &mut Meter,
) -> Result<Value, Stop>
    requires left { IsTrue (is_list (slice_get machine.old.state.objects left)) }
    requires right { Fits machine.old right.now }
    requires held { IsTrue (all_in is_proper machine.old.state) }
    requires room { HasRoom machine.old }
    ensures gives { Gives (spec.add_at (Value-F.List left) (out-Value right.now) (store machine.old meter.old.left)) result (store machine.new meter.new.left) }
    ensures fits { IfOk result (λ v. Fits machine.new v) }
    ensures follows { Follows machine.old machine.new }
{
    match right {
        Value::List(right) => join_lists(alloc, left, *right, machine, meter),
        _ => Err(Stop::Failure(Failure::WrongType)),
    }
}

fn join_lists(
    alloc: Global,
    left: ObjectId,
    right: ObjectId,
    machine: &mut Machine,
    meter: &mut Meter,
) -> Result<Value, Stop>
    requires left { IsTrue (is_list (slice_get machine.old.state.objects left)) }
    requires right { IsTrue (is_list (slice_get machine.old.state.objects right)) }
    requires held { IsTrue (all_in is_proper machine.old.state) }
    requires room { HasRoom machine.old }
    ensures gives { Gives (spec.joined_lists left right (store machine.old meter.old.left)) result (store machine.new meter.new.left) }
    ensures fits { IfOk result (λ v. Fits machine.new v) }
    ensures follows { Follows machine.old machine.new }
{
    let joined = charged_both(alloc, machine.list(left), machine.list(right), meter)?;
    lists::new_list(joined, machine)
}

/// Equal values to these, once their weights are charged.
fn charged_both(
    alloc: Global,
    left: &[Value],
    right: &[Value],
    meter: &mut Meter,
) -> Result<Values, Stop>
    ensures charges { GivesCharged (charged meter.old.left (sum_of_weights (left.now ++ right.now))) (left.now ++ right.now) result meter.new.left }
{
    charge_both(left, right, meter)?;
    Ok(copy_both(alloc, left, right)?)
}

#[tactic(auto, using(crate::proofs::PartLemmas::charges_of_both))]
fn charge_both(left: &[Value], right: &[Value], meter: &mut Meter) -> Result<(), Failure>
    ensures { charged meter.old.left (sum_of_weights (left.now ++ right.now)) ≡ (result, meter.new.left) }
{
    charges::charge_items(left, meter)?;
    charges::charge_items(right, meter)
}

fn copy_both(alloc: Global, left: &[Value], right: &[Value]) -> Result<Values, NoMemory>
    ensures { IfOk result (λ copies. copies ≡ left.now ++ right.now) }
{
    joined_items(copy_values(alloc, left)?, copy_values(alloc, right)?)
}
