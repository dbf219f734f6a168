//! `all` and `any`. Every item is charged, and none is copied.
ghost use Rattle.std.specs.Bool.{beq};
ghost use Rattle.std.specs.List.{list_all, list_any};
ghost use Rattle.std.specs.Prelude.{◌≡◌, ◌<◌, ℕ, IfOk, Some, length, option_map, slice_get};
ghost use Rattle.star_builtins.specs.Reached.{Answers, Fits, store};
ghost use Rattle.star_builtins.specs.Walks.{given};
ghost use Rattle.star_meaning.specs.Builtins as spec;
ghost use Rattle.star_meaning.specs.State.{State};
ghost use Rattle.star_meaning.specs.Values as values;
ghost use Rattle.star_value.specs.Keys.{value_of};

use crate::integers::is_zero;
use crate::truths::{self, is_true};
use crate::walks::{charge_iterated, count_of, item_of, key_of};
use heap_store::Machine;
use star_value::{Failure, Key, Meter, Value};

/// `all(x)`: whether all items that a value gives count as true, once the weights of all of them
/// are charged. A value that gives nothing is WrongType. It takes no memory.
pub fn all(of: &Value, machine: &Machine, meter: &mut Meter) -> Result<Value, Failure>
    requires { Fits machine.now of.now }
    ensures gives { Answers (spec.tested list_all of.now (store machine.now meter.old.left)) result (store machine.now meter.new.left) }
    ensures fits { IfOk result (λ v. Fits machine.now v) }
{
    let count = count_of(of, machine)?;
    charge_iterated(of, count, machine, meter)?;
    Ok(truths::value_of(!gives_truth(of, count, false, machine)))
}

/// `any(x)`: whether an item that a value gives counts as true, once the weights of all of them are
/// charged. A value that gives nothing is WrongType. It takes no memory.
pub fn any(of: &Value, machine: &Machine, meter: &mut Meter) -> Result<Value, Failure>
    requires { Fits machine.now of.now }
    ensures gives { Answers (spec.tested list_any of.now (store machine.now meter.old.left)) result (store machine.now meter.new.left) }
    ensures fits { IfOk result (λ v. Fits machine.now v) }
{
    let count = count_of(of, machine)?;
    charge_iterated(of, count, machine, meter)?;
    Ok(truths::value_of(gives_truth(of, count, true, machine)))
}

/// Whether one of the items that a value gives, of which there are so many, has this truth.
fn gives_truth(of: &Value, count: u128, truth: bool, machine: &Machine) -> bool
    requires of { Fits machine.now of.now }
    requires count { length (given machine.now.state of.now) ≡ count }
    ensures { result ≡ list_any (λ v. beq (values.is_true machine.now.state v) truth) (given machine.now.state of.now) }
{
    for place in 0..count {
        if is_true_at(of, place, machine) == truth {
            return true;
        }
    }
    false
}

/// Whether the item that a value gives at a place counts as true.
#[tactic(auto, using(crate::proofs::WalkLemmas::weights))]
fn is_true_at(of: &Value, place: u128, machine: &Machine) -> bool
    requires of { Fits machine.now of.now }
    requires within { place < length (given machine.now.state of.now) }
    ensures { option_map (values.is_true machine.now.state) (slice_get (given machine.now.state of.now) place) ≡ Some result }
{
    match of {
        Value::Tuple(items) => is_true(item_of(items.as_slice(), place), machine),
        Value::Range(range) => !is_zero(range.item(place)),
        Value::List(id) => is_true(item_of(machine.list(*id), place), machine),
        Value::Dict(id) => is_true_key(key_of(*id, place, machine)),
        _ => unreachable!(),
    }
}

/// Whether the value that a key is counts as true.
#[tactic(auto, using(crate::proofs::Sequences::key_truths))]
fn is_true_key(key: &Key) -> bool
    ensures { (s : State ℕ) → values.is_true s (value_of key.now) ≡ result }
{
    match key {
        Key::None => false,
        Key::Bool(truth) => *truth,
        Key::Int(number) => !is_zero(*number),
        Key::Text(text) => text.len() != 0,
        Key::Tuple(parts) => parts.len() != 0,
    }
}
