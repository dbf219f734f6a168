//! An item by its place or its key.
ghost use Rattle.std.specs.Prelude.{◌≡◌, ℕ, IsTrue, IfOk, slice_get};
ghost use Rattle.std.specs.Str.{chars};
ghost use Rattle.star_builtins.specs.Reached.{AllFit, Fits, store};
ghost use Rattle.star_meaning.specs.Operators as spec;
ghost use Rattle.star_meaning.specs.Steps.{Gives, Store};
ghost use Rattle.star_value.specs.declared.value.Value.TheOpen.{Value-F};
ghost use Rattle.star_value.specs.declared.value.Value.TheVariants as value;
ghost use Rattle.star_meaning.specs.Validity.{MachineState, all_in, is_dict, is_proper};

use crate::{charges, integers, places, texts};
use chex_base::{ObjectId, Text};
use heap_store::Machine;
use star_value::{Failure, Key, Meter, Range, Stop, Value};
use std::alloc::Global;

/// What `of[at]` is: the item of a list, tuple, text or range at the place that an integer names,
/// or the value of a key in a dict, which charges the weight of the key. A place that is not there
/// is BadIndex, a key that is not there is NoKey, and every other pair of types is WrongType.
///
/// An item is copied; an integer of a range is computed.
#[tactic(auto, unfolding(star_meaning::specs::Operators::index), using(crate::proofs::FitLemmas::held))]
pub fn index(
    alloc: Global,
    of: &Value,
    at: &Value,
    machine: &Machine,
    meter: &mut Meter,
) -> Result<Value, Stop>
    requires of { Fits machine.now of.now }
    requires held { IsTrue (all_in is_proper machine.now.state) }
    ensures gives { Gives (spec.index of.now at.now (store machine.now meter.old.left)) result (store machine.now meter.new.left) }
    ensures fits { IfOk result (λ v. Fits machine.now v) }
{
    match (of, at) {
        (Value::Dict(id), _) => value_at_key(alloc, *id, at, machine, meter),
        (Value::List(id), Value::Int(number)) => item_at(alloc, machine.list(*id), *number),
        (Value::Tuple(items), Value::Int(number)) => item_at(alloc, items.as_slice(), *number),
        (Value::Text(text), Value::Int(number)) => point_at(alloc, text, *number),
        (Value::Range(range), Value::Int(number)) => range_item_at(range, *number),
        _ => Err(Stop::Failure(Failure::WrongType)),
    }
}

#[tactic(auto, using(crate::proofs::FitLemmas::item_fits))]
fn item_at(alloc: Global, items: &[Value], number: i128) -> Result<Value, Stop>
    ensures gives { (s : Store ℕ) → Gives (spec.item_at items.now number s) result s }
    ensures fits { (m : MachineState) → AllFit m items.now → IfOk result (λ v. Fits m v) }
{
    let Some(place) = places::place_of(number, items.len() as u128) else {
        return Err(Stop::Failure(Failure::BadIndex));
    };
    let Some(item) = items.get(place as usize) else {
        return Err(Stop::Failure(Failure::BadIndex));
    };
    Ok(item.copy(alloc)?)
}

/// A code point of a text as a text. It walks to the place.
fn point_at(alloc: Global, text: &Text, number: i128) -> Result<Value, Stop>
    ensures gives { (s : Store ℕ) → Gives (spec.index_at (Value-F.Text text.now) value.None (Value-F.Int number) s) result s }
    ensures fits { (m : MachineState) → IfOk result (λ v. Fits m v) }
{
    let Some(place) = places::place_of(number, text.len() as u128) else {
        return Err(Stop::Failure(Failure::BadIndex));
    };
    let Some(point) = nth_point(text, place as usize) else {
        return Err(Stop::Failure(Failure::BadIndex));
    };
    Ok(texts::value_of(Text::from_chars(alloc, &[point])?))
}

fn nth_point(text: &Text, place: usize) -> Option<char>
    ensures { result ≡ slice_get text.now place }
{
    nth_char(text.as_str(), place)
}

fn nth_char(text: &str, place: usize) -> Option<char>
    ensures { result ≡ slice_get (chars text.now) place }
{
    text.chars().nth(place)
}

fn range_item_at(range: &Range, number: i128) -> Result<Value, Stop>
    ensures gives { (s : Store ℕ) → Gives (spec.range_item_at range.now number s) result s }
    ensures fits { (m : MachineState) → IfOk result (λ v. Fits m v) }
{
    match places::place_of(number, range.len()) {
        Some(place) => Ok(integers::value_of(places::range_item(range, place))),
        None => Err(Stop::Failure(Failure::BadIndex)),
    }
}

#[tactic(auto, unfolding(star_meaning::specs::Steps::charge), using(crate::proofs::FitLemmas::dict_value))]
fn value_at_key(
    alloc: Global,
    id: ObjectId,
    at: &Value,
    machine: &Machine,
    meter: &mut Meter,
) -> Result<Value, Stop>
    requires kind { IsTrue (is_dict (slice_get machine.now.state.objects id)) }
    requires held { IsTrue (all_in is_proper machine.now.state) }
    ensures gives { Gives (spec.value_at_key id at.now (store machine.now meter.old.left)) result (store machine.now meter.new.left) }
    ensures fits { IfOk result (λ v. Fits machine.now v) }
{
    let key = Key::of(alloc, at)?;
    let Some(value) = machine.dict_get(id, &key) else {
        return Err(Stop::Failure(Failure::NoKey));
    };
    charges::charge_weight(at, meter)?;
    Ok(value.copy(alloc)?)
}
