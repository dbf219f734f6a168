//! Whether one value holds another.
ghost use Rattle.std.specs.Prelude.{◌≡◌, ℕ, IsTrue, slice_get};
ghost use Rattle.std.specs.List.{list_all};
ghost use Rattle.star_builtins.specs.Reached.{Answers, store};
ghost use Rattle.star_builtins.specs.Weighing.{on_step};
ghost use Rattle.star_meaning.specs.Comparing as spec;
ghost use Rattle.star_meaning.specs.Steps.{Gives, Store};
ghost use Rattle.star_meaning.specs.State.{State};
ghost use Rattle.star_meaning.specs.Validity.{fits, is_dict};
ghost use Rattle.star_meaning.specs.Values as values;
ghost use Rattle.star_value.specs.declared.value.Value.TheVariants as value;

use crate::charges::charge_weight;
use crate::order::equal;
use crate::parts::{int_of, text_of};
use chex_base::{ObjectId, Text};
use heap_store::Machine;
use star_value::{Failure, Key, Meter, Range, Stop, Value, find};
use std::alloc::Global;

/// Whether a value is an item of a list or a tuple, a key of a dict, an integer of a range or a
/// text in a text. It takes memory only for a key.
#[tactic(auto, using(crate::proofs::Ordered::memberships, crate::proofs::Held::references))]
pub fn within(
    alloc: Global,
    wanted: &Value,
    of: &Value,
    machine: &Machine,
    meter: &mut Meter,
) -> Result<bool, Stop>
    requires wanted { IsTrue (fits machine.now.state.objects wanted.now) }
    requires of { IsTrue (fits machine.now.state.objects of.now) }
    ensures { Gives (spec.within wanted.now of.now (store machine.now meter.old.left)) result (store machine.now meter.new.left) }
{
    match of {
        Value::List(id) => Ok(within_items(wanted, machine.list(*id), machine, meter)?),
        Value::Tuple(items) => Ok(within_items(wanted, items.as_slice(), machine, meter)?),
        Value::Dict(id) => within_dict(alloc, wanted, *id, machine, meter),
        Value::Range(range) => Ok(within_range(wanted, range)?),
        Value::Text(text) => Ok(within_text(wanted, text, meter)?),
        Value::None => Err(Stop::Failure(Failure::WrongType)),
        Value::Bool(_) => Err(Stop::Failure(Failure::WrongType)),
        Value::Int(_) => Err(Stop::Failure(Failure::WrongType)),
        Value::Function(_) => Err(Stop::Failure(Failure::WrongType)),
        Value::Builtin(_) => Err(Stop::Failure(Failure::WrongType)),
    }
}

/// The place of the first item that is equal to a value, if there is one.
#[tactic(auto, using(crate::proofs::Ordered::searches, crate::proofs::Held::references))]
pub fn search_in(
    wanted: &Value,
    items: &[Value],
    machine: &Machine,
    meter: &mut Meter,
) -> Result<Option<usize>, Failure>
    requires wanted { IsTrue (fits machine.now.state.objects wanted.now) }
    requires items { IsTrue (list_all (fits machine.now.state.objects) items.now) }
    ensures { Answers (spec.search_in wanted.now items.now (store machine.now meter.old.left)) result (store machine.now meter.new.left) }
{
    for (place, item) in items.iter().enumerate() {
        if equal(wanted, item, machine, meter)? {
            return Ok(Some(place));
        }
    }
    Ok(None)
}

fn within_items(
    wanted: &Value,
    items: &[Value],
    machine: &Machine,
    meter: &mut Meter,
) -> Result<bool, Failure>
    requires wanted { IsTrue (fits machine.now.state.objects wanted.now) }
    requires items { IsTrue (list_all (fits machine.now.state.objects) items.now) }
    ensures { Answers (spec.within_list wanted.now items.now (store machine.now meter.old.left)) result (store machine.now meter.new.left) }
{
    let place = search_in(wanted, items, machine, meter)?;
    Ok(place.is_some())
}

#[tactic(auto, using(crate::proofs::Written::charge_is))]
fn within_dict(
    alloc: Global,
    wanted: &Value,
    id: ObjectId,
    machine: &Machine,
    meter: &mut Meter,
) -> Result<bool, Stop>
    requires { IsTrue (is_dict (slice_get machine.now.state.objects id)) }
    ensures { Gives (spec.within_dict wanted.now id (store machine.now meter.old.left)) result (store machine.now meter.new.left) }
{
    let key = Key::of(alloc, wanted)?;
    charge_weight(wanted, meter)?;
    Ok(machine.dict_get(id, &key).is_some())
}

#[tactic(auto, using(crate::proofs::Ordered::memberships))]
fn within_range(wanted: &Value, range: &Range) -> Result<bool, Failure>
    ensures { (s : Store ℕ) → Answers (spec.within wanted.now (value.Range range.now) s) result s }
{
    match int_of(wanted) {
        Some(number) => Ok(range_gives(range, number)),
        None => Err(Failure::WrongType),
    }
}

#[tactic(auto, using(crate::proofs::Ordered::memberships, crate::proofs::Written::charge_is))]
fn within_text(wanted: &Value, text: &Text, meter: &mut Meter) -> Result<bool, Failure>
    ensures { (s : State ℕ) → Answers (spec.within wanted.now (value.Text text.now) (record { state = s; left = meter.old.left })) result (record { state = s; left = meter.new.left }) }
{
    match text_of(wanted) {
        Some(part) => {
            meter.charge(part.len() as u64 + text.len() as u64)?;
            Ok(find(text, part).is_some())
        }
        None => Err(Failure::WrongType),
    }
}

/// Whether a range gives an integer.
#[tactic(auto, using(crate::proofs::Ordered::gives))]
fn range_gives(range: &Range, number: i128) -> bool
    ensures { result ≡ values.range_gives range.now number }
{
    if range.step > 0 {
        if number < range.start {
            false
        } else {
            is_on_step(range, number)
        }
    } else if range.start < number {
        false
    } else {
        is_on_step(range, number)
    }
}

/// Whether an integer that lies on the side of a range's stop is at a whole number of steps from
/// the start, and that is a place of the range.
#[tactic(auto, unfolding(crate::specs::Weighing::on_step))]
fn is_on_step(range: &Range, number: i128) -> bool
    ensures { result ≡ on_step range.now number }
{
    let step = range.step.unsigned_abs();
    if step == 0 {
        return false;
    }
    let distance = number.abs_diff(range.start);
    distance % step == 0 && distance / step < range.len()
}
