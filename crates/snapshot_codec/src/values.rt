//! Reads values from the front of bytes. `met` is how many different objects were met before.
ghost use Rattle.std.specs.Prelude.{◌≡◌, []};
ghost use Rattle.star_meaning.specs.Values as values;
ghost use Rattle.snapshot_codec.specs.Reading.{Gives, reference_at, int_at, text_value_at, range_at, list_at, dict_at, function_at, builtin_at, tuple_at, value_at, whole_value_at, values_at, many_at};

use crate::SnapFault;
use crate::fields::{builtin_of, byte_at, count_at, id_at, integer_at, tag_at, text_at};
use crate::stop::Stop;
use crate::tag::Tag;
use chex_base::ObjectId;
use sqlite_items::Items;
use star_value::{Range, Value, Values};
use std::alloc::Global;

/// How deep tuples may nest in a value.
const DEEPEST: u32 = 64;

/// The number of an object, and how many different ones were met then.
#[tactic(auto, unfolding(crate::specs::Reading::reference_at))]
fn reference_at(met: u64, bytes: &[u8]) -> Result<(u32, u64, &[u8]), Stop>
    ensures { Gives (λ x. (x.0, x.1, x.2.now)) result (reference_at met bytes.now) }
{
    let (id, rest) = id_at(bytes)?;
    let number = u64::from(id);
    if number < met {
        return Ok((id, met, rest));
    }
    if number == met {
        return Ok((id, met + 1, rest));
    }
    Err(Stop::Fault(SnapFault::BadOrder))
}

#[tactic(auto, unfolding(crate::specs::Reading::int_at))]
fn int_at(met: u64, bytes: &[u8]) -> Result<(Value, u64, &[u8]), Stop>
    ensures { Gives (λ x. (x.0, x.1, x.2.now)) result (int_at met bytes.now) }
{
    let (number, rest) = integer_at(bytes)?;
    Ok((Value::Int(number), met, rest))
}

#[tactic(auto, unfolding(crate::specs::Reading::text_value_at))]
fn text_value_at(alloc: Global, met: u64, bytes: &[u8]) -> Result<(Value, u64, &[u8]), Stop>
    ensures { Gives (λ x. (x.0, x.1, x.2.now)) result (text_value_at met bytes.now) }
{
    let (text, rest) = text_at(alloc, bytes)?;
    Ok((Value::Text(text), met, rest))
}

#[tactic(auto, unfolding(crate::specs::Reading::range_at))]
fn range_at(met: u64, bytes: &[u8]) -> Result<(Value, u64, &[u8]), Stop>
    ensures { Gives (λ x. (x.0, x.1, x.2.now)) result (range_at met bytes.now) }
{
    let (start, rest) = integer_at(bytes)?;
    let (stop, rest) = integer_at(rest)?;
    let (step, rest) = integer_at(rest)?;
    if is_zero(step) {
        return Err(Stop::Fault(SnapFault::BadRule));
    }
    Ok((Value::Range(Range { start, stop, step }), met, rest))
}

fn is_zero(number: i128) -> bool
    ensures { result ≡ values.is_zero number }
{
    number == 0
}

#[tactic(auto, unfolding(crate::specs::Reading::list_at))]
fn list_at(met: u64, bytes: &[u8]) -> Result<(Value, u64, &[u8]), Stop>
    ensures { Gives (λ x. (x.0, x.1, x.2.now)) result (list_at met bytes.now) }
{
    let (id, met, rest) = reference_at(met, bytes)?;
    Ok((Value::List(ObjectId(id)), met, rest))
}

#[tactic(auto, unfolding(crate::specs::Reading::dict_at))]
fn dict_at(met: u64, bytes: &[u8]) -> Result<(Value, u64, &[u8]), Stop>
    ensures { Gives (λ x. (x.0, x.1, x.2.now)) result (dict_at met bytes.now) }
{
    let (id, met, rest) = reference_at(met, bytes)?;
    Ok((Value::Dict(ObjectId(id)), met, rest))
}

#[tactic(auto, unfolding(crate::specs::Reading::function_at))]
fn function_at(met: u64, bytes: &[u8]) -> Result<(Value, u64, &[u8]), Stop>
    ensures { Gives (λ x. (x.0, x.1, x.2.now)) result (function_at met bytes.now) }
{
    let (id, met, rest) = reference_at(met, bytes)?;
    Ok((Value::Function(ObjectId(id)), met, rest))
}

#[tactic(auto, unfolding(crate::specs::Reading::builtin_at))]
fn builtin_at(met: u64, bytes: &[u8]) -> Result<(Value, u64, &[u8]), Stop>
    ensures { Gives (λ x. (x.0, x.1, x.2.now)) result (builtin_at met bytes.now) }
{
    let (byte, rest) = byte_at(bytes)?;
    match builtin_of(byte) {
        Some(which) => Ok((Value::Builtin(which), met, rest)),
        None => Err(Stop::Fault(SnapFault::BadTag)),
    }
}

/// A value whose tuples nest no deeper than `room`. The stack grows with `room` alone.
#[cycle(value)]
#[tactic(auto, using(crate::proofs::ReadingSteps::by_tag, crate::proofs::ReadingSteps::no_tag))]
fn value_at(alloc: Global, room: u32, met: u64, bytes: &[u8]) -> Result<(Value, u64, &[u8]), Stop>
    ensures { Gives (λ x. (x.0, x.1, x.2.now)) result (value_at room met bytes.now) }
{
    let (tag, rest) = tag_at(bytes)?;
    match tag {
        Tag::None => Ok((Value::None, met, rest)),
        Tag::False => Ok((Value::Bool(false), met, rest)),
        Tag::True => Ok((Value::Bool(true), met, rest)),
        Tag::Int => int_at(met, rest),
        Tag::Text => text_value_at(alloc, met, rest),
        Tag::Tuple => tuple_at(alloc, room, met, rest),
        Tag::Range => range_at(met, rest),
        Tag::List => list_at(met, rest),
        Tag::Dict => dict_at(met, rest),
        Tag::Function => function_at(met, rest),
        Tag::Builtin => builtin_at(met, rest),
    }
}

#[cycle(value)]
fn tuple_at(alloc: Global, room: u32, met: u64, bytes: &[u8]) -> Result<(Value, u64, &[u8]), Stop>
    ensures { Gives (λ x. (x.0, x.1, x.2.now)) result (tuple_at room met bytes.now) }
{
    if room == 0 {
        return Err(Stop::Fault(SnapFault::BadRule));
    }
    let (count, rest) = count_at(bytes)?;
    let (items, met, rest) = items_at(alloc, room - 1, count, met, rest)?;
    Ok((Value::Tuple(items), met, rest))
}

/// So many values. Their count is not trusted for room: memory is taken for those that are read.
#[cycle(value)]
fn items_at(
    alloc: Global,
    room: u32,
    count: u64,
    before: u64,
    bytes: &[u8],
) -> Result<(Values, u64, &[u8]), Stop>
    ensures { Gives (λ x. (x.0, x.1, x.2.now)) result (many_at (λ front. value_at room) count [] before bytes.now) }
{
    let mut items = Items::new(alloc);
    let mut met = before;
    let mut rest = bytes;
    for _ in 0..count {
        let (item, now, after) = value_at(alloc, room, met, rest)?;
        items.push(item)?;
        met = now;
        rest = after;
    }
    Ok((items, met, rest))
}

/// A value of a machine.
#[tactic(auto, unfolding(crate::specs::Reading::whole_value_at))]
pub fn whole_value_at(alloc: Global, met: u64, bytes: &[u8]) -> Result<(Value, u64, &[u8]), Stop>
    ensures { Gives (λ x. (x.0, x.1, x.2.now)) result (whole_value_at met bytes.now) }
{
    value_at(alloc, DEEPEST, met, bytes)
}

/// A count, and so many values of a machine.
#[tactic(auto, unfolding(crate::specs::Reading::values_at, crate::specs::Reading::whole_value_at))]
pub fn values_at(alloc: Global, met: u64, bytes: &[u8]) -> Result<(Values, u64, &[u8]), Stop>
    ensures { Gives (λ x. (x.0, x.1, x.2.now)) result (values_at met bytes.now) }
{
    let (count, rest) = count_at(bytes)?;
    items_at(alloc, DEEPEST, count, met, rest)
}
