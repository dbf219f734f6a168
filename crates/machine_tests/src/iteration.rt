//! What values give when they are iterated.
ghost use Rattle.std.specs.Prelude.{IsTrue};
ghost use Rattle.star_meaning.specs.Validity.{fits};

use crate::fault::Fault;
use crate::values::value;
use crate::words::cut;
use heap_store::{Machine, iterated};
use star_value::Value;
use std::alloc::Global;

/// `VALUE`: how many items it gives, if it is iterated at all.
pub fn count(alloc: Global, machine: &Machine, rest: &str) -> Result<String, Fault> {
    let of = value(alloc, rest, machine)?;
    Ok(format!(in alloc; "{:?}", iterated::count(&of, machine))?)
}

/// `PLACE VALUE`: the item that a value gives at a place.
pub fn item(alloc: Global, machine: &Machine, rest: &str) -> Result<String, Fault> {
    let (place, rest) = cut(rest);
    let Ok(place) = place.parse::<u128>() else {
        return Err(Fault::Unread);
    };
    let of = value(alloc, rest, machine)?;
    let item = item_at(alloc, &of, machine, place)?;
    Ok(format!(in alloc; "{item:?}")?)
}

fn item_at(alloc: Global, of: &Value, machine: &Machine, place: u128) -> Result<Value, Fault>
    requires { IsTrue (fits machine.now.state.objects of.now) }
{
    match iterated::count(of, machine) {
        Some(count) if place < count => Ok(iterated::item(alloc, of, machine, place)?),
        _ => Err(Fault::Unread),
    }
}
