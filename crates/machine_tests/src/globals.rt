//! Global names of a machine.

use crate::fault::Fault;
use crate::values::value;
use crate::words::{cut, place};
use chex_base::Text;
use heap_store::Machine;
use std::alloc::Global;

/// `NAME VALUE`
pub fn bind(alloc: Global, machine: &mut Machine, rest: &str) -> Result<(), Fault> {
    let (name, rest) = cut(rest);
    let value = value(alloc, rest, machine)?;
    let name = Text::from_str(alloc, name)?;
    machine.set_global(&name, value)?;
    Ok(())
}

/// `PLACE`: the name at a place, and its value.
pub fn at(alloc: Global, machine: &Machine, rest: &str) -> Result<String, Fault> {
    let (place, _) = place(rest)?;
    if place >= machine.globals() {
        return Err(Fault::Unread);
    }
    let (name, value) = machine.global_at(place);
    Ok(format!(in alloc; "{} {value:?}", name.as_str())?)
}

/// The names with their values in their order, each with a semicolon behind it.
pub fn all(alloc: Global, machine: &Machine) -> Result<String, Fault> {
    let mut shown = String::new(alloc);
    for (name, value) in machine.global_entries() {
        let entry = format!(in alloc; "{} {value:?};", name.as_str())?;
        shown.push_str(entry.as_str())?;
    }
    Ok(shown)
}

/// `NAME`: its value, if it is bound.
pub fn found(alloc: Global, machine: &Machine, name: &str) -> Result<String, Fault> {
    let name = Text::from_str(alloc, name)?;
    Ok(format!(in alloc; "{:?}", machine.global(&name))?)
}
