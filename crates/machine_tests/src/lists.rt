//! Lists of a machine.

use crate::fault::Fault;
use crate::kinds::{check_list, check_room};
use crate::values::value;
use crate::words::{number_and, place, two_integers};
use chex_base::ObjectId;
use heap_store::Machine;
use sqlite_items::Items;
use star_value::Value;
use std::alloc::Global;

/// A new list without items.
pub fn new(alloc: Global, machine: &mut Machine) -> Result<ObjectId, Fault> {
    check_room(machine)?;
    Ok(machine.new_list(Items::new(alloc))?)
}

/// `ID PLACE VALUE`
pub fn insert(alloc: Global, machine: &mut Machine, rest: &str) -> Result<(), Fault> {
    let (id, rest) = number_and(rest)?;
    let id = ObjectId(id);
    let (place, rest) = place(rest)?;
    let item = value(alloc, rest, machine)?;
    check_list(machine, id)?;
    if place > machine.list(id).len() {
        return Err(Fault::Unread);
    }
    machine.list_insert(id, place, item)?;
    Ok(())
}

/// `ID PLACE VALUE`
pub fn set(alloc: Global, machine: &mut Machine, rest: &str) -> Result<(), Fault> {
    let (id, rest) = number_and(rest)?;
    let id = ObjectId(id);
    let (place, rest) = place(rest)?;
    let item = value(alloc, rest, machine)?;
    check_list(machine, id)?;
    if place >= machine.list(id).len() {
        return Err(Fault::Unread);
    }
    machine.list_set(id, place, item);
    Ok(())
}

/// `ID PLACE`
pub fn remove(machine: &mut Machine, rest: &str) -> Result<Value, Fault> {
    let (id, rest) = number_and(rest)?;
    let id = ObjectId(id);
    let (place, _) = place(rest)?;
    check_list(machine, id)?;
    if place >= machine.list(id).len() {
        return Err(Fault::Unread);
    }
    Ok(machine.list_remove(id, place))
}

/// `ID INTEGER INTEGER`
#[tactic(auto, using(crate::proofs::Fitting::fits_int))]
pub fn extend(alloc: Global, machine: &mut Machine, rest: &str) -> Result<(), Fault> {
    let (id, rest) = number_and(rest)?;
    let id = ObjectId(id);
    let (first, second) = two_integers(rest)?;
    check_list(machine, id)?;
    let mut more = Items::new(alloc);
    more.push(Value::Int(first))?;
    more.push(Value::Int(second))?;
    machine.list_extend(id, more)?;
    Ok(())
}

/// `ID`: a list without its items.
pub fn clear(machine: &mut Machine, rest: &str) -> Result<(), Fault> {
    let (id, _) = number_and(rest)?;
    let id = ObjectId(id);
    check_list(machine, id)?;
    machine.clear(id);
    Ok(())
}

/// `ID`
pub fn items(alloc: Global, machine: &Machine, rest: &str) -> Result<String, Fault> {
    let (id, _) = number_and(rest)?;
    let id = ObjectId(id);
    check_list(machine, id)?;
    Ok(format!(in alloc; "{:?}", machine.list(id))?)
}
