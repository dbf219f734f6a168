//! Functions of a machine.

use crate::fault::Fault;
use crate::kinds::{check_function, check_room};
use crate::values::value;
use crate::words::{integer, number_and, place};
use chex_base::{NodeId, ObjectId};
use heap_store::Machine;
use sqlite_items::Items;
use star_value::Value;
use std::alloc::Global;

/// `INTEGER`: a new function, the second of the cell of node 1, with the integer for its default.
#[tactic(auto, using(crate::proofs::Fitting::fits_int))]
pub fn new(alloc: Global, machine: &mut Machine, rest: &str) -> Result<ObjectId, Fault> {
    let number = integer(rest)?;
    check_room(machine)?;
    let mut defaults = Items::new(alloc);
    defaults.push(Value::Int(number))?;
    Ok(machine.new_function(NodeId(1), 2, defaults)?)
}

/// `ID PLACE VALUE`
#[tactic(auto, unfolding(heap_store::specs::Objects::defaults))]
pub fn set_default(alloc: Global, machine: &mut Machine, rest: &str) -> Result<(), Fault> {
    let (id, rest) = number_and(rest)?;
    let id = ObjectId(id);
    let (place, rest) = place(rest)?;
    let later = value(alloc, rest, machine)?;
    check_function(machine, id)?;
    if place >= machine.function(id).2.len() {
        return Err(Fault::Unread);
    }
    machine.function_set(id, place, later);
    Ok(())
}

/// `ID`: its cell, its number there, and its defaults.
pub fn parts(alloc: Global, machine: &Machine, rest: &str) -> Result<String, Fault> {
    let (id, _) = number_and(rest)?;
    let id = ObjectId(id);
    check_function(machine, id)?;
    let (cell, number, defaults) = machine.function(id);
    Ok(format!(in alloc; "{cell:?} {number} {defaults:?}")?)
}
