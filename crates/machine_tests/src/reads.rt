//! The calls that read a machine.

use crate::fault::Fault;
use crate::{dicts, functions, globals, iteration, lists, showing};
use heap_store::Machine;
use std::alloc::Global;

/// What a call answers that changes nothing, if the word names one.
pub fn read(alloc: Global, machine: &Machine, word: &str, rest: &str) -> Result<String, Fault> {
    match word {
        "items" => lists::items(alloc, machine, rest),
        "globals" => Ok(format!(in alloc; "{}", machine.globals())?),
        "global_at" => globals::at(alloc, machine, rest),
        "entries" => globals::all(alloc, machine),
        "global" => globals::found(alloc, machine, rest),
        "get" => dicts::get(alloc, machine, rest),
        "pair" => dicts::pair(alloc, machine, rest),
        "len" => dicts::len(alloc, machine, rest),
        "pairs" => dicts::pairs(alloc, machine, rest),
        "parts" => functions::parts(alloc, machine, rest),
        "count" => iteration::count(alloc, machine, rest),
        "item" => iteration::item(alloc, machine, rest),
        "show" => showing::quoted(alloc, machine, rest),
        "compare" => showing::compared(alloc, machine, rest),
        _ => Err(Fault::Unread),
    }
}
