//! The calls that change a machine.

use crate::fault::Fault;
use crate::reads::read;
use crate::words::cut;
use crate::{dicts, functions, globals, lists};
use chex_base::ObjectId;
use heap_store::Machine;
use star_value::Value;
use std::alloc::Global;

/// What a call answers.
enum Reply {
    Done,
    /// The object that was made.
    Made(ObjectId),
    /// The item that was taken out.
    Item(Value),
    /// The value that was taken out, if it was there.
    Taken(Option<Value>),
    /// The answer of a call that changes nothing.
    Read(String),
}

/// Makes the call of a row, and shows what it answers.
pub fn answer(alloc: Global, machine: &mut Machine, call: &str) -> Result<String, Fault> {
    let (word, rest) = cut(call);
    match made(alloc, machine, word, rest)? {
        Reply::Done => Ok(String::from_str(alloc, "done")?),
        Reply::Made(id) => Ok(format!(in alloc; "{id:?}")?),
        Reply::Item(item) => Ok(format!(in alloc; "{item:?}")?),
        Reply::Taken(taken) => Ok(format!(in alloc; "{taken:?}")?),
        Reply::Read(shown) => Ok(shown),
    }
}

fn made(alloc: Global, machine: &mut Machine, word: &str, rest: &str) -> Result<Reply, Fault> {
    match word {
        "list" => Ok(Reply::Made(lists::new(alloc, machine)?)),
        "dict" => Ok(Reply::Made(dicts::new(machine)?)),
        "dict_of" => Ok(Reply::Made(dicts::new_of(alloc, machine, rest)?)),
        "function" => Ok(Reply::Made(functions::new(alloc, machine, rest)?)),
        "remove" => Ok(Reply::Item(lists::remove(machine, rest)?)),
        "take" => Ok(Reply::Taken(dicts::take(machine, rest)?)),
        _ => changed(alloc, machine, word, rest),
    }
}

fn changed(alloc: Global, machine: &mut Machine, word: &str, rest: &str) -> Result<Reply, Fault> {
    match word {
        "insert" => lists::insert(alloc, machine, rest)?,
        "set" => lists::set(alloc, machine, rest)?,
        "extend" => lists::extend(alloc, machine, rest)?,
        "clear" => lists::clear(machine, rest)?,
        "name" => globals::bind(alloc, machine, rest)?,
        "put" => dicts::put(machine, rest)?,
        "fill" => dicts::fill(machine, rest)?,
        "clear_dict" => dicts::clear(machine, rest)?,
        "default" => functions::set_default(alloc, machine, rest)?,
        _ => return Ok(Reply::Read(read(alloc, machine, word, rest)?)),
    }
    Ok(Reply::Done)
}
