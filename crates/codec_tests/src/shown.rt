//! Machines as texts: the nodes that have run, the global names with their values, and the objects
//! in order of number, with bars between; a dash where there is none. A list is shown by `[1]`, a
//! dict by `{1: 2}`, a function by its node, its number there and its defaults, `2.0(1, 2)`. In a
//! value an object is shown by `L`, `D` or `F`, for a list, a dict or a function, and its number.
ghost use Rattle.std.specs.Prelude.{◌<◌, length, slice_get, IsTrue};
ghost use Rattle.star_meaning.specs.Validity.{is_dict, is_function, is_list};

use crate::fault::Fault;
use chex_base::{NodeId, ObjectId};
use heap_store::{Kind, Machine};
use star_value::Value;
use std::alloc::Global;

pub fn machine_shown(alloc: Global, machine: &Machine) -> Result<String, Fault> {
    let mut text = String::new(alloc);
    show_nodes(alloc, machine.ran(), &mut text)?;
    text.push_str(" | ")?;
    show_globals(alloc, machine, &mut text)?;
    text.push_str(" | ")?;
    show_objects(alloc, machine, &mut text)?;
    Ok(text)
}

fn show_nodes(alloc: Global, nodes: &[NodeId], text: &mut String) -> Result<(), Fault> {
    if nodes.is_empty() {
        text.push('-')?;
    }
    let mut is_first = true;
    for node in nodes {
        separate(&mut is_first, text)?;
        let number = node.0;
        let shown = format!(in alloc; "{number}")?;
        text.push_str(shown.as_str())?;
    }
    Ok(())
}

/// A comma and a blank, except before the first.
fn separate(is_first: &mut bool, text: &mut String) -> Result<(), Fault> {
    if !*is_first {
        text.push_str(", ")?;
    }
    *is_first = false;
    Ok(())
}

fn show_globals(alloc: Global, machine: &Machine, text: &mut String) -> Result<(), Fault> {
    if machine.globals() == 0 {
        text.push('-')?;
    }
    let mut is_first = true;
    for place in 0..machine.globals() {
        separate(&mut is_first, text)?;
        let (name, value) = machine.global_at(place);
        text.push_str(name.as_str())?;
        text.push_str(" = ")?;
        show(alloc, value, text)?;
    }
    Ok(())
}

fn show_objects(alloc: Global, machine: &Machine, text: &mut String) -> Result<(), Fault> {
    if machine.objects() == 0 {
        text.push('-')?;
    }
    let mut is_first = true;
    for number in 0..machine.objects() {
        separate(&mut is_first, text)?;
        show_object(alloc, machine, ObjectId(number), text)?;
    }
    Ok(())
}

#[tactic(auto, using(crate::proofs::KindLemmas::list_by_kind, crate::proofs::KindLemmas::dict_by_kind, crate::proofs::KindLemmas::function_by_kind))]
fn show_object(
    alloc: Global,
    machine: &Machine,
    id: ObjectId,
    text: &mut String,
) -> Result<(), Fault>
    requires { id < length machine.now.state.objects }
{
    match machine.kind(id) {
        Kind::List => {
            text.push('[')?;
            show_all(alloc, machine.list(id), text)?;
            text.push(']')?;
        }
        Kind::Dict => show_dict(alloc, machine, id, text)?,
        Kind::Function => {
            let (cell, number, defaults) = machine.function(id);
            let node = cell.0;
            let shown = format!(in alloc; "{node}.{number}(")?;
            text.push_str(shown.as_str())?;
            show_all(alloc, defaults, text)?;
            text.push(')')?;
        }
    }
    Ok(())
}

fn show_dict(alloc: Global, machine: &Machine, id: ObjectId, text: &mut String) -> Result<(), Fault>
    requires { IsTrue (is_dict (slice_get machine.now.state.objects id)) }
{
    text.push('{')?;
    let mut is_first = true;
    for place in 0..machine.dict_len(id) {
        separate(&mut is_first, text)?;
        let (key, value) = machine.dict_at(id, place);
        let shown = key.value(alloc)?;
        show(alloc, &shown, text)?;
        text.push_str(": ")?;
        show(alloc, value, text)?;
    }
    text.push('}')?;
    Ok(())
}

/// A reference to an object of this number.
fn show_reference(alloc: Global, kind: char, id: ObjectId, text: &mut String) -> Result<(), Fault> {
    let number = id.0;
    let shown = format!(in alloc; "{kind}{number}")?;
    text.push_str(shown.as_str())?;
    Ok(())
}

#[cycle(show)]
fn show(alloc: Global, value: &Value, text: &mut String) -> Result<(), Fault> {
    match value {
        Value::None => text.push_str("None")?,
        Value::Bool(true) => text.push_str("True")?,
        Value::Bool(false) => text.push_str("False")?,
        Value::Int(number) => {
            let shown = format!(in alloc; "{number}")?;
            text.push_str(shown.as_str())?;
        }
        Value::Text(points) => {
            text.push('"')?;
            text.push_str(points.as_str())?;
            text.push('"')?;
        }
        Value::Tuple(items) => {
            text.push('(')?;
            show_all(alloc, items.as_slice(), text)?;
            text.push(')')?;
        }
        Value::Range(range) => {
            let (start, stop, step) = (range.start, range.stop, range.step);
            let shown = format!(in alloc; "range({start}, {stop}, {step})")?;
            text.push_str(shown.as_str())?;
        }
        Value::List(id) => show_reference(alloc, 'L', *id, text)?,
        Value::Dict(id) => show_reference(alloc, 'D', *id, text)?,
        Value::Function(id) => show_reference(alloc, 'F', *id, text)?,
        Value::Builtin(which) => {
            let shown = format!(in alloc; "{which:?}")?;
            text.push_str(shown.as_str())?;
        }
    }
    Ok(())
}

#[cycle(show)]
fn show_all(alloc: Global, values: &[Value], text: &mut String) -> Result<(), Fault> {
    let mut is_first = true;
    for value in values {
        separate(&mut is_first, text)?;
        show(alloc, value, text)?;
    }
    Ok(())
}
