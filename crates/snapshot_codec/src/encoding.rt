//! Writes a machine as a snapshot.
ghost use Rattle.std.specs.Prelude.{◌≡◌, ◌<◌, ◌++◌, [], ◌∷◌, length, slice_get, IfOk, OnOk};
ghost use Rattle.star_meaning.specs.Snapshot.{IsBytesOf, counted, id_bytes};
ghost use Rattle.star_meaning.specs.State.{AList, ADict, AFunction};
ghost use Rattle.snapshot_codec.specs.Meeting.{IsOrder};
ghost use Rattle.snapshot_codec.specs.Writing.{bytes_in, found_bytes_by, global_bytes_by, number_in, object_bytes_by};

use crate::meeting::numbered;
use crate::numbers::Numbers;
use crate::writing::{put_count, put_id, put_pairs, put_text, put_value, put_values};
use chex_base::{NoMemory, NodeId, ObjectId, Text};
use heap_store::{Kind, Machine, Pairs};
use star_value::Value;
use std::alloc::Global;

fn put_list(out: &mut Vec<u8>, numbers: &Numbers, items: &[Value]) -> Result<(), NoMemory>
    ensures { OnOk result (out.new.items ≡ out.old.items ++ object_bytes_by (number_in numbers.now.order.keys) (AList items.now)) }
{
    out.push(0)?;
    put_values(out, numbers, items)?;
    Ok(())
}

fn put_dict(out: &mut Vec<u8>, numbers: &Numbers, pairs: &Pairs) -> Result<(), NoMemory>
    ensures { OnOk result (out.new.items ≡ out.old.items ++ object_bytes_by (number_in numbers.now.order.keys) (ADict pairs.now)) }
{
    out.push(1)?;
    put_pairs(out, numbers, pairs)?;
    Ok(())
}

fn put_function(
    out: &mut Vec<u8>,
    numbers: &Numbers,
    cell: NodeId,
    number: u32,
    defaults: &[Value],
) -> Result<(), NoMemory>
    ensures { OnOk result (out.new.items ≡ out.old.items ++ object_bytes_by (number_in numbers.now.order.keys) (AFunction cell number defaults.now)) }
{
    out.push(2)?;
    put_id(out, cell.0)?;
    put_id(out, number)?;
    put_values(out, numbers, defaults)?;
    Ok(())
}

fn put_object(
    out: &mut Vec<u8>,
    numbers: &Numbers,
    machine: &Machine,
    id: ObjectId,
) -> Result<(), NoMemory>
    requires { id < length machine.now.state.objects }
    ensures { OnOk result (out.new.items ≡ out.old.items ++ found_bytes_by (number_in numbers.now.order.keys) (slice_get machine.now.state.objects id)) }
{
    match machine.kind(id) {
        Kind::List => {
            let items = machine.list(id);
            put_list(out, numbers, items)?;
            Ok(())
        }
        Kind::Dict => {
            let pairs = machine.dict(id);
            put_dict(out, numbers, pairs)?;
            Ok(())
        }
        Kind::Function => {
            let (cell, number, defaults) = machine.function(id);
            put_function(out, numbers, cell, number, defaults)?;
            Ok(())
        }
    }
}

/// Adds the count and the bytes of the objects that are met, in order.
fn put_objects(out: &mut Vec<u8>, numbers: &Numbers, machine: &Machine) -> Result<(), NoMemory>
    requires { IsOrder machine.now numbers.now.order.keys }
    ensures { OnOk result (out.new.items ≡ out.old.items ++ counted (λ id. found_bytes_by (number_in numbers.now.order.keys) (slice_get machine.now.state.objects id)) numbers.now.order.keys) }
{
    // This tells what every machine keeps.
    let _kept = machine.objects();
    let ids = numbers.ids();
    put_count(out, ids.len())?;
    for id in ids {
        put_object(out, numbers, machine, ObjectId(*id))?;
    }
    Ok(())
}

fn put_nodes(out: &mut Vec<u8>, ran: &[NodeId]) -> Result<(), NoMemory>
    ensures { OnOk result (out.new.items ≡ out.old.items ++ counted id_bytes ran.now) }
{
    put_count(out, ran.len())?;
    for node in ran {
        put_id(out, node.0)?;
    }
    Ok(())
}

fn put_global(
    out: &mut Vec<u8>,
    numbers: &Numbers,
    name: &Text,
    value: &Value,
) -> Result<(), NoMemory>
    ensures { OnOk result (out.new.items ≡ out.old.items ++ global_bytes_by (number_in numbers.now.order.keys) (name.now, value.now)) }
{
    put_text(out, name)?;
    put_value(out, numbers, value)?;
    Ok(())
}

/// Adds the count of the global names, and each with its value.
fn put_globals(out: &mut Vec<u8>, numbers: &Numbers, machine: &Machine) -> Result<(), NoMemory>
    ensures { OnOk result (out.new.items ≡ out.old.items ++ counted (global_bytes_by (number_in numbers.now.order.keys)) machine.now.state.globals) }
{
    put_count(out, machine.globals())?;
    for (name, value) in machine.global_entries() {
        put_global(out, numbers, name, value)?;
    }
    Ok(())
}

fn put_head(out: &mut Vec<u8>) -> Result<(), NoMemory>
    ensures { OnOk result (out.new.items ≡ out.old.items ++ 67 ∷ 72 ∷ 88 ∷ 50 ∷ []) }
{
    out.extend_from_slice(b"CHX2")?;
    Ok(())
}

fn put_state(out: &mut Vec<u8>, numbers: &Numbers, machine: &Machine) -> Result<(), NoMemory>
    requires { IsOrder machine.now numbers.now.order.keys }
    ensures { OnOk result (out.new.items ≡ out.old.items ++ bytes_in machine.now numbers.now.order.keys) }
{
    let ran = machine.ran();
    put_head(out)?;
    put_nodes(out, ran)?;
    put_globals(out, numbers, machine)?;
    put_objects(out, numbers, machine)?;
    Ok(())
}

/// The snapshot of a machine: the bytes of what its globals reach, with objects numbered in the
/// order in which they are met. So alike machines have the same bytes. It takes time linear in the
/// bytes, and fails where memory is wanting alone.
pub fn encode(alloc: Global, machine: &Machine) -> Result<Vec<u8>, NoMemory>
    ensures { IfOk result (λ bytes. IsBytesOf machine.now bytes.items) }
{
    // This tells what every machine keeps.
    let _kept = machine.objects();
    let numbers = numbered(alloc, machine)?;
    let mut out = Vec::new(alloc);
    put_state(&mut out, &numbers, machine)?;
    Ok(out)
}
