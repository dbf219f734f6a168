//! Meets the objects that the globals of a machine reach, each once: those that the globals refer to,
//! from left to right, and then those that the objects refer to, in the order in which they are met.
ghost use Rattle.std.specs.Prelude.{◌≡◌, ◌<◌, [], ◌∷◌, length, slice_get, IfOk, OnOk};
ghost use Rattle.std.specs.List.{flat_map};
ghost use Rattle.star_meaning.specs.Snapshot.{references};
ghost use Rattle.snapshot_codec.specs.Meeting.{met_with, first_references, leads, IsOrder};

use crate::numbers::Numbers;
use chex_base::{NoMemory, ObjectId};
use heap_store::{Kind, Machine, Pairs};
use indexmap::IndexSet;
use star_value::Value;
use std::alloc::Global;

/// Meets an object, which goes last where it is new.
fn meet(met: &mut IndexSet<u32>, id: ObjectId) -> Result<(), NoMemory>
    ensures { OnOk result (met.new.keys ≡ met_with met.old.keys (id ∷ [])) }
{
    met.insert(id.0)?;
    Ok(())
}

/// Meets the objects that a value refers to. The stack grows with the depth of its tuples alone.
#[cycle(meet_value)]
#[tactic(auto, using(crate::proofs::Forms::references_cases))]
fn meet_value(met: &mut IndexSet<u32>, value: &Value) -> Result<(), NoMemory>
    ensures { OnOk result (met.new.keys ≡ met_with met.old.keys (references value.now)) }
{
    match value {
        Value::None => Ok(()),
        Value::Bool(_) => Ok(()),
        Value::Int(_) => Ok(()),
        Value::Text(_) => Ok(()),
        Value::Tuple(items) => {
            meet_values(met, items.as_slice())?;
            Ok(())
        }
        Value::Range(_) => Ok(()),
        Value::List(id) => {
            meet(met, *id)?;
            Ok(())
        }
        Value::Dict(id) => {
            meet(met, *id)?;
            Ok(())
        }
        Value::Function(id) => {
            meet(met, *id)?;
            Ok(())
        }
        Value::Builtin(_) => Ok(()),
    }
}

#[cycle(meet_value)]
fn meet_values(met: &mut IndexSet<u32>, values: &[Value]) -> Result<(), NoMemory>
    ensures { OnOk result (met.new.keys ≡ met_with met.old.keys (flat_map references values.now)) }
{
    for value in values {
        meet_value(met, value)?;
    }
    Ok(())
}

fn meet_pairs(met: &mut IndexSet<u32>, pairs: &Pairs) -> Result<(), NoMemory>
    ensures { OnOk result (met.new.keys ≡ met_with met.old.keys (flat_map (λ pair. references pair.1) pairs.now)) }
{
    let count = pairs.len();
    for place in 0..count {
        let (_, value) = pairs.at(place);
        meet_value(met, value)?;
    }
    Ok(())
}

fn meet_globals(met: &mut IndexSet<u32>, machine: &Machine) -> Result<(), NoMemory>
    ensures { OnOk result (met.new.keys ≡ met_with met.old.keys (first_references machine.now)) }
{
    for (_, value) in machine.global_entries() {
        meet_value(met, value)?;
    }
    Ok(())
}

/// Meets the objects that an object refers to.
fn meet_object(met: &mut IndexSet<u32>, machine: &Machine, id: ObjectId) -> Result<(), NoMemory>
    requires { id < length machine.now.state.objects }
    ensures { OnOk result (met.new.keys ≡ met_with met.old.keys (leads machine.now id)) }
{
    match machine.kind(id) {
        Kind::List => {
            let items = machine.list(id);
            meet_values(met, items)?;
            Ok(())
        }
        Kind::Dict => {
            let pairs = machine.dict(id);
            meet_pairs(met, pairs)?;
            Ok(())
        }
        Kind::Function => {
            let (_, _, defaults) = machine.function(id);
            meet_values(met, defaults)?;
            Ok(())
        }
    }
}

/// What is met at a place.
fn met_at(met: &IndexSet<u32>, place: u32) -> Option<ObjectId>
    ensures { result ≡ slice_get met.now.keys place }
{
    match met.get_index(place as usize) {
        Some(id) => Some(ObjectId(*id)),
        None => None,
    }
}

/// The objects that the globals of a machine reach, in the order in which they are met. It takes
/// time linear in the bytes of their snapshot.
fn reached(alloc: Global, machine: &Machine) -> Result<IndexSet<u32>, NoMemory>
    ensures { IfOk result (λ met. IsOrder machine.now met.keys) }
{
    let count = machine.objects();
    let mut met = IndexSet::new(alloc);
    meet_globals(&mut met, machine)?;
    for place in 0..count {
        let Some(id) = met_at(&met, place) else {
            return Ok(met);
        };
        meet_object(&mut met, machine, id)?;
    }
    Ok(met)
}

/// The numbers that the objects of a machine have in its snapshot.
pub fn numbered(alloc: Global, machine: &Machine) -> Result<Numbers, NoMemory>
    ensures { IfOk result (λ numbers. IsOrder machine.now numbers.order.keys) }
{
    // This tells what every machine keeps.
    let _kept = machine.objects();
    let order = reached(alloc, machine)?;
    let numbers = Numbers::new(order);
    Ok(numbers)
}
