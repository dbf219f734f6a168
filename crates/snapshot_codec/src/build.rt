//! The machine of what was read. Each object is made without what it holds, and filled once all are
//! there, since an object may refer to a later one.
ghost use Rattle.std.specs.Prelude.{◌≡◌, ◌≤◌, ◌<◌, ◌+◌, ◌*◌, ◌^◌, ◌++◌, [], ◌∷◌, Some, length, map, slice_get, slice_set, IfOk, IsTrue, OnOk};
ghost use Rattle.std.specs.List.{list_all};
ghost use Rattle.std.specs.List.Sorted.{IsStrictlySortedBy};
ghost use Rattle.std.specs.Map.{keys_of};
ghost use Rattle.chex_base.specs.TextOrder.{text_cmp};
ghost use Rattle.heap_store.specs.Objects.{defaults, with_defaults};
ghost use Rattle.star_meaning.specs.State.{AList, ADict, AFunction};
ghost use Rattle.star_meaning.specs.Validity.{IsMachine, all_in_object, all_in_pair, are_distinct, fits, has_distinct_keys, is_function};
ghost use Rattle.snapshot_codec.specs.Building.{bare, bare_state, nones, state_with, with_globals, with_objects, with_ran};
ghost use Rattle.snapshot_codec.specs.Contents.{object_of, state_of};

use crate::content::Content;
use crate::parts::{NamedValue, Parts};
use chex_base::{NoMemory, NodeId, ObjectId};
use heap_store::{Machine, Pairs};
use sqlite_items::Items;
use star_value::{Value, Values};
use std::alloc::Global;

fn enter_all(machine: &mut Machine, nodes: &[NodeId]) -> Result<(), NoMemory>
    requires { length machine.old.ran + length nodes.now ≤ 64 }
    ensures { OnOk result (machine.new ≡ with_ran machine.old (machine.old.ran ++ nodes.now)) }
{
    for node in nodes {
        machine.enter(*node)?;
    }
    Ok(())
}

fn make_list(alloc: Global, machine: &mut Machine) -> Result<(), NoMemory>
    requires { length machine.old.state.objects < 1000000 * length machine.old.ran }
    ensures { OnOk result (machine.new ≡ with_objects machine.old (machine.old.state.objects ++ AList [] ∷ [])) }
{
    let items = Items::new(alloc);
    let _id = machine.new_list(items)?;
    Ok(())
}

fn make_dict(machine: &mut Machine) -> Result<(), NoMemory>
    requires { length machine.old.state.objects < 1000000 * length machine.old.ran }
    ensures { OnOk result (machine.new ≡ with_objects machine.old (machine.old.state.objects ++ ADict [] ∷ [])) }
{
    let _id = machine.new_dict()?;
    Ok(())
}

fn make_nones(alloc: Global, count: usize) -> Result<Values, NoMemory>
    ensures { IfOk result (λ values. values ≡ nones count) }
{
    let mut values = Items::new(alloc);
    for _ in 0..count {
        values.push(Value::None)?;
    }
    Ok(values)
}

/// A function whose defaults are not known yet.
fn make_function(
    alloc: Global,
    machine: &mut Machine,
    cell: NodeId,
    number: u32,
    count: usize,
) -> Result<(), NoMemory>
    requires { length machine.old.state.objects < 1000000 * length machine.old.ran }
    ensures { OnOk result (machine.new ≡ with_objects machine.old (machine.old.state.objects ++ AFunction cell number (nones count) ∷ [])) }
{
    let values = make_nones(alloc, count)?;
    let _id = machine.new_function(cell, number, values)?;
    Ok(())
}

fn make_one(alloc: Global, machine: &mut Machine, object: &Content) -> Result<(), NoMemory>
    requires { length machine.old.state.objects < 1000000 * length machine.old.ran }
    ensures { OnOk result (machine.new ≡ with_objects machine.old (machine.old.state.objects ++ bare (object_of object.now) ∷ [])) }
{
    match object {
        Content::List(_) => make_list(alloc, machine),
        Content::Dict(_) => make_dict(machine),
        Content::Function(cell, number, values) => {
            let count = values.len();
            make_function(alloc, machine, *cell, *number, count)
        }
    }
}

fn make_all(alloc: Global, machine: &mut Machine, objects: &[Content]) -> Result<(), NoMemory>
    requires none { machine.old.state.objects ≡ [] }
    requires room { length objects.now ≤ 1000000 * length machine.old.ran }
    ensures { OnOk result (machine.new ≡ with_objects machine.old (map bare (map object_of objects.now))) }
{
    for object in objects {
        make_one(alloc, machine, object)?;
    }
    Ok(())
}

fn fill_list(machine: &mut Machine, id: ObjectId, items: Values) -> Result<(), NoMemory>
    requires there { slice_get machine.old.state.objects id ≡ Some (AList []) }
    requires fit { IsTrue (list_all (fits machine.old.state.objects) items) }
    ensures { OnOk result (machine.new ≡ with_objects machine.old (slice_set machine.old.state.objects id (AList items))) }
{
    machine.list_extend(id, items)?;
    Ok(())
}

fn fill_dict(
    alloc: Global,
    machine: &mut Machine,
    id: ObjectId,
    pairs: &Pairs,
) -> Result<(), NoMemory>
    requires there { slice_get machine.old.state.objects id ≡ Some (ADict []) }
    requires fit { IsTrue (list_all (all_in_pair (fits machine.old.state.objects)) pairs.now) }
    requires keys { IsTrue (are_distinct pairs.now) }
    ensures { OnOk result (machine.new ≡ with_objects machine.old (slice_set machine.old.state.objects id (ADict pairs.now))) }
{
    for place in 0..pairs.len() {
        let (key, value) = pairs.at(place);
        let copied = key.copy(alloc)?;
        let held = value.copy(alloc)?;
        machine.dict_put(id, copied, held)?;
    }
    Ok(())
}

fn fill_defaults(machine: &mut Machine, id: ObjectId, mut values: Values)
    requires kind { IsTrue (is_function (slice_get machine.old.state.objects id)) }
    requires none { defaults machine.old.state id ≡ nones (length values) }
    requires fit { IsTrue (list_all (fits machine.old.state.objects) values) }
    ensures { machine.new ≡ record machine.old { state = with_defaults machine.old.state id values } }
{
    while let Some(value) = values.pop() {
        let place = values.len();
        machine.function_set(id, place, value);
    }
}

/// Gives an object that holds nothing yet what it is to hold.
fn fill(alloc: Global, machine: &mut Machine, id: ObjectId, object: Content) -> Result<(), NoMemory>
    requires there { slice_get machine.old.state.objects id ≡ Some (bare (object_of object)) }
    requires fit { IsTrue (all_in_object (fits machine.old.state.objects) (object_of object)) }
    requires keys { IsTrue (has_distinct_keys (object_of object)) }
    ensures { OnOk result (machine.new ≡ with_objects machine.old (slice_set machine.old.state.objects id (object_of object))) }
{
    match object {
        Content::List(items) => fill_list(machine, id, items),
        Content::Dict(pairs) => fill_dict(alloc, machine, id, &pairs),
        Content::Function(_, _, values) => {
            fill_defaults(machine, id, values);
            Ok(())
        }
    }
}

fn id_of(place: usize) -> ObjectId
    requires { place < 2 ^ 32 }
    ensures { result ≡ place }
{
    ObjectId(place as u32)
}

fn fill_all(
    alloc: Global,
    machine: &mut Machine,
    mut objects: Items<Content>,
) -> Result<(), NoMemory>
    requires empty { machine.old.state.objects ≡ map bare (map object_of objects) }
    requires few { length objects < 2 ^ 32 }
    requires fit { IsTrue (list_all (all_in_object (fits (map object_of objects))) (map object_of objects)) }
    requires keys { IsTrue (list_all has_distinct_keys (map object_of objects)) }
    ensures { OnOk result (machine.new ≡ with_objects machine.old (map object_of objects)) }
{
    while let Some(object) = objects.pop() {
        let place = objects.len();
        let id = id_of(place);
        fill(alloc, machine, id, object)?;
    }
    Ok(())
}

/// Binds the globals from the last to the first, so that each name stands before those that are
/// bound already.
fn bind_all(machine: &mut Machine, mut globals: Items<NamedValue>) -> Result<(), NoMemory>
    requires none { machine.old.state.globals ≡ [] }
    requires fit { IsTrue (list_all (λ global. fits machine.old.state.objects global.1) globals) }
    requires names { IsStrictlySortedBy text_cmp (keys_of globals) }
    ensures { OnOk result (machine.new ≡ with_globals machine.old globals) }
{
    while let Some((name, value)) = globals.pop() {
        machine.set_global(&name, value)?;
    }
    Ok(())
}

/// The nodes, and objects that hold nothing yet.
fn started(alloc: Global, ran: &[NodeId], objects: &[Content]) -> Result<Machine, NoMemory>
    requires few { length ran.now ≤ 64 }
    requires room { length objects.now ≤ 1000000 * length ran.now }
    ensures { IfOk result (λ machine. machine ≡ bare_state ran.now (map object_of objects.now)) }
{
    let mut machine = Machine::new(alloc);
    enter_all(&mut machine, ran)?;
    make_all(alloc, &mut machine, objects)?;
    Ok(machine)
}

fn built(
    alloc: Global,
    ran: Items<NodeId>,
    globals: Items<NamedValue>,
    objects: Items<Content>,
) -> Result<Machine, NoMemory>
    requires { IsMachine (state_with ran globals (map object_of objects)) }
    ensures { IfOk result (λ machine. machine ≡ state_with ran globals (map object_of objects)) }
{
    let nodes = ran.as_slice();
    let contents = objects.as_slice();
    let mut machine = started(alloc, nodes, contents)?;
    fill_all(alloc, &mut machine, objects)?;
    bind_all(&mut machine, globals)?;
    Ok(machine)
}

/// The machine that these parts are.
pub fn build(alloc: Global, parts: Parts) -> Result<Machine, NoMemory>
    requires { IsMachine (state_of parts) }
    ensures { IfOk result (λ machine. machine ≡ state_of parts) }
{
    let Parts {
        ran,
        globals,
        objects,
    } = parts;
    built(alloc, ran, globals, objects)
}
