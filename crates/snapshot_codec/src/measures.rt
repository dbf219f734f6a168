//! How many bytes the parts of a machine take in its snapshot, or the greatest number where they
//! take more. Each takes time linear in what it counts.
ghost use Rattle.std.specs.Prelude.{◌≡◌, ◌<◌, ◌≤◌, ◌-◌, ◌^◌, ℕ, List, length, min, slice_get, IfOk};
ghost use Rattle.std.specs.List.{flat_map};
ghost use Rattle.star_meaning.specs.Snapshot.{IsBytesOf, counted, global_bytes, id_bytes, object_bytes, pair_bytes, text_bytes, value_bytes};
ghost use Rattle.star_meaning.specs.State.{AList, ADict, AFunction};
ghost use Rattle.snapshot_codec.specs.Meeting.{IsOrder};
ghost use Rattle.snapshot_codec.specs.Writing.{bytes_in, found_bytes};
ghost use Rattle.star_value.specs.Keys as keys;

use crate::meeting::numbered;
use crate::numbers::Numbers;
use chex_base::{NoMemory, NodeId, ObjectId, Text};
use heap_store::{Kind, Machine, Pairs};
use star_value::{Key, Value};
use std::alloc::Global;

/// What a count of bytes and the text take.
pub fn text_size(text: &Text) -> u64
    ensures { result ≡ min (length (text_bytes text.now)) (2 ^ 64 - 1) }
{
    (text.as_str().len() as u64).saturating_add(8)
}

/// What a value takes, its tag among it.
#[cycle(value_size)]
#[tactic(auto, using(crate::proofs::Sizes::value_cases))]
pub fn value_size(value: &Value) -> u64
    ensures { result ≡ min (length (value_bytes value.now)) (2 ^ 64 - 1) }
{
    match value {
        Value::None => 1,
        Value::Bool(_) => 1,
        Value::Int(_) => 17,
        Value::Text(text) => text_size(text).saturating_add(1),
        Value::Tuple(items) => values_size(items.as_slice()).saturating_add(1),
        Value::Range(_) => 49,
        Value::List(_) => 5,
        Value::Dict(_) => 5,
        Value::Function(_) => 5,
        Value::Builtin(_) => 2,
    }
}

/// What a count and the values take.
#[cycle(value_size)]
pub fn values_size(values: &[Value]) -> u64
    ensures { result ≡ min (length (counted value_bytes values.now)) (2 ^ 64 - 1) }
{
    let mut size: u64 = 8;
    for value in values {
        size = size.saturating_add(value_size(value));
    }
    size
}

/// What a key takes, which is what its value takes.
#[cycle(key_size)]
#[tactic(auto, using(crate::proofs::Sizes::key_cases))]
pub fn key_size(key: &Key) -> u64
    ensures { result ≡ min (length (value_bytes (keys.value_of key.now))) (2 ^ 64 - 1) }
{
    match key {
        Key::None => 1,
        Key::Bool(_) => 1,
        Key::Int(_) => 17,
        Key::Text(text) => text_size(text).saturating_add(1),
        Key::Tuple(parts) => keys_size(parts.as_slice()).saturating_add(1),
    }
}

/// What a count and the keys take.
#[cycle(key_size)]
fn keys_size(parts: &[Key]) -> u64
    ensures { result ≡ min (length (counted (λ key. value_bytes (keys.value_of key)) parts.now)) (2 ^ 64 - 1) }
{
    let mut size: u64 = 8;
    for key in parts {
        size = size.saturating_add(key_size(key));
    }
    size
}

/// What a key and its value take.
fn pair_size(key: &Key, value: &Value) -> u64
    ensures { result ≡ min (length (pair_bytes (key.now, value.now))) (2 ^ 64 - 1) }
{
    let front = key_size(key);
    let back = value_size(value);
    front.saturating_add(back)
}

/// What a count and the pairs take.
fn pairs_size(pairs: &Pairs) -> u64
    ensures { result ≡ min (length (counted pair_bytes pairs.now)) (2 ^ 64 - 1) }
{
    let count = pairs.len();
    let mut size: u64 = 8;
    for place in 0..count {
        let (key, value) = pairs.at(place);
        let pair = pair_size(key, value);
        size = size.saturating_add(pair);
    }
    size
}

/// What a list takes, its tag among it.
fn list_size(items: &[Value]) -> u64
    ensures { result ≡ min (length (object_bytes (AList items.now))) (2 ^ 64 - 1) }
{
    let size = values_size(items);
    size.saturating_add(1)
}

/// What a dict takes, its tag among it.
fn dict_size(pairs: &Pairs) -> u64
    ensures { result ≡ min (length (object_bytes (ADict pairs.now))) (2 ^ 64 - 1) }
{
    let size = pairs_size(pairs);
    size.saturating_add(1)
}

/// What a function takes with these defaults, its tag, cell and number among it.
fn function_size(defaults: &[Value]) -> u64
    ensures { (cell number : ℕ) → result ≡ min (length (object_bytes (AFunction cell number defaults.now))) (2 ^ 64 - 1) }
{
    let size = values_size(defaults);
    size.saturating_add(9)
}

/// What an object takes.
fn object_size(machine: &Machine, id: ObjectId) -> u64
    requires { id < length machine.now.state.objects }
    ensures { result ≡ min (length (found_bytes (slice_get machine.now.state.objects id))) (2 ^ 64 - 1) }
{
    match machine.kind(id) {
        Kind::List => {
            let items = machine.list(id);
            list_size(items)
        }
        Kind::Dict => {
            let pairs = machine.dict(id);
            dict_size(pairs)
        }
        Kind::Function => {
            let (_, _, defaults) = machine.function(id);
            function_size(defaults)
        }
    }
}

/// What a count and the objects that are met take.
fn objects_size(numbers: &Numbers, machine: &Machine) -> u64
    requires { IsOrder machine.now numbers.now.order.keys }
    ensures { result ≡ min (length (counted (λ id. found_bytes (slice_get machine.now.state.objects id)) numbers.now.order.keys)) (2 ^ 64 - 1) }
{
    // This tells what every machine keeps.
    let _kept = machine.objects();
    let ids = numbers.ids();
    let mut size: u64 = 8;
    for id in ids {
        let object = object_size(machine, ObjectId(*id));
        size = size.saturating_add(object);
    }
    size
}

/// What a name and its value take.
fn global_size(name: &Text, value: &Value) -> u64
    ensures { result ≡ min (length (global_bytes (name.now, value.now))) (2 ^ 64 - 1) }
{
    let front = text_size(name);
    let back = value_size(value);
    front.saturating_add(back)
}

/// What a count, and the global names with their values take.
fn globals_size(machine: &Machine) -> u64
    ensures { result ≡ min (length (counted global_bytes machine.now.state.globals)) (2 ^ 64 - 1) }
{
    let mut size: u64 = 8;
    for (name, value) in machine.global_entries() {
        let global = global_size(name, value);
        size = size.saturating_add(global);
    }
    size
}

/// What a count and the numbers of nodes take.
#[tactic(auto, using(crate::proofs::Lengths::nodes_long))]
fn nodes_size(ran: &[NodeId]) -> u64
    requires { length ran.now ≤ 64 }
    ensures { result ≡ length (counted id_bytes ran.now) }
{
    8 + 4 * ran.len() as u64
}

/// What the four bytes in front, the nodes, the globals and the objects take.
fn state_size(numbers: &Numbers, machine: &Machine) -> u64
    requires { IsOrder machine.now numbers.now.order.keys }
    ensures { result ≡ min (length (bytes_in machine.now numbers.now.order.keys)) (2 ^ 64 - 1) }
{
    let ran = machine.ran();
    let nodes = nodes_size(ran);
    let globals = globals_size(machine);
    let objects = objects_size(numbers, machine);
    let front = nodes.saturating_add(4);
    let more = front.saturating_add(globals);
    more.saturating_add(objects)
}

/// How many bytes the snapshot of a machine has, or 2^64 - 1 where it has more. Memory is taken for
/// the numbers of its objects alone, and the time is linear in the bytes.
pub fn size(alloc: Global, machine: &Machine) -> Result<u64, NoMemory>
    ensures { (bytes : List ℕ) → IsBytesOf machine.now bytes → IfOk result (λ size. size ≡ min (length bytes) (2 ^ 64 - 1)) }
{
    // This tells what every machine keeps.
    let _kept = machine.objects();
    let numbers = numbered(alloc, machine)?;
    let size = state_size(&numbers, machine);
    Ok(size)
}
