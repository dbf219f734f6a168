//! Reads a record.
ghost use Rattle.std.specs.Prelude.{◌≡◌, ◌≤◌, ◌⊎◌, ◌↔◌, All, IfErr, IfOk, IsTrue, None, Some, length, option_map};
ghost use Rattle.serde_json.specs.View.{items_view, view};
ghost use Rattle.audit_record.specs.Reading.{IsAnswer, IsKept, IsReading, body_in, node_of, node_in, nodes_in, recorded_in, recorded_of, row_of, value_of};
ghost use Rattle.audit_record.specs.declared.fault.RecordFault.TheVariants as fault;

use crate::fault::RecordFault;
use crate::fields::{digest_at, end_of, items_at, number_at, text_at};
use crate::recorded::{Digests, Recorded};
use chex_base::{NoMemory, NodeId};
use plan_type::{Costs, Row, Rows};
use serde_json::Value;
use std::alloc::Global;

/// The most steps that a bound allows.
const MOST_STEPS: u64 = 1_000_000;

/// The record that bytes are. `NotRecord` and `OldRecord` come exactly where docs/FORMATS.md has
/// them; the other faults never come, but for want of memory.
///
/// A caller hands in at most 16,777,216 bytes, and counts them itself. The cost is linear in them.
pub fn read_record(alloc: Global, bytes: &[u8]) -> Result<Recorded, RecordFault>
    ensures answer { IsAnswer (recorded_of 2 bytes.now) result }
    ensures many { IfOk result (λ recorded. length recorded.costs.rows ≡ length recorded.keys) }
{
    read_version(alloc, bytes, 2)
}

/// The same for a record of version 1.
pub fn read_old(alloc: Global, bytes: &[u8]) -> Result<Recorded, RecordFault>
    ensures answer { IsAnswer (recorded_of 1 bytes.now) result }
    ensures many { IfOk result (λ recorded. length recorded.costs.rows ≡ length recorded.keys) }
{
    read_version(alloc, bytes, 1)
}

/// The record of this version that bytes are.
fn read_version(alloc: Global, bytes: &[u8], version: u64) -> Result<Recorded, RecordFault>
    ensures answer { IsAnswer (recorded_of version bytes.now) result }
    ensures many { IfOk result (λ recorded. length recorded.costs.rows ≡ length recorded.keys) }
{
    let recorded = shape_of(alloc, bytes, version)?;
    if is_kept(&recorded) {
        Ok(recorded)
    } else {
        Err(RecordFault::NotRecord)
    }
}

/// The record of this version that bytes are by their shape.
fn shape_of(alloc: Global, bytes: &[u8], version: u64) -> Result<Recorded, RecordFault>
    ensures { IsReading result (recorded_of version bytes.now) }
{
    let value = read_value(alloc, bytes)?;
    recorded_in(alloc, &value, version)
}

/// Reads a value. `NotRecord` comes exactly where the bytes are not UTF-8 or `serde_json` states no
/// value for them.
fn read_value(alloc: Global, bytes: &[u8]) -> Result<Value, RecordFault>
    ensures value { IfOk result (λ v. value_of bytes.now ≡ Some (view v)) }
    ensures refused { IfErr result (λ e. (e ≡ fault.NoMemory) ⊎ ((e ≡ fault.NotRecord) × (value_of bytes.now ≡ None))) }
{
    match Value::from_slice(alloc, bytes) {
        Ok(value) => Ok(value),
        Err(error) => {
            if error.is_memory() {
                Err(RecordFault::NoMemory)
            } else {
                Err(RecordFault::NotRecord)
            }
        }
    }
}

/// The record of this version in a value.
#[tactic(auto, unfolding(crate::specs::Reading::recorded_in))]
fn recorded_in(alloc: Global, value: &Value, version: u64) -> Result<Recorded, RecordFault>
    ensures { IsReading result (recorded_in version (view value.now)) }
{
    let Some("chex-record") = text_at(value, "format") else {
        return Err(RecordFault::NotRecord);
    };
    let Some(found) = number_at(value, "version") else {
        return Err(RecordFault::NotRecord);
    };
    if found != version {
        return Err(RecordFault::OldRecord { version: found });
    }
    match body_in(alloc, value)? {
        Some(recorded) => Ok(recorded),
        None => Err(RecordFault::NotRecord),
    }
}

/// What has the shape of a record, whatever its format and version.
fn body_in(alloc: Global, value: &Value) -> Result<Option<Recorded>, NoMemory>
    ensures { IfOk result (λ found. found ≡ body_in (view value.now)) }
{
    let Some(allowance) = number_at(value, "steps") else {
        return Ok(None);
    };
    let Some(nodes) = items_at(value, "nodes") else {
        return Ok(None);
    };
    let Some(nodes) = nodes_in(alloc, nodes)? else {
        return Ok(None);
    };
    Ok(Some(Recorded {
        costs: Costs { rows: nodes.rows },
        keys: nodes.keys,
        allowance,
    }))
}

/// The digests and the rows of nodes.
#[derive(Drop)]
struct Nodes {
    keys: Digests,
    rows: Rows,
}

/// The digests and the rows of all nodes, if each item is a node.
fn nodes_in(alloc: Global, items: &[Value]) -> Result<Option<Nodes>, NoMemory>
    ensures { IfOk result (λ found. option_map (λ nodes. (nodes.keys, nodes.rows)) found ≡ nodes_in (items_view items.now)) }
{
    let mut keys = Digests::new(alloc);
    let mut rows = Rows::new(alloc);
    for item in items {
        match node_in(item) {
            None => return Ok(None),
            Some(node) => {
                let key = node.key;
                let row = node.row;
                keys.push(key)?;
                rows.push(row)?;
            }
        }
    }
    Ok(Some(Nodes { keys, rows }))
}

/// A node: the digest of its key, and its row.
#[derive(Drop)]
struct Node {
    key: [u8; 32],
    row: Row,
}

/// The digest and the row that an item has.
fn node_in(item: &Value) -> Option<Node>
    ensures { option_map (λ node. (node.key, node.row)) result ≡ node_in (view item.now) }
{
    let key = digest_at(item, "key")?;
    let row = row_of(item)?;
    Some(Node { key, row })
}

fn row_of(item: &Value) -> Option<Row>
    ensures { result ≡ row_of (view item.now) }
{
    let parent = node_of(number_at(item, "parent")?)?;
    let end = end_of(text_at(item, "end")?)?;
    let steps = number_at(item, "steps")?;
    let bytes = number_at(item, "bytes")?;
    let text = digest_at(item, "text")?;
    Some(Row {
        parent,
        end,
        steps,
        bytes,
        text,
    })
}

fn node_of(number: u64) -> Option<NodeId>
    ensures { result ≡ node_of number }
{
    match u32::try_from(number) {
        Ok(number) => Some(NodeId(number)),
        Err(_) => None,
    }
}

/// Whether the costs are sound, the bound is one, and no row has more steps.
fn is_kept(recorded: &Recorded) -> bool
    ensures { IsTrue result ↔ IsKept recorded.now }
{
    1 <= recorded.allowance
        && recorded.allowance <= MOST_STEPS
        && recorded.costs.sound()
        && are_within(recorded.costs.rows.as_slice(), recorded.allowance)
}

/// Whether no row has more steps than the bound.
fn are_within(rows: &[Row], allowance: u64) -> bool
    ensures { IsTrue result ↔ All (λ row. row.steps ≤ allowance) rows.now }
{
    rows.iter().all(|row| row.steps <= allowance)
}
