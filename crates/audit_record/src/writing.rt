//! Writes a record.
ghost use Rattle.std.specs.Prelude.{◌≡◌, ◌≤◌, ◌<◌, ◌^◌, All, IfOk, Ok, OnOk, length, map, zip, encode_utf8_all, string_bytes};
ghost use Rattle.std.specs.List.{AllByRecursion};
ghost use Rattle.hex.specs.Hex.{encode_lower};
ghost use Rattle.serde_json.specs.View.{view};
ghost use Rattle.plan_type.specs.Costs.{IsSound};
ghost use Rattle.audit_record.specs.Digests.{digests_of};
ghost use Rattle.audit_record.specs.Record.{IsDigest, IsWide, end_text, node_data, record_bytes, record_data};
ghost use Rattle.audit_record.specs.Reading.{recorded_of};

use crate::digesting::digests_of;
use chex_base::{NoMemory, NodeId, Text};
use exec_tree::Forest;
use plan_type::{Costs, Reach, Row};
use serde_json::{Value, json};
use std::alloc::Global;

/// The record of a forest whose nodes have these costs under this step bound: one line of JSON,
/// with its newline, as docs/FORMATS.md has it. What `read_record` makes of it are the costs, the
/// digests of the forest, and the bound again.
///
/// It takes time linear in the sources and inputs of the nodes.
pub fn write_record(
    alloc: Global,
    forest: &Forest,
    costs: &Costs,
    allowance: u64,
) -> Result<Text, NoMemory>
    requires many { length costs.now.rows ≡ length forest.now.nodes }
    requires sound { IsSound costs.now }
    requires allowance { (1 ≤ allowance) × (allowance ≤ 1000000) }
    requires within { All (λ row. row.steps ≤ allowance) costs.now.rows }
    ensures bytes { IfOk result (λ text. encode_utf8_all text ≡ record_bytes (digests_of forest.now) costs.now.rows allowance) }
    ensures read { IfOk result (λ text. recorded_of 2 (encode_utf8_all text) ≡ Ok (record { costs = costs.now; keys = digests_of forest.now; allowance = allowance })) }
{
    let keys = digests_of(alloc, forest)?;
    let text = record_text(alloc, keys.as_slice(), costs.rows.as_slice(), allowance)?;
    Text::from_str(alloc, text.as_str())
}

/// The text of these digests and rows.
#[tactic(auto, unfolding(crate::specs::Record::record_bytes), using(crate::proofs::RecordLemmas::no_float))]
fn record_text(
    alloc: Global,
    keys: &[[u8; 32]],
    rows: &[Row],
    allowance: u64,
) -> Result<String, NoMemory>
    requires { length rows.now ≡ length keys.now }
    ensures bytes { IfOk result (λ text. string_bytes text ≡ record_bytes keys.now rows.now allowance) }
    ensures read { IfOk result (λ text. recorded_of 2 (string_bytes text) ≡ Ok (record { costs = record { rows = rows.now }; keys = keys.now; allowance = allowance })) }
{
    let value = record_value(alloc, keys, rows, allowance)?;
    let mut text = value.to_string(alloc)?;
    text.push('\n')?;
    Ok(text)
}

#[tactic(auto, unfolding(crate::specs::Record::record_data))]
fn record_value(
    alloc: Global,
    keys: &[[u8; 32]],
    rows: &[Row],
    allowance: u64,
) -> Result<Value, NoMemory>
    requires { length rows.now ≡ length keys.now }
    ensures value { IfOk result (λ value. view value ≡ record_data 2 keys.now rows.now allowance) }
    ensures wide { OnOk result (AllByRecursion IsWide (zip keys.now rows.now)) }
{
    let nodes = Value::Array(node_values(alloc, keys, rows)?);
    Ok(
        json!(in alloc; {"format": "chex-record", "nodes": nodes, "steps": allowance, "version": 2u64})?,
    )
}

fn node_values(alloc: Global, keys: &[[u8; 32]], rows: &[Row]) -> Result<Vec<Value>, NoMemory>
    requires { length rows.now ≡ length keys.now }
    ensures values { IfOk result (λ values. map view values.items ≡ map node_data (zip keys.now rows.now)) }
    ensures wide { OnOk result (AllByRecursion IsWide (zip keys.now rows.now)) }
{
    let mut values = Vec::new(alloc);
    for (place, row) in rows.iter().enumerate() {
        values.push(node_value(alloc, &keys[place], row)?)?;
    }
    Ok(values)
}

#[tactic(auto, unfolding(crate::specs::Record::node_data))]
fn node_value(alloc: Global, key: &[u8; 32], row: &Row) -> Result<Value, NoMemory>
    ensures value { IfOk result (λ value. view value ≡ node_data (key.now, row.now)) }
    ensures wide { OnOk result (IsWide (key.now, row.now)) }
{
    let key = digits(alloc, key)?;
    let text = digits(alloc, &row.text)?;
    let end = end_text(row.end);
    let parent = number_of(row.parent);
    let bytes = row.bytes;
    let steps = row.steps;
    Ok(
        json!(in alloc; {"bytes": bytes, "end": end, "key": key.as_str(), "parent": parent, "steps": steps, "text": text.as_str()})?,
    )
}

/// The digits of a digest.
fn digits(alloc: Global, digest: &[u8; 32]) -> Result<String, NoMemory>
    ensures digits { IfOk result (λ text. string_bytes text ≡ encode_lower digest.now) }
    ensures wide { OnOk result (IsDigest digest.now) }
{
    Ok(hex::encode(alloc, digest.as_slice())?)
}

fn number_of(node: NodeId) -> u64
    ensures value { result ≡ node }
    ensures small { result < 2 ^ 32 }
{
    u64::from(node.0)
}

/// How an end is written.
fn end_text(end: Reach) -> &'static str
    ensures { result.now ≡ end_text end }
{
    match end {
        Reach::Done => "done",
        Reach::Failed => "failed",
        Reach::Unreached => "unreached",
    }
}
