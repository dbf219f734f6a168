//! The text of a plan: the line `chex-plan 1`, and then a line for each entry, as
//! `DEPTH NODE hold` or `DEPTH NODE free`, parents first and lists in order.
ghost use Rattle.std.specs.Prelude.{◌≡◌, ◌≤◌, ◌+◌, ◌++◌, OnOk, IfOk, string_bytes};
ghost use Rattle.std.specs.Str.{chars};
ghost use Rattle.plan_type.specs.PlanText.{flag_of, line_of, lines_at, text_of, depth_of, IsWritable};

use crate::plan::Plan;
use chex_base::{NoMemory, NodeId, Text};
use std::alloc::Global;

/// The text of a plan (docs/FORMATS.md); its length is linear in the number of entries.
pub fn write_plan(alloc: Global, plan: &Plan) -> Result<Text, NoMemory>
    requires { IsWritable plan.now }
    ensures { IfOk result (λ text. text ≡ text_of plan.now) }
{
    let mut text = Text::new(alloc);
    text.push_str("chex-plan 1\n")?;
    write_entries(alloc, &mut text, plan, 1)?;
    Ok(text)
}

/// Adds the lines of a plan whose entries stand at this depth.
fn write_entries(alloc: Global, text: &mut Text, plan: &Plan, depth: u32) -> Result<(), NoMemory>
    requires { depth + depth_of plan.now ≤ 10000 }
    ensures { OnOk result (text.new ≡ text.old ++ lines_at plan.now depth) }
{
    for entry in plan.entries.as_slice() {
        text.push_str(&line(alloc, depth, entry.child, entry.hold)?)?;
        write_entries(alloc, text, &entry.rest, depth + 1)?;
    }
    Ok(())
}

/// One line.
fn line(alloc: Global, depth: u32, node: NodeId, hold: bool) -> Result<String, NoMemory>
    ensures { IfOk result (λ line. chars (string_bytes line) ≡ line_of depth node hold) }
{
    let number = number(node);
    let flag = flag(hold);
    Ok(format!(in alloc; "{depth} {number} {flag}\n")?)
}

fn number(node: NodeId) -> u32
    ensures { result ≡ node }
{
    node.0
}

/// An entry's flag, which speaks of its parent.
fn flag(hold: bool) -> &'static str
    ensures { result.now ≡ flag_of hold }
{
    if hold { "hold" } else { "free" }
}
