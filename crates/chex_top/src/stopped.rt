//! What is said where a run of versions stops.
ghost use Rattle.std.specs.Prelude.{◌≡◌, IfOk, string_bytes};
ghost use Rattle.std.specs.Fmt.{decimal};
ghost use Rattle.hex.specs.Hex.{encode_lower};
ghost use Rattle.chex_top.specs.Refusals.{nodes_line};
ghost use Rattle.chex_top.specs.Stopped as spec;

use crate::refusal::nodes_line;
use chex_base::{NoMemory, NodeId, Status};
use plan_type::Reach;
use replayer::Difference;
use shared_run::RunFault;
use std::alloc::Global;

/// The status with which a run ends that stops so.
pub fn status(fault: &RunFault) -> Status
    ensures { result ≡ spec.status_of fault.now }
{
    match fault {
        RunFault::TooManyNodes { .. } => Status::TooMany,
        RunFault::KernelFailed => Status::KernelFault,
        RunFault::StoreFailed => Status::StoreFault,
        RunFault::Damaged { .. } => Status::Damaged,
        RunFault::Differs { .. } => Status::Differs,
        RunFault::NoMemory => Status::NoMemory,
    }
}

/// The line that is written where a run stops.
#[tactic(auto, unfolding(crate::specs::Stopped::line_of))]
pub fn line(alloc: Global, fault: &RunFault) -> Result<String, NoMemory>
    ensures { IfOk result (λ line. string_bytes line ≡ spec.line_of fault.now) }
{
    match fault {
        RunFault::TooManyNodes { count } => nodes_line(alloc, *count),
        RunFault::KernelFailed => Ok(String::from_str(alloc, "error: kernel failed\n")?),
        RunFault::StoreFailed => Ok(String::from_str(alloc, "error: store failed\n")?),
        RunFault::Damaged { node } => damaged_line(alloc, number(node)),
        RunFault::Differs {
            node,
            difference,
            ..
        } => difference_line(alloc, number(node), difference),
        RunFault::NoMemory => Ok(String::new(alloc)),
    }
}

fn number(node: &NodeId) -> u32
    ensures { result ≡ node.now }
{
    node.0
}

fn damaged_line(alloc: Global, node: u32) -> Result<String, NoMemory>
    ensures { IfOk result (λ line. string_bytes line ≡ spec.damaged_line node) }
{
    Ok(format!(in alloc; "error: damaged snapshot of node {node}\n")?)
}

/// The line for two rows of a node that differ.
fn difference_line(alloc: Global, node: u32, difference: &Difference) -> Result<String, NoMemory>
    ensures { IfOk result (λ line. string_bytes line ≡ spec.difference_line node difference.now) }
{
    match difference {
        Difference::End { recorded, measured } => {
            field_line(alloc, node, "end", end_name(*recorded), end_name(*measured))
        }
        Difference::Steps { recorded, measured } => {
            numbers_line(alloc, node, "steps", *recorded, *measured)
        }
        Difference::Bytes { recorded, measured } => {
            numbers_line(alloc, node, "bytes", *recorded, *measured)
        }
        Difference::Text { recorded, measured } => digests_line(alloc, node, recorded, measured),
    }
}

/// How the end of a node's cell is named.
#[tactic(auto, unfolding(crate::specs::Stopped::end_name))]
fn end_name(end: Reach) -> &'static str
    ensures { result.now ≡ spec.end_name end }
{
    match end {
        Reach::Done => "done",
        Reach::Failed => "failed",
        Reach::Unreached => "unreached",
    }
}

fn field_line(
    alloc: Global,
    node: u32,
    name: &str,
    recorded: &str,
    measured: &str,
) -> Result<String, NoMemory>
    ensures { IfOk result (λ line. string_bytes line ≡ spec.field_line node name.now recorded.now measured.now) }
{
    Ok(format!(in alloc; "error: node {node} {name} recorded {recorded} measured {measured}\n")?)
}

fn numbers_line(
    alloc: Global,
    node: u32,
    name: &str,
    recorded: u64,
    measured: u64,
) -> Result<String, NoMemory>
    ensures { IfOk result (λ line. string_bytes line ≡ spec.field_line node name.now (decimal recorded) (decimal measured)) }
{
    Ok(format!(in alloc; "error: node {node} {name} recorded {recorded} measured {measured}\n")?)
}

fn digests_line(
    alloc: Global,
    node: u32,
    recorded: &[u8; 32],
    measured: &[u8; 32],
) -> Result<String, NoMemory>
    ensures { IfOk result (λ line. string_bytes line ≡ spec.difference_line node (Difference.Text recorded.now measured.now)) }
{
    let front = hex::encode(alloc, recorded.as_slice())?;
    let back = hex::encode(alloc, measured.as_slice())?;
    field_line(alloc, node, "text", front.as_str(), back.as_str())
}
