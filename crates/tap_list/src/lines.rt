//! The lines of operations.
ghost use Rattle.std.specs.Prelude.{◌≡◌, IfOk, string_bytes};
ghost use Rattle.std.specs.List.{flat_map};
ghost use Rattle.std.specs.Str.{chars};
ghost use Rattle.tap_list.specs.Lines.{line_of};

use chex_base::{NoMemory, NodeId, Text};
use plan_type::Operation;
use std::alloc::Global;

/// The line of an operation, whose bytes are its characters.
pub fn line(alloc: Global, operation: &Operation) -> Result<String, NoMemory>
    ensures bytes { IfOk result (λ line. string_bytes line ≡ line_of operation.now) }
    ensures points { IfOk result (λ line. chars (string_bytes line) ≡ line_of operation.now) }
{
    match operation {
        Operation::Reset => reset(alloc),
        Operation::Compute { node, steps } => compute(alloc, number(node), *steps),
        Operation::Checkpoint { node, blocks } => checkpoint(alloc, number(node), *blocks),
        Operation::Restore { node } => restore(alloc, number(node)),
        Operation::Evict { node } => evict(alloc, number(node)),
    }
}

fn number(node: &NodeId) -> u32
    ensures { result ≡ node.now }
{
    node.0
}

fn reset(alloc: Global) -> Result<String, NoMemory>
    ensures bytes { IfOk result (λ line. string_bytes line ≡ line_of Operation.Reset) }
    ensures points { IfOk result (λ line. chars (string_bytes line) ≡ line_of Operation.Reset) }
{
    Ok(format!(in alloc; "reset\n")?)
}

fn compute(alloc: Global, node: u32, steps: u64) -> Result<String, NoMemory>
    ensures bytes { IfOk result (λ line. string_bytes line ≡ line_of (Operation.Compute node steps)) }
    ensures points { IfOk result (λ line. chars (string_bytes line) ≡ line_of (Operation.Compute node steps)) }
{
    Ok(format!(in alloc; "compute {node} {steps}\n")?)
}

fn checkpoint(alloc: Global, node: u32, blocks: u32) -> Result<String, NoMemory>
    ensures bytes { IfOk result (λ line. string_bytes line ≡ line_of (Operation.Checkpoint node blocks)) }
    ensures points { IfOk result (λ line. chars (string_bytes line) ≡ line_of (Operation.Checkpoint node blocks)) }
{
    Ok(format!(in alloc; "checkpoint {node} {blocks}\n")?)
}

fn restore(alloc: Global, node: u32) -> Result<String, NoMemory>
    ensures bytes { IfOk result (λ line. string_bytes line ≡ line_of (Operation.Restore node)) }
    ensures points { IfOk result (λ line. chars (string_bytes line) ≡ line_of (Operation.Restore node)) }
{
    Ok(format!(in alloc; "restore {node}\n")?)
}

fn evict(alloc: Global, node: u32) -> Result<String, NoMemory>
    ensures bytes { IfOk result (λ line. string_bytes line ≡ line_of (Operation.Evict node)) }
    ensures points { IfOk result (λ line. chars (string_bytes line) ≡ line_of (Operation.Evict node)) }
{
    Ok(format!(in alloc; "evict {node}\n")?)
}

/// The lines of operations, one after another.
pub fn transcript(alloc: Global, operations: &[Operation]) -> Result<Text, NoMemory>
    ensures { IfOk result (λ text. text ≡ flat_map line_of operations.now) }
{
    let mut text = Text::new(alloc);
    for operation in operations {
        let line = line(alloc, operation)?;
        text.push_str(&line)?;
    }
    Ok(text)
}
