//! Versions that run, cell after cell.
ghost use Rattle.star_meaning.specs.Validity.{IsValid};

use crate::fault::Fault;
use chex_base::{Inputs, NodeId};
use heap_store::Machine;
use star_meaning::{End, Ran};
use star_run::run_cell;
use star_syntax::Program;
use std::alloc::Global;

/// As many steps as a cell may take.
pub const AMPLE: u64 = 1_000_000;

/// A machine before any cell.
pub fn fresh(alloc: Global, program: &Program) -> Machine
    ensures { IsValid program.now result }
{
    let machine = Machine::new(alloc);
    let _nodes = machine.ran();
    machine
}

/// Runs the cell of a node, if there is one and the steps are as many as a cell may take.
pub fn run(
    alloc: Global,
    machine: &mut Machine,
    program: &Program,
    inputs: &Inputs,
    node: NodeId,
    allowance: u64,
) -> Result<Ran, Fault>
    requires { IsValid program.now machine.old }
    ensures { IsValid program.now machine.new }
{
    let Some(_cell) = program.cell(node) else {
        return Err(Fault::Unread);
    };
    if machine.ran().len() >= 64 || allowance == 0 || allowance > AMPLE {
        return Err(Fault::Unread);
    }
    Ok(run_cell(alloc, machine, program, node, inputs, allowance)?)
}

/// Runs the first cells of a version with ample steps, and the next one with so many.
pub fn run_last(
    alloc: Global,
    program: &Program,
    inputs: &Inputs,
    before: u32,
    allowance: u64,
) -> Result<Ran, Fault> {
    let mut machine = fresh(alloc, program);
    for place in 0..before {
        let _ran = run(
            alloc,
            &mut machine,
            program,
            inputs,
            NodeId(place + 1),
            AMPLE,
        )?;
    }
    let node = NodeId(before.saturating_add(1));
    run(alloc, &mut machine, program, inputs, node, allowance)
}

/// Adds what a cell writes, and after a failure its line.
pub fn add_text(alloc: Global, text: &mut String, node: u32, ran: &Ran) -> Result<(), Fault> {
    text.push_str(ran.out.as_str())?;
    if let End::Failed { failure, line } = ran.end {
        let told = format!(in alloc; "error: {failure:?} at cell {node} line {line}\n")?;
        text.push_str(told.as_str())?;
    }
    Ok(())
}
