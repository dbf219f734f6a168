//! Runs one cell.
ghost use Rattle.std.specs.Prelude.{◌≡◌, ◌≤◌, ◌<◌, length, None, IsTrue, IfOk, OnErr, OnOk};
ghost use Rattle.std.specs.Option.{is_some};
ghost use Rattle.star_meaning.specs.Cells.{statements_from};
ghost use Rattle.star_meaning.specs.Statements as spec;
ghost use Rattle.star_meaning.specs.Validity.{IsValid, after, numbered_setting, ran_at};
ghost use Rattle.star_run.specs.Halts.{Halts};
ghost use Rattle.star_run.specs.Own.{Entered, NumbersFrom, OwnGoes, Tells, end_of};
ghost use Rattle.star_run.specs.Running.{world};
ghost use Rattle.star_syntax.specs.Cells.{numbered};

use crate::calls::call_to;
use crate::given::Given;
use crate::halt::Halt;
use crate::level::Level;
use crate::running::Run;
use chex_base::{Inputs, NoMemory, NodeId, Text};
use heap_store::Machine;
use star_meaning::{End, Flow, Ran};
use star_syntax::{Program, Statement};
use std::alloc::Global;
use std::mem;

/// How many functions may be active at once.
const MOST_CALLS: usize = 32;

/// Runs the cell of a node over the machine that earlier cells left, with so many steps allowed: at
/// most 1,000,000, of which entering the cell takes 1. It answers how the cell ended, what it
/// wrote, and its steps; the machine is then the one after the cell. Where memory is wanting the
/// machine is valid, and nothing else is known of it. `docs/LANGUAGE.md` says what cells do.
///
/// The time is linear in the steps, but for the look-ups of names.
pub fn run_cell(
    alloc: Global,
    machine: &mut Machine,
    program: &Program,
    node: NodeId,
    inputs: &Inputs,
    allowance: u64,
) -> Result<Ran, NoMemory>
    requires valid { IsValid program.now machine.old }
    requires known { IsTrue (is_some (numbered program.now.cells node)) }
    requires few { length machine.old.ran < 64 }
    requires allowed { (1 ≤ allowance) × (allowance ≤ 1000000) }
    ensures ran { IfOk result (λ ran. ran ≡ ran_at program.now machine.old node inputs.now allowance) }
    ensures state { OnOk result (machine.new ≡ after program.now machine.old node inputs.now allowance) }
    ensures valid { IsValid program.now machine.new }
{
    let Some(cell) = program.cell(node) else {
        unreachable!()
    };
    machine.enter(node)?;
    let _nodes = machine.ran();
    let entered = mem::replace(machine, Machine::new(alloc));
    let mut run = Run::begin(alloc, entered, allowance - 1);
    let statements = cell.module().statements.as_slice();
    let outcome = run_statements(alloc, program, node, inputs, &mut run, statements);
    let (reached, out, left) = run.end();
    *machine = reached;
    ended(outcome, out, allowance.saturating_sub(left))
}

/// Runs the statements of the cell, with no function active.
fn run_statements(
    alloc: Global,
    program: &Program,
    node: NodeId,
    inputs: &Inputs,
    run: &mut Run,
    statements: &[Statement],
) -> Result<Flow, Halt>
    requires entered { Entered node run.old.machine.ran }
    requires numbers { NumbersFrom program.now node 0 statements.now }
    ensures gives { Halts (statements_from (numbered_setting program.now node inputs.now) (spec.call_to (numbered_setting program.now node inputs.now) 32) 0 statements.now (world run.old)) result (world run.new) }
    ensures goes { OwnGoes program.now run.old run.new }
{
    let level = Level {
        alloc,
        given: Given {
            program,
            node,
            inputs,
        },
        depth: MOST_CALLS,
        call: call_to,
    };
    level.own_statements(run, statements)
}

/// What a cell did, by what its statements answer.
fn ended(outcome: Result<Flow, Halt>, out: Text, steps: u64) -> Result<Ran, NoMemory>
    ensures ok { IfOk result (λ ran. Tells outcome out steps ran) }
    ensures err { OnErr result (end_of outcome ≡ None) }
{
    let end = match outcome {
        Ok(_) => End::Done,
        Err(Halt::Failed(failure, line)) => End::Failed { failure, line },
        Err(Halt::NoMemory) => return Err(NoMemory),
    };
    Ok(Ran { end, out, steps })
}
