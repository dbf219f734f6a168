//! Rows: steps, the sources of the cells, what the version writes, and, where a fourth field stands,
//! its inputs. Tabs stand between the fields, and spaces between the steps.

use crate::fault::Fault;
use crate::inputs::inputs_of;
use crate::sources::{lines, program_of};
use crate::versions::{AMPLE, add_text, fresh, run, run_last};
use chex_base::{Inputs, NodeId};
use star_meaning::{End, Ran};
use star_syntax::Program;
use star_value::Failure;
use std::alloc::Global;

/// A cell that takes more steps is not run again with fewer.
const FEW: u64 = 100_000;

/// What the rows of a table say.
#[derive(Clone, Copy)]
pub enum Table {
    /// The steps are those that each cell of the version takes.
    Versions,
    /// The steps are those that the one cell may take, and it takes them all.
    Allowed,
}

/// A row of a table.
#[derive(Clone, Copy)]
struct Row<'a> {
    steps: &'a str,
    cells: &'a str,
    text: &'a str,
    inputs: &'a str,
}

fn row_of(line: &str) -> Option<Row<'_>> {
    let mut fields = line.split('\t');
    let steps = fields.next()?;
    let cells = fields.next()?;
    let text = fields.next()?;
    let inputs = fields.next().unwrap_or("");
    Some(Row {
        steps,
        cells,
        text,
        inputs,
    })
}

/// What differs from a row, if anything does.
pub fn difference(alloc: Global, line: &str, kind: Table) -> Result<Option<String>, Fault> {
    let Some(row) = row_of(line) else {
        return Err(Fault::Unread);
    };
    match kind {
        Table::Versions => version_difference(alloc, row),
        Table::Allowed => allowed_difference(alloc, row),
    }
}

/// What differs in a version. Each cell is run with as many steps as a cell may take; then, over the
/// cells before it, with just so many as it takes, where it does the same, and with one step less,
/// at which it fails with StepLimit and writes no more than before.
fn version_difference(alloc: Global, row: Row<'_>) -> Result<Option<String>, Fault> {
    let program = program_of(alloc, row.cells)?;
    let inputs = inputs_of(alloc, row.inputs)?;
    let (steps, text) = whole(alloc, &program, &inputs)?;
    let expected = lines(alloc, row.text)?;
    if steps.as_str() != row.steps || text.as_str() != expected.as_str() {
        return Ok(Some(format!(in alloc; "{steps} steps, {text:?}")?));
    }
    limits(alloc, &program, &inputs, row.steps)
}

/// What differs in a cell that may take so many steps and takes them all.
fn allowed_difference(alloc: Global, row: Row<'_>) -> Result<Option<String>, Fault> {
    let Ok(allowance) = row.steps.parse::<u64>() else {
        return Err(Fault::Unread);
    };
    let program = program_of(alloc, row.cells)?;
    let inputs = inputs_of(alloc, row.inputs)?;
    let ran = run_last(alloc, &program, &inputs, 0, allowance)?;
    let mut text = String::new(alloc);
    add_text(alloc, &mut text, 1, &ran)?;
    let expected = lines(alloc, row.text)?;
    if ran.steps != allowance || text.as_str() != expected.as_str() {
        let steps = ran.steps;
        return Ok(Some(format!(in alloc; "{steps} steps, {text:?}")?));
    }
    Ok(None)
}

/// The steps of the cells of a version and the text that it writes, up to the first cell that fails.
fn whole(alloc: Global, program: &Program, inputs: &Inputs) -> Result<(String, String), Fault> {
    let mut machine = fresh(alloc, program);
    let mut steps = String::new(alloc);
    let mut text = String::new(alloc);
    let mut node: u32 = 0;
    for _cell in program.cells.as_slice() {
        node = node.saturating_add(1);
        let ran = run(alloc, &mut machine, program, inputs, NodeId(node), AMPLE)?;
        add_steps(alloc, &mut steps, node, ran.steps)?;
        add_text(alloc, &mut text, node, &ran)?;
        if ran.end != End::Done {
            break;
        }
    }
    Ok((steps, text))
}

fn add_steps(alloc: Global, all: &mut String, node: u32, steps: u64) -> Result<(), Fault> {
    if node > 1 {
        all.push_str(" ")?;
    }
    let number = format!(in alloc; "{steps}")?;
    all.push_str(number.as_str())?;
    Ok(())
}

/// What differs where a cell has just enough steps, or one too few.
fn limits(
    alloc: Global,
    program: &Program,
    inputs: &Inputs,
    steps: &str,
) -> Result<Option<String>, Fault> {
    let mut before: u32 = 0;
    for word in steps.split(' ') {
        let Ok(count) = word.parse::<u64>() else {
            return Err(Fault::Unread);
        };
        if count <= FEW {
            let ample = run_last(alloc, program, inputs, before, AMPLE)?;
            if !is_exact(alloc, program, inputs, before, &ample)? {
                return Ok(Some(format!(in alloc; "{count} steps are not enough")?));
            }
            if !is_short(alloc, program, inputs, before, &ample)? {
                return Ok(Some(format!(in alloc; "fewer than {count} steps are enough")?));
            }
        }
        before = before.saturating_add(1);
    }
    Ok(None)
}

/// Whether a cell does the same with just so many steps as it takes.
fn is_exact(
    alloc: Global,
    program: &Program,
    inputs: &Inputs,
    before: u32,
    ample: &Ran,
) -> Result<bool, Fault> {
    let exact = run_last(alloc, program, inputs, before, ample.steps)?;
    Ok(
        exact.end == ample.end
            && exact.steps == ample.steps
            && exact.out.as_str() == ample.out.as_str(),
    )
}

/// Whether a cell fails with StepLimit where it has one step less, and writes no more.
fn is_short(
    alloc: Global,
    program: &Program,
    inputs: &Inputs,
    before: u32,
    ample: &Ran,
) -> Result<bool, Fault> {
    if ample.steps <= 1 {
        return Ok(true);
    }
    let allowance = ample.steps - 1;
    let short = run_last(alloc, program, inputs, before, allowance)?;
    let End::Failed { failure, line: _ } = short.end else {
        return Ok(false);
    };
    Ok(
        failure == Failure::StepLimit
            && short.steps == allowance
            && ample.out.as_str().starts_with(short.out.as_str()),
    )
}
