//! The names that cells read, or what is wrong with their trees.

use crate::fault::Fault;
use crate::report::Report;
use crate::trees::module_of;
use chex_base::Text;
use star_resolver::resolve;
use star_syntax::Cell;
use std::alloc::Global;

/// The names that the cell of a source reads, or what is wrong.
pub fn answer(alloc: Global, source: &str) -> Result<String, Fault> {
    let text = Text::from_str(alloc, source)?;
    match resolve(alloc, text, module_of(alloc, source)?) {
        Ok(cell) => reads(alloc, &cell),
        Err(fault) => Ok(format!(in alloc; "{fault}")?),
    }
}

fn reads(alloc: Global, cell: &Cell) -> Result<String, Fault> {
    let mut out = String::from_str(alloc, "reads")?;
    for name in cell.inputs().as_slice() {
        out.push(' ')?;
        out.push_str(name.as_str())?;
    }
    Ok(out)
}

/// A function that reads the inputs `d` and `r`, and a statement after it.
const FUNCTION: &str = "def f(a, b, c=input('d')):\n for i in x:\n  return input('r')\npass\n";

/// A copy of the cell of that function. Its source is said to be `def f`.
fn function_cell(alloc: Global) -> Result<Cell, Fault> {
    let source = Text::from_str(alloc, "def f")?;
    let cell = resolve(alloc, source, module_of(alloc, FUNCTION)?)?;
    Ok(cell.copy(alloc)?)
}

/// A cell gives back its source, its tree, its names and its functions, and so does a copy of it.
pub fn check(alloc: Global, report: &mut Report) -> Result<(), Fault> {
    let cell = function_cell(alloc)?;
    report.note("a cell's source", cell.source().as_str() == "def f")?;
    report.note(
        "a cell's tree",
        cell.module().statements.as_slice().len() == 2,
    )?;
    report.note("a cell's names", cell.inputs().as_slice().len() == 2)?;
    report.note("a cell's function", is_f(&cell))?;
    report.note("a cell's functions", cell.function(1).is_none())
}

/// The first function of the cell is called `f`.
fn is_f(cell: &Cell) -> bool {
    match cell.function(0) {
        Some(function) => function.name.as_str() == "f",
        None => false,
    }
}
