//! The trees of sources, and the tokens that the grammar gives them.

use crate::fault::Fault;
use crate::parser::notation::row_of;
use crate::report::Report;
use chex_base::{NodeId, Text};
use sqlite_items::Items;
use star_lexer::lex;
use star_parser::parse;
use star_syntax::{Cell, Cells, Module, Names, Program, Statements, spell};
use std::alloc::Global;

/// The tree of a source.
pub fn module_of(alloc: Global, source: &str) -> Result<Module, Fault> {
    if source.len() > 65_536 {
        return Err(Fault::Unread);
    }
    let tokens = lex(alloc, source)?;
    Ok(parse(alloc, tokens.as_slice())?)
}

/// The tokens that a tree is spelled with.
fn words(alloc: Global, tree: &Module) -> Result<Text, Fault> {
    let tokens = spell(alloc, tree)?;
    Ok(row_of(alloc, tokens.as_slice())?)
}

/// The same tree, held once more.
fn shared(tree: &Module) -> Result<Module, Fault> {
    Ok(Module {
        statements: tree.statements.share()?,
    })
}

/// The tokens that the tree of a source is spelled with, and its copy too.
pub fn spelled(alloc: Global, source: &str) -> Result<String, Fault> {
    let tree = module_of(alloc, source)?;
    let found = words(alloc, &tree)?;
    if is_spelled(alloc, &shared(&tree)?, found.as_str())? {
        Ok(String::from_str(alloc, found.as_str())?)
    } else {
        Ok(String::from_str(alloc, "the copy is another tree")?)
    }
}

/// Whether a tree is spelled with these tokens.
fn is_spelled(alloc: Global, tree: &Module, wanted: &str) -> Result<bool, Fault> {
    let found = words(alloc, tree)?;
    Ok(found.as_str() == wanted)
}

/// A copy of a cell that is made of its parts, and not read; it has no statements.
fn empty_cell(alloc: Global) -> Result<Cell, Fault> {
    let source = Text::from_str(alloc, "# no statement")?;
    let module = Module {
        statements: Statements::new(alloc, Items::new(alloc))?,
    };
    let names = Names::from_vec(Vec::new(alloc));
    Ok(Cell::new(source, module, names).copy(alloc)?)
}

/// A cell gives back what it was made of, and a program its cells by node.
pub fn check(alloc: Global, report: &mut Report) -> Result<(), Fault> {
    let cell = empty_cell(alloc)?;
    report.note(
        "an empty cell's source",
        cell.source().as_str() == "# no statement",
    )?;
    report.note("an empty cell's names", cell.inputs().as_slice().len() == 0)?;
    report.note(
        "an empty cell's tree",
        cell.module().statements.as_slice().len() == 0,
    )?;
    report.note("an empty cell's functions", cell.function(0).is_none())?;
    check_program(alloc, report)
}

fn check_program(alloc: Global, report: &mut Report) -> Result<(), Fault> {
    let program = Program {
        cells: Cells::from_vec(vec![in alloc; empty_cell(alloc)?]?),
    };
    report.note("a program's node 0", program.cell(NodeId(0)).is_none())?;
    report.note("a program's node 1", program.cell(NodeId(1)).is_some())?;
    report.note("a program's node 2", program.cell(NodeId(2)).is_none())
}
