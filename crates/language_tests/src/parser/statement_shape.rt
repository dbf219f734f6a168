//! The shapes of statements, each with its line in front.

use crate::parser::expression_shape::{close, comma_if, expr, exprs, named, open, word};
use chex_base::{NoMemory, Text};
use star_syntax::{Block, Branch, Def, Line, Module, Small, SmallKind, Statement};
use std::alloc::Global;

/// Begins the node of a statement of this line.
fn open_at(alloc: Global, out: &mut Text, line: u32, kind: &str) -> Result<(), NoMemory> {
    out.push_str(format!(in alloc; " {line}:({kind}")?.as_str())
}

/// Adds the shape of a small statement.
fn small(alloc: Global, out: &mut Text, tree: &Small) -> Result<(), NoMemory> {
    let line = tree.line;
    match &tree.kind {
        SmallKind::Return(values) => {
            open_at(alloc, out, line, "Return")?;
            exprs(alloc, out, values.as_slice())?;
        }
        SmallKind::Break => open_at(alloc, out, line, "Break")?,
        SmallKind::Continue => open_at(alloc, out, line, "Continue")?,
        SmallKind::Pass => open_at(alloc, out, line, "Pass")?,
        SmallKind::Assign(targets, values) => {
            open_at(alloc, out, line, "Assign")?;
            exprs(alloc, out, targets.as_slice())?;
            word(out, "=")?;
            exprs(alloc, out, values.as_slice())?;
        }
        SmallKind::Augmented(target, op, values) => {
            open_at(alloc, out, line, "Augmented")?;
            expr(alloc, out, target)?;
            word(out, format!(in alloc; "{op:?}")?.as_str())?;
            exprs(alloc, out, values.as_slice())?;
        }
        SmallKind::Tests(values) => {
            open_at(alloc, out, line, "Tests")?;
            exprs(alloc, out, values.as_slice())?;
        }
    }
    close(out)
}

/// Adds the shapes of the small statements of a line, and `;` where a semicolon stands at the end.
fn smalls(alloc: Global, out: &mut Text, tree: &Line) -> Result<(), NoMemory> {
    for one in tree.smalls.as_slice() {
        small(alloc, out, one)?;
    }
    if tree.semicolon {
        word(out, ";")?;
    }
    Ok(())
}

/// Adds the shape of a statement.
#[cycle(shape)]
fn statement(alloc: Global, out: &mut Text, tree: &Statement) -> Result<(), NoMemory> {
    match tree {
        Statement::Line(line) => {
            open(out, "Line")?;
            smalls(alloc, out, line)?;
        }
        Statement::If(at, first, more, other) => {
            open_at(alloc, out, *at, "If")?;
            branch(alloc, out, first)?;
            branches(alloc, out, more.as_slice())?;
            otherwise(alloc, out, other)?;
        }
        Statement::For(at, targets, over, body) => {
            open_at(alloc, out, *at, "For")?;
            exprs(alloc, out, targets.as_slice())?;
            word(out, "in")?;
            exprs(alloc, out, over.as_slice())?;
            block(alloc, out, body)?;
        }
        Statement::Def(at, def) => {
            open_at(alloc, out, *at, "Def")?;
            header(alloc, out, def)?;
            block(alloc, out, &def.body)?;
        }
    }
    close(out)
}

/// Adds the name and the parameters of a function.
fn header(alloc: Global, out: &mut Text, def: &Def) -> Result<(), NoMemory> {
    word(out, def.name.as_str())?;
    for name in def.required.as_slice() {
        word(out, name.as_str())?;
    }
    named(alloc, out, def.defaults.as_slice())?;
    comma_if(out, def.comma)
}

/// Adds the shapes of statements, in order.
#[cycle(shape)]
fn statements(alloc: Global, out: &mut Text, trees: &[Statement]) -> Result<(), NoMemory> {
    for tree in trees {
        statement(alloc, out, tree)?;
    }
    Ok(())
}

/// Adds the shape of a block.
#[cycle(shape)]
fn block(alloc: Global, out: &mut Text, tree: &Block<Statement>) -> Result<(), NoMemory> {
    match tree {
        Block::Inline(line) => {
            open(out, "Inline")?;
            smalls(alloc, out, line)?;
        }
        Block::Indented(all) => {
            open(out, "Indented")?;
            statements(alloc, out, all.as_slice())?;
        }
    }
    close(out)
}

/// Adds the shapes of a condition and its block.
#[cycle(shape)]
fn branch(alloc: Global, out: &mut Text, tree: &Branch<Statement>) -> Result<(), NoMemory> {
    expr(alloc, out, &tree.condition)?;
    block(alloc, out, &tree.body)
}

/// Adds the shapes of the branches after `elif`, in order.
#[cycle(shape)]
fn branches(alloc: Global, out: &mut Text, trees: &[Branch<Statement>]) -> Result<(), NoMemory> {
    for tree in trees {
        open(out, "Elif")?;
        branch(alloc, out, tree)?;
        close(out)?;
    }
    Ok(())
}

/// Adds the shape of what stands after `else`, if anything does.
#[cycle(shape)]
fn otherwise(
    alloc: Global,
    out: &mut Text,
    tree: &Option<Block<Statement>>,
) -> Result<(), NoMemory> {
    match tree {
        Some(body) => {
            open(out, "Else")?;
            block(alloc, out, body)?;
            close(out)
        }
        None => Ok(()),
    }
}

/// The shapes of the statements of a cell.
pub fn shape_of(alloc: Global, tree: &Module) -> Result<Text, NoMemory> {
    let mut out = Text::new(alloc);
    statements(alloc, &mut out, tree.statements.as_slice())?;
    Ok(out)
}
