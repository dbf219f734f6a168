//! The places of statements.
ghost use Rattle.star_resolver.specs.Outcomes.{Gives, each, stands};
ghost use Rattle.star_resolver.specs.Scans as spec;

use crate::error::{ResolveFault, ResolveKind};
use crate::expression::{expr, exprs};
use crate::parameters::header;
use crate::place::Place;
use crate::texts::Texts;
use star_syntax::{Block, Branch, Line, Small, SmallKind, Statement};
use std::alloc::Global;

/// Adds the names that a small statement reads.
fn small(alloc: Global, place: Place, found: &mut Texts, tree: &Small) -> Result<(), ResolveFault>
    ensures { Gives (spec.scan_small (stands place) tree.now found.old) result found.new }
{
    let line = tree.line;
    match &tree.kind {
        SmallKind::Return(values) => {
            if !place.in_function {
                return Err(ResolveKind::MisplacedReturn.at(line));
            }
            exprs(alloc, line, found, values.as_slice())
        }
        SmallKind::Break | SmallKind::Continue => {
            if !place.in_loop {
                return Err(ResolveKind::MisplacedBreak.at(line));
            }
            Ok(())
        }
        SmallKind::Pass => Ok(()),
        SmallKind::Assign(targets, values) => {
            exprs(alloc, line, found, targets.as_slice())?;
            exprs(alloc, line, found, values.as_slice())
        }
        SmallKind::Augmented(target, _, values) => {
            expr(alloc, line, found, target)?;
            exprs(alloc, line, found, values.as_slice())
        }
        SmallKind::Tests(values) => exprs(alloc, line, found, values.as_slice()),
    }
}

/// The same of the small statements of a line, in order.
fn smalls(alloc: Global, place: Place, found: &mut Texts, tree: &Line) -> Result<(), ResolveFault>
    ensures { Gives (spec.scan_line (stands place) tree.now found.old) result found.new }
{
    for one in tree.smalls.as_slice() {
        small(alloc, place, found, one)?;
    }
    Ok(())
}

/// Adds the names that a statement at this place reads, with those in its blocks.
#[cycle(scan)]
#[tactic(auto, using(crate::proofs::StatementLayers::layers))]
fn statement(
    alloc: Global,
    place: Place,
    found: &mut Texts,
    tree: &Statement,
) -> Result<(), ResolveFault>
    ensures { Gives (spec.scan_statement (stands place) tree.now found.old) result found.new }
{
    match tree {
        Statement::Line(line) => smalls(alloc, place, found, line),
        Statement::If(at, first, more, other) => {
            let inner = place.branch();
            branch(alloc, *at, inner, found, first)?;
            branches(alloc, *at, inner, found, more.as_slice())?;
            otherwise(alloc, inner, found, other)
        }
        Statement::For(at, targets, over, body) => {
            exprs(alloc, *at, found, targets.as_slice())?;
            exprs(alloc, *at, found, over.as_slice())?;
            block(alloc, place.turn(), found, body)
        }
        Statement::Def(at, def) => {
            if !place.is_direct {
                return Err(ResolveKind::NestedDef.at(*at));
            }
            header(alloc, *at, found, def)?;
            block(alloc, Place::body(), found, &def.body)
        }
    }
}

/// The same of statements, in order.
#[cycle(scan)]
pub fn statements(
    alloc: Global,
    place: Place,
    found: &mut Texts,
    trees: &[Statement],
) -> Result<(), ResolveFault>
    ensures { Gives (each (spec.scan_statement (stands place)) trees.now found.old) result found.new }
{
    for tree in trees {
        statement(alloc, place, found, tree)?;
    }
    Ok(())
}

/// The same of the statements of a block, in order.
#[cycle(scan)]
fn block(
    alloc: Global,
    place: Place,
    found: &mut Texts,
    tree: &Block<Statement>,
) -> Result<(), ResolveFault>
    ensures { Gives (spec.scan_block (stands place) tree.now found.old) result found.new }
{
    match tree {
        Block::Inline(line) => smalls(alloc, place, found, line),
        Block::Indented(all) => statements(alloc, place, found, all.as_slice()),
    }
}

/// The same of a condition, which belongs to the `if` of this line, and of its block.
#[cycle(scan)]
fn branch(
    alloc: Global,
    line: u32,
    place: Place,
    found: &mut Texts,
    tree: &Branch<Statement>,
) -> Result<(), ResolveFault>
    ensures { Gives (spec.scan_branch line (stands place) tree.now found.old) result found.new }
{
    expr(alloc, line, found, &tree.condition)?;
    block(alloc, place, found, &tree.body)
}

/// The same of the branches after `elif`, in order.
#[cycle(scan)]
fn branches(
    alloc: Global,
    line: u32,
    place: Place,
    found: &mut Texts,
    trees: &[Branch<Statement>],
) -> Result<(), ResolveFault>
    ensures { Gives (each (spec.scan_branch line (stands place)) trees.now found.old) result found.new }
{
    for tree in trees {
        branch(alloc, line, place, found, tree)?;
    }
    Ok(())
}

/// The same of what may stand after `else`.
#[cycle(scan)]
fn otherwise(
    alloc: Global,
    place: Place,
    found: &mut Texts,
    tree: &Option<Block<Statement>>,
) -> Result<(), ResolveFault>
    ensures { Gives (spec.scan_else (stands place) tree.now found.old) result found.new }
{
    match tree {
        Some(body) => block(alloc, place, found, body),
        None => Ok(()),
    }
}
