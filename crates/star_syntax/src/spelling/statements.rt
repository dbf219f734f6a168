//! The tokens of statements.

ghost use Rattle.std.specs.Prelude.{◌≡◌, ◌++◌, [], ◌∷◌, map, OnOk};
ghost use Rattle.std.specs.List.{flat_map};
ghost use Rattle.star_syntax.specs.Spelling.{small_spelling, line_spelling, separated, statement_spelling, parameters_spelling};
ghost use Rattle.star_syntax.specs.SpellingOfParts.{body_spelling, case_spelling, otherwise_spelling, def_spelling};

use crate::spelling::expressions::{expr, named, tests};
use crate::spelling::pieces::{augmented_mark, mark, mark_before, mark_if, name, names, word};
use crate::statement::{Block, Branch, Def, Line, Small, SmallKind, Statement};
use crate::token::{Keyword, Mark, Token};
use chex_base::NoMemory;
use std::alloc::Global;

#[tactic(auto, using(crate::proofs::SpellingLemmas::spelling_laws), unfolding(crate::specs::Spelling::small_spelling))]
fn small(alloc: Global, out: &mut Vec<Token>, one: &Small) -> Result<(), NoMemory>
    ensures { OnOk result (out.new.items ≡ out.old.items ++ small_spelling one.now) }
{
    match &one.kind {
        SmallKind::Return(values) => {
            word(out, Keyword::Return)?;
            tests(alloc, out, values.as_slice())
        }
        SmallKind::Break => word(out, Keyword::Break),
        SmallKind::Continue => word(out, Keyword::Continue),
        SmallKind::Pass => word(out, Keyword::Pass),
        SmallKind::Assign(targets, values) => {
            tests(alloc, out, targets.as_slice())?;
            mark(out, Mark::Assign)?;
            tests(alloc, out, values.as_slice())
        }
        SmallKind::Augmented(target, op, values) => {
            expr(alloc, out, target)?;
            mark(out, augmented_mark(*op))?;
            tests(alloc, out, values.as_slice())
        }
        SmallKind::Tests(values) => tests(alloc, out, values.as_slice()),
    }
}

/// Small statements with semicolons between.
fn smalls(alloc: Global, out: &mut Vec<Token>, all: &[Small]) -> Result<(), NoMemory>
    ensures { OnOk result (out.new.items ≡ out.old.items ++ separated Mark.Semicolon (map small_spelling all.now)) }
{
    for (place, one) in all.iter().enumerate() {
        mark_before(out, place, Mark::Semicolon)?;
        small(alloc, out, one)?;
    }
    Ok(())
}

#[tactic(auto, using(crate::proofs::SpellingLemmas::spelling_laws), unfolding(crate::specs::Spelling::line_spelling))]
fn line(alloc: Global, out: &mut Vec<Token>, line: &Line) -> Result<(), NoMemory>
    ensures { OnOk result (out.new.items ≡ out.old.items ++ line_spelling line.now) }
{
    smalls(alloc, out, line.smalls.as_slice())?;
    mark_if(out, line.semicolon, Mark::Semicolon)?;
    out.push(Token::Newline)?;
    Ok(())
}

#[cycle(spell)]
#[tactic(auto, using(crate::proofs::StatementLemmas::statement_laws))]
fn statement(alloc: Global, out: &mut Vec<Token>, tree: &Statement) -> Result<(), NoMemory>
    ensures { OnOk result (out.new.items ≡ out.old.items ++ statement_spelling tree.now) }
{
    match tree {
        Statement::Line(smalls) => line(alloc, out, smalls)?,
        Statement::If(_, first, more, other) => {
            case(alloc, out, Keyword::If, first)?;
            branches(alloc, out, more.as_slice())?;
            otherwise(alloc, out, other)?;
        }
        Statement::For(_, targets, over, body) => {
            word(out, Keyword::For)?;
            tests(alloc, out, targets.as_slice())?;
            word(out, Keyword::In)?;
            tests(alloc, out, over.as_slice())?;
            mark(out, Mark::Colon)?;
            block(alloc, out, body)?;
        }
        Statement::Def(_, tree) => definition(alloc, out, tree)?,
    }
    Ok(())
}

/// Adds the tokens of statements, in order.
#[cycle(spell)]
#[tactic(auto, using(crate::proofs::StatementLemmas::statement_laws))]
pub fn statements(alloc: Global, out: &mut Vec<Token>, all: &[Statement]) -> Result<(), NoMemory>
    ensures { OnOk result (out.new.items ≡ out.old.items ++ flat_map statement_spelling all.now) }
{
    for tree in all {
        statement(alloc, out, tree)?;
    }
    Ok(())
}

/// What stands after the colon of a header.
#[cycle(spell)]
#[tactic(auto, using(crate::proofs::StatementLemmas::statement_laws))]
fn block(alloc: Global, out: &mut Vec<Token>, body: &Block<Statement>) -> Result<(), NoMemory>
    ensures { OnOk result (out.new.items ≡ out.old.items ++ body_spelling body.now) }
{
    match body {
        Block::Inline(smalls) => line(alloc, out, smalls)?,
        Block::Indented(all) => {
            out.push(Token::Newline)?;
            out.push(Token::Indent)?;
            statements(alloc, out, all.as_slice())?;
            out.push(Token::Dedent)?;
        }
    }
    Ok(())
}

/// `if` or `elif`, its condition and its block.
#[cycle(spell)]
#[tactic(auto, using(crate::proofs::StatementLemmas::statement_laws))]
fn case(
    alloc: Global,
    out: &mut Vec<Token>,
    first: Keyword,
    tree: &Branch<Statement>,
) -> Result<(), NoMemory>
    ensures { OnOk result (out.new.items ≡ out.old.items ++ case_spelling first tree.now) }
{
    word(out, first)?;
    expr(alloc, out, &tree.condition)?;
    mark(out, Mark::Colon)?;
    block(alloc, out, &tree.body)
}

/// The branches after `elif`.
#[cycle(spell)]
#[tactic(auto, using(crate::proofs::StatementLemmas::statement_laws))]
fn branches(alloc: Global, out: &mut Vec<Token>, all: &[Branch<Statement>]) -> Result<(), NoMemory>
    ensures { OnOk result (out.new.items ≡ out.old.items ++ flat_map (case_spelling Keyword.Elif) all.now) }
{
    for tree in all {
        case(alloc, out, Keyword::Elif, tree)?;
    }
    Ok(())
}

/// `else` and its block, if there is one.
#[cycle(spell)]
#[tactic(auto, using(crate::proofs::StatementLemmas::statement_laws))]
fn otherwise(
    alloc: Global,
    out: &mut Vec<Token>,
    other: &Option<Block<Statement>>,
) -> Result<(), NoMemory>
    ensures { OnOk result (out.new.items ≡ out.old.items ++ otherwise_spelling other.now) }
{
    if let Some(body) = other {
        word(out, Keyword::Else)?;
        mark(out, Mark::Colon)?;
        block(alloc, out, body)?;
    }
    Ok(())
}

#[cycle(spell)]
#[tactic(auto, using(crate::proofs::StatementLemmas::statement_laws))]
fn definition(alloc: Global, out: &mut Vec<Token>, tree: &Def) -> Result<(), NoMemory>
    ensures { OnOk result (out.new.items ≡ out.old.items ++ def_spelling tree.now) }
{
    word(out, Keyword::Def)?;
    name(alloc, out, &tree.name)?;
    mark(out, Mark::OpenRound)?;
    names(alloc, out, tree.required.as_slice())?;
    named(alloc, out, tree.required.len(), tree.defaults.as_slice())?;
    mark_if(out, tree.comma, Mark::Comma)?;
    mark(out, Mark::CloseRound)?;
    mark(out, Mark::Colon)?;
    block(alloc, out, &tree.body)
}
