//! The tokens of expressions.

ghost use Rattle.std.specs.Prelude.{◌≡◌, ◌++◌, [], ◌∷◌, ℕ, map, OnOk};
ghost use Rattle.std.specs.List.{flat_map};
ghost use Rattle.star_syntax.specs.Spelling.{expr_spelling, tests_spelling, default_spelling, listed, if_written, sign_token, compare_tokens};
ghost use Rattle.star_syntax.specs.SpellingOfParts.{expr_suffix_spelling, expr_clause_spelling, expr_pair_spelling, expr_link_spelling, expr_arm_spelling, expr_arguments_spelling, optional_spelling, expr_step_spelling, listed_after, parts_spelling};
ghost use Rattle.star_syntax.specs.declared.expression.Expr.TheOpen.{Expr-F};

use crate::expression::{Arguments, Arm, Clause, Expr, Link, Named, Pair, Suffix};
use crate::operator::{CompareOp, UnaryOp};
use crate::spelling::pieces::{
    chain_token, comparison, mark, mark_before, mark_if, name, nots, signs, word,
};
use crate::token::{Keyword, Mark, Token};
use chex_base::NoMemory;
use std::alloc::Global;

/// Adds the tokens of an expression.
#[cycle(spell)]
#[tactic(auto, using(crate::proofs::SpellingLemmas::spelling_laws))]
pub fn expr(alloc: Global, out: &mut Vec<Token>, tree: &Expr) -> Result<(), NoMemory>
    ensures { OnOk result (out.new.items ≡ out.old.items ++ expr_spelling tree.now) }
{
    match tree {
        Expr::Name(text) => name(alloc, out, text)?,
        Expr::Int(number) => out.push(Token::Int(*number))?,
        Expr::Text(text) => out.push(Token::Text(text.copy(alloc)?))?,
        Expr::None => word(out, Keyword::None)?,
        Expr::True => word(out, Keyword::True)?,
        Expr::False => word(out, Keyword::False)?,
        Expr::Paren(inner) => paren(alloc, out, inner.get())?,
        Expr::Tuple(items, comma) => {
            mark(out, Mark::OpenRound)?;
            display(alloc, out, items.as_slice(), *comma, Mark::CloseRound)?;
        }
        Expr::List(items, comma) => {
            mark(out, Mark::OpenSquare)?;
            display(alloc, out, items.as_slice(), *comma, Mark::CloseSquare)?;
        }
        Expr::ListOver(item, over) => list_over(alloc, out, item.get(), over.as_slice())?,
        Expr::Dict(pairs, comma) => dict(alloc, out, pairs.as_slice(), *comma)?,
        Expr::DictOver(key, value, over) => {
            dict_over(alloc, out, key.get(), value.get(), over.as_slice())?;
        }
        Expr::Primary(head, all) => primary(alloc, out, head.get(), all.as_slice())?,
        Expr::Signed(ops, operand) => signed(alloc, out, ops.as_slice(), operand.get())?,
        Expr::Chain(_, first, links) => chain(alloc, out, first.get(), links.as_slice())?,
        Expr::Compare(left, op, right) => compare(alloc, out, left.get(), *op, right.get())?,
        Expr::Not(count, operand) => {
            nots(out, *count)?;
            expr(alloc, out, operand.get())?;
        }
        Expr::Conditional(arms, last) => conditional(alloc, out, arms.as_slice(), last.get())?,
    }
    Ok(())
}

#[cycle(spell)]
#[tactic(auto, using(crate::proofs::SpellingLemmas::spelling_laws))]
fn paren(alloc: Global, out: &mut Vec<Token>, inner: &Expr) -> Result<(), NoMemory>
    ensures { OnOk result (out.new.items ≡ out.old.items ++ parts_spelling (Expr-F.Paren inner.now)) }
{
    mark(out, Mark::OpenRound)?;
    expr(alloc, out, inner)?;
    mark(out, Mark::CloseRound)
}

#[cycle(spell)]
#[tactic(auto, using(crate::proofs::SpellingLemmas::spelling_laws))]
fn signed(
    alloc: Global,
    out: &mut Vec<Token>,
    ops: &[UnaryOp],
    operand: &Expr,
) -> Result<(), NoMemory>
    ensures { OnOk result (out.new.items ≡ out.old.items ++ (map sign_token ops.now ++ expr_spelling operand.now)) }
{
    signs(out, ops)?;
    expr(alloc, out, operand)
}

/// Tests with commas between.
#[cycle(spell)]
pub fn tests(alloc: Global, out: &mut Vec<Token>, trees: &[Expr]) -> Result<(), NoMemory>
    ensures { OnOk result (out.new.items ≡ out.old.items ++ tests_spelling trees.now) }
{
    for (place, tree) in trees.iter().enumerate() {
        mark_before(out, place, Mark::Comma)?;
        expr(alloc, out, tree)?;
    }
    Ok(())
}

/// What stands after the bracket that opens a tuple or a list.
#[cycle(spell)]
#[tactic(auto, using(crate::proofs::SpellingLemmas::spelling_laws))]
fn display(
    alloc: Global,
    out: &mut Vec<Token>,
    items: &[Expr],
    comma: bool,
    close: Mark,
) -> Result<(), NoMemory>
    ensures { OnOk result (out.new.items ≡ out.old.items
        ++ (tests_spelling items.now ++ (if_written comma Mark.Comma ++ Token.Mark close ∷ []))) }
{
    tests(alloc, out, items)?;
    mark_if(out, comma, Mark::Comma)?;
    mark(out, close)
}

#[cycle(spell)]
#[tactic(auto, using(crate::proofs::SpellingLemmas::spelling_laws))]
fn list_over(
    alloc: Global,
    out: &mut Vec<Token>,
    item: &Expr,
    over: &[Clause<Expr>],
) -> Result<(), NoMemory>
    ensures { OnOk result (out.new.items ≡ out.old.items ++ parts_spelling (Expr-F.ListOver item.now over.now)) }
{
    mark(out, Mark::OpenSquare)?;
    expr(alloc, out, item)?;
    clauses(alloc, out, over)?;
    mark(out, Mark::CloseSquare)
}

#[cycle(spell)]
#[tactic(auto, using(crate::proofs::SpellingLemmas::spelling_laws))]
fn dict(
    alloc: Global,
    out: &mut Vec<Token>,
    all: &[Pair<Expr>],
    comma: bool,
) -> Result<(), NoMemory>
    ensures { OnOk result (out.new.items ≡ out.old.items ++ parts_spelling (Expr-F.Dict all.now comma)) }
{
    mark(out, Mark::OpenCurly)?;
    pairs(alloc, out, all)?;
    mark_if(out, comma, Mark::Comma)?;
    mark(out, Mark::CloseCurly)
}

#[cycle(spell)]
#[tactic(auto, using(crate::proofs::SpellingLemmas::spelling_laws))]
fn pairs(alloc: Global, out: &mut Vec<Token>, all: &[Pair<Expr>]) -> Result<(), NoMemory>
    ensures { OnOk result (out.new.items ≡ out.old.items ++ listed (map expr_pair_spelling all.now)) }
{
    for (place, pair) in all.iter().enumerate() {
        mark_before(out, place, Mark::Comma)?;
        expr(alloc, out, &pair.key)?;
        mark(out, Mark::Colon)?;
        expr(alloc, out, &pair.value)?;
    }
    Ok(())
}

#[cycle(spell)]
#[tactic(auto, using(crate::proofs::SpellingLemmas::spelling_laws))]
fn dict_over(
    alloc: Global,
    out: &mut Vec<Token>,
    key: &Expr,
    value: &Expr,
    over: &[Clause<Expr>],
) -> Result<(), NoMemory>
    ensures { OnOk result (out.new.items ≡ out.old.items ++ parts_spelling (Expr-F.DictOver key.now value.now over.now)) }
{
    mark(out, Mark::OpenCurly)?;
    expr(alloc, out, key)?;
    mark(out, Mark::Colon)?;
    expr(alloc, out, value)?;
    clauses(alloc, out, over)?;
    mark(out, Mark::CloseCurly)
}

#[cycle(spell)]
#[tactic(auto, using(crate::proofs::SpellingLemmas::spelling_laws))]
fn clauses(alloc: Global, out: &mut Vec<Token>, all: &[Clause<Expr>]) -> Result<(), NoMemory>
    ensures { OnOk result (out.new.items ≡ out.old.items ++ flat_map expr_clause_spelling all.now) }
{
    for clause in all {
        match clause {
            Clause::For(targets, over) => {
                word(out, Keyword::For)?;
                tests(alloc, out, targets.as_slice())?;
                word(out, Keyword::In)?;
                expr(alloc, out, over)?;
            }
            Clause::If(condition) => {
                word(out, Keyword::If)?;
                expr(alloc, out, condition)?;
            }
        }
    }
    Ok(())
}

/// What is indexed or called, and its suffixes.
#[cycle(spell)]
#[tactic(auto, using(crate::proofs::SpellingLemmas::spelling_laws))]
fn primary(
    alloc: Global,
    out: &mut Vec<Token>,
    head: &Expr,
    all: &[Suffix<Expr>],
) -> Result<(), NoMemory>
    ensures { OnOk result (out.new.items ≡ out.old.items ++ (expr_spelling head.now ++ flat_map expr_suffix_spelling all.now)) }
{
    expr(alloc, out, head)?;
    suffixes(alloc, out, all)
}

#[cycle(spell)]
#[tactic(auto, using(crate::proofs::SpellingLemmas::spelling_laws))]
fn suffixes(alloc: Global, out: &mut Vec<Token>, all: &[Suffix<Expr>]) -> Result<(), NoMemory>
    ensures { OnOk result (out.new.items ≡ out.old.items ++ flat_map expr_suffix_spelling all.now) }
{
    for suffix in all {
        match suffix {
            Suffix::Index(at) => {
                mark(out, Mark::OpenSquare)?;
                expr(alloc, out, at)?;
                mark(out, Mark::CloseSquare)?;
            }
            Suffix::Slice(start, stop, step) => {
                mark(out, Mark::OpenSquare)?;
                optional(alloc, out, start)?;
                mark(out, Mark::Colon)?;
                optional(alloc, out, stop)?;
                second_colon(alloc, out, step)?;
                mark(out, Mark::CloseSquare)?;
            }
            Suffix::Call(given) => arguments(alloc, out, given)?,
            Suffix::Method(method, given) => {
                mark(out, Mark::Dot)?;
                name(alloc, out, method)?;
                arguments(alloc, out, given)?;
            }
        }
    }
    Ok(())
}

/// The second colon of a slice and what follows it.
#[cycle(spell)]
#[tactic(auto, using(crate::proofs::SpellingLemmas::spelling_laws))]
fn second_colon(
    alloc: Global,
    out: &mut Vec<Token>,
    step: &Option<Option<Expr>>,
) -> Result<(), NoMemory>
    ensures { OnOk result (out.new.items ≡ out.old.items ++ expr_step_spelling step.now) }
{
    if let Some(step) = step {
        mark(out, Mark::Colon)?;
        optional(alloc, out, step)?;
    }
    Ok(())
}

#[cycle(spell)]
#[tactic(auto, using(crate::proofs::SpellingLemmas::spelling_laws))]
fn optional(alloc: Global, out: &mut Vec<Token>, tree: &Option<Expr>) -> Result<(), NoMemory>
    ensures { OnOk result (out.new.items ≡ out.old.items ++ optional_spelling tree.now) }
{
    if let Some(tree) = tree {
        expr(alloc, out, tree)?;
    }
    Ok(())
}

/// The arguments of a call, with their brackets.
#[cycle(spell)]
#[tactic(auto, using(crate::proofs::SpellingLemmas::spelling_laws))]
fn arguments(alloc: Global, out: &mut Vec<Token>, given: &Arguments<Expr>) -> Result<(), NoMemory>
    ensures { OnOk result (out.new.items ≡ out.old.items ++ expr_arguments_spelling given.now) }
{
    mark(out, Mark::OpenRound)?;
    tests(alloc, out, given.positional.as_slice())?;
    named(alloc, out, given.positional.len(), given.named.as_slice())?;
    mark_if(out, given.comma, Mark::Comma)?;
    mark(out, Mark::CloseRound)
}

/// Named values with commas between, after so many phrases of the same list.
#[cycle(spell)]
#[tactic(auto, using(crate::proofs::SpellingLemmas::spelling_laws))]
pub fn named(
    alloc: Global,
    out: &mut Vec<Token>,
    before: usize,
    all: &[Named<Expr>],
) -> Result<(), NoMemory>
    ensures { OnOk result (out.new.items ≡ out.old.items ++ listed_after before (map default_spelling all.now)) }
{
    for (place, one) in all.iter().enumerate() {
        mark_before(out, before.max(place), Mark::Comma)?;
        name(alloc, out, &one.name)?;
        mark(out, Mark::Assign)?;
        expr(alloc, out, &one.value)?;
    }
    Ok(())
}

/// A chain of operators of one level.
#[cycle(spell)]
#[tactic(auto, using(crate::proofs::SpellingLemmas::spelling_laws))]
fn chain(
    alloc: Global,
    out: &mut Vec<Token>,
    first: &Expr,
    links: &[Link<Expr>],
) -> Result<(), NoMemory>
    ensures { OnOk result (out.new.items ≡ out.old.items ++ (expr_spelling first.now ++ flat_map expr_link_spelling links.now)) }
{
    expr(alloc, out, first)?;
    for link in links {
        out.push(chain_token(link.op))?;
        expr(alloc, out, &link.operand)?;
    }
    Ok(())
}

#[cycle(spell)]
#[tactic(auto, using(crate::proofs::SpellingLemmas::spelling_laws))]
fn compare(
    alloc: Global,
    out: &mut Vec<Token>,
    left: &Expr,
    op: CompareOp,
    right: &Expr,
) -> Result<(), NoMemory>
    ensures { OnOk result (out.new.items ≡ out.old.items ++ (expr_spelling left.now ++ (compare_tokens op ++ expr_spelling right.now))) }
{
    expr(alloc, out, left)?;
    comparison(out, op)?;
    expr(alloc, out, right)
}

#[cycle(spell)]
#[tactic(auto, using(crate::proofs::SpellingLemmas::spelling_laws))]
fn conditional(
    alloc: Global,
    out: &mut Vec<Token>,
    arms: &[Arm<Expr>],
    last: &Expr,
) -> Result<(), NoMemory>
    ensures { OnOk result (out.new.items ≡ out.old.items ++ (flat_map expr_arm_spelling arms.now ++ expr_spelling last.now)) }
{
    for arm in arms {
        expr(alloc, out, &arm.value)?;
        word(out, Keyword::If)?;
        expr(alloc, out, &arm.condition)?;
        word(out, Keyword::Else)?;
    }
    expr(alloc, out, last)
}
