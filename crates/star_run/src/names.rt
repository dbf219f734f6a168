//! The names that targets and statements bind.
ghost use Rattle.std.specs.Prelude.{◌≡◌, IfOk, OnOk};
ghost use Rattle.std.specs.List.{flat_map};
ghost use Rattle.star_meaning.specs.Expressions.{target_names};
ghost use Rattle.star_meaning.specs.Statements.{body_names, small_names, statement_names};
ghost use Rattle.star_meaning.specs.World.{distinct, unbound};
ghost use Rattle.star_run.specs.Locals.{branch_bound, clause_bound, with_names};

use crate::slots::{Layout, Slots};
use chex_base::NoMemory;
use star_syntax::{Block, Branch, Clause, Expr, Line, Small, SmallKind, Statement};
use std::alloc::Global;

/// The block of a comprehension: the names that its clauses bind, each once, none of them bound.
#[tactic(auto, using(crate::proofs::LocalLemmas::names_of_clauses))]
pub fn unbound_of(alloc: Global, clauses: &[Clause<Expr>]) -> Result<Slots, NoMemory>
    ensures { IfOk result (λ block. block ≡ unbound (distinct (flat_map clause_bound clauses.now))) }
{
    let mut names = Layout::new(alloc);
    add_clauses(alloc, clauses, &mut names)?;
    Slots::of(alloc, &names)
}

#[tactic(auto, using(crate::proofs::LocalLemmas::more))]
fn add_clauses(alloc: Global, clauses: &[Clause<Expr>], names: &mut Layout) -> Result<(), NoMemory>
    ensures { OnOk result (names.new ≡ with_names names.old (flat_map clause_bound clauses.now)) }
{
    for clause in clauses {
        add_clause(alloc, clause, names)?;
    }
    Ok(())
}

#[tactic(auto, using(crate::proofs::LocalLemmas::more))]
fn add_clause(alloc: Global, clause: &Clause<Expr>, names: &mut Layout) -> Result<(), NoMemory>
    ensures { OnOk result (names.new ≡ with_names names.old (clause_bound clause.now)) }
{
    match clause {
        Clause::For(targets, _) => add_targets(alloc, targets.as_slice(), names),
        Clause::If(_) => Ok(()),
    }
}

/// Adds the names that these targets bind.
#[cycle(targets)]
#[tactic(auto, using(crate::proofs::LocalLemmas::more))]
pub fn add_targets(alloc: Global, targets: &[Expr], names: &mut Layout) -> Result<(), NoMemory>
    ensures { OnOk result (names.new ≡ with_names names.old (flat_map target_names targets.now)) }
{
    for target in targets {
        add_target(alloc, target, names)?;
    }
    Ok(())
}

#[cycle(targets)]
#[tactic(auto, using(crate::proofs::LocalLemmas::targets))]
fn add_target(alloc: Global, target: &Expr, names: &mut Layout) -> Result<(), NoMemory>
    ensures { OnOk result (names.new ≡ with_names names.old (target_names target.now)) }
{
    match target {
        Expr::Name(name) => names.add(alloc, name),
        Expr::Paren(inner) => add_target(alloc, inner.get(), names),
        Expr::Tuple(items, _) => add_targets(alloc, items.as_slice(), names),
        Expr::List(items, _) => add_targets(alloc, items.as_slice(), names),
        Expr::Int(_) => Ok(()),
        Expr::Text(_) => Ok(()),
        Expr::None => Ok(()),
        Expr::True => Ok(()),
        Expr::False => Ok(()),
        Expr::ListOver(_, _) => Ok(()),
        Expr::Dict(_, _) => Ok(()),
        Expr::DictOver(_, _, _) => Ok(()),
        Expr::Primary(_, _) => Ok(()),
        Expr::Signed(_, _) => Ok(()),
        Expr::Chain(_, _, _) => Ok(()),
        Expr::Compare(_, _, _) => Ok(()),
        Expr::Not(_, _) => Ok(()),
        Expr::Conditional(_, _) => Ok(()),
    }
}

/// Adds the names that a function's body binds.
#[cycle(bodies)]
#[tactic(auto, using(crate::proofs::LocalLemmas::bodies))]
pub fn add_body(alloc: Global, body: &Block<Statement>, names: &mut Layout) -> Result<(), NoMemory>
    ensures { OnOk result (names.new ≡ with_names names.old (body_names body.now)) }
{
    match body {
        Block::Inline(line) => add_line(alloc, line, names),
        Block::Indented(all) => add_statements(alloc, all.as_slice(), names),
    }
}

#[cycle(bodies)]
#[tactic(auto, using(crate::proofs::LocalLemmas::more))]
fn add_statements(alloc: Global, all: &[Statement], names: &mut Layout) -> Result<(), NoMemory>
    ensures { OnOk result (names.new ≡ with_names names.old (flat_map statement_names all.now)) }
{
    for statement in all {
        add_statement(alloc, statement, names)?;
    }
    Ok(())
}

#[cycle(bodies)]
#[tactic(auto, using(crate::proofs::LocalLemmas::statements))]
fn add_statement(alloc: Global, statement: &Statement, names: &mut Layout) -> Result<(), NoMemory>
    ensures { OnOk result (names.new ≡ with_names names.old (statement_names statement.now)) }
{
    match statement {
        Statement::Line(line) => add_line(alloc, line, names),
        Statement::If(_, first, more, other) => {
            add_body(alloc, &first.body, names)?;
            add_branches(alloc, more.as_slice(), names)?;
            match other {
                Some(body) => add_body(alloc, body, names),
                None => Ok(()),
            }
        }
        Statement::For(_, targets, _, body) => {
            add_targets(alloc, targets.as_slice(), names)?;
            add_body(alloc, body, names)
        }
        Statement::Def(_, _) => Ok(()),
    }
}

#[cycle(bodies)]
#[tactic(auto, using(crate::proofs::LocalLemmas::more))]
fn add_branches(
    alloc: Global,
    all: &[Branch<Statement>],
    names: &mut Layout,
) -> Result<(), NoMemory>
    ensures { OnOk result (names.new ≡ with_names names.old (flat_map branch_bound all.now)) }
{
    for branch in all {
        add_body(alloc, &branch.body, names)?;
    }
    Ok(())
}

#[tactic(auto, using(crate::proofs::LocalLemmas::more))]
fn add_line(alloc: Global, line: &Line, names: &mut Layout) -> Result<(), NoMemory>
    ensures { OnOk result (names.new ≡ with_names names.old (flat_map small_names line.now.smalls)) }
{
    for small in line.smalls.as_slice() {
        add_small(alloc, small, names)?;
    }
    Ok(())
}

#[tactic(auto, using(crate::proofs::LocalLemmas::one))]
fn add_small(alloc: Global, small: &Small, names: &mut Layout) -> Result<(), NoMemory>
    ensures { OnOk result (names.new ≡ with_names names.old (small_names small.now)) }
{
    match &small.kind {
        SmallKind::Assign(targets, _) => add_targets(alloc, targets.as_slice(), names),
        SmallKind::Augmented(target, _, _) => add_target(alloc, target, names),
        SmallKind::Return(_) => Ok(()),
        SmallKind::Break => Ok(()),
        SmallKind::Continue => Ok(()),
        SmallKind::Pass => Ok(()),
        SmallKind::Tests(_) => Ok(()),
    }
}
