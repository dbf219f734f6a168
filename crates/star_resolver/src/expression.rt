//! The uses of the name `input` in expressions.
ghost use Rattle.std.specs.Prelude.{◌≡◌};
ghost use Rattle.std.specs.Option.{option_copied};
ghost use Rattle.star_syntax.specs.Placement as rules;
ghost use Rattle.star_resolver.specs.Outcomes.{Gives, each};
ghost use Rattle.star_resolver.specs.Scans as spec;

use crate::error::{ResolveFault, ResolveKind};
use crate::texts::Texts;
use chex_base::Text;
use star_syntax::{Arguments, Arm, Clause, Expr, Link, Named, Pair, Suffix};
use std::alloc::Global;

/// Whether a name is `input`.
#[tactic(auto, unfolding(star_syntax::specs::Placement::is_input))]
pub fn is_input(name: &Text) -> bool
    ensures { result ≡ rules.is_input name.now }
{
    name.as_str() == "input"
}

/// Whether a tree is the name `input` alone.
#[tactic(auto, using(crate::proofs::Layers::looks))]
fn names_input(tree: &Expr) -> bool
    ensures { result ≡ spec.names_input tree.now }
{
    match tree {
        Expr::Name(name) => is_input(name),
        Expr::Int(_)
        | Expr::Text(_)
        | Expr::None
        | Expr::True
        | Expr::False
        | Expr::Paren(_)
        | Expr::Tuple(_, _)
        | Expr::List(_, _)
        | Expr::ListOver(_, _)
        | Expr::Dict(_, _)
        | Expr::DictOver(_, _, _)
        | Expr::Primary(_, _)
        | Expr::Signed(_, _)
        | Expr::Chain(_, _, _)
        | Expr::Compare(_, _, _)
        | Expr::Not(_, _)
        | Expr::Conditional(_, _) => false,
    }
}

/// The text literal that a tree is.
#[tactic(auto, using(crate::proofs::Layers::looks))]
fn literal(tree: &Expr) -> Option<&Text>
    ensures { option_copied result ≡ spec.literal tree.now }
{
    match tree {
        Expr::Text(text) => Some(text),
        Expr::Name(_)
        | Expr::Int(_)
        | Expr::None
        | Expr::True
        | Expr::False
        | Expr::Paren(_)
        | Expr::Tuple(_, _)
        | Expr::List(_, _)
        | Expr::ListOver(_, _)
        | Expr::Dict(_, _)
        | Expr::DictOver(_, _, _)
        | Expr::Primary(_, _)
        | Expr::Signed(_, _)
        | Expr::Chain(_, _, _)
        | Expr::Compare(_, _, _)
        | Expr::Not(_, _)
        | Expr::Conditional(_, _) => None,
    }
}

/// The literal of arguments that are one text literal, with nothing beside it.
fn lone_literal(given: &Arguments<Expr>) -> Option<&Text>
    ensures { option_copied result ≡ rules.lone_literal spec.literal given.now.positional given.now.named given.now.comma }
{
    let [only] = given.positional.as_slice() else {
        return None;
    };
    let [] = given.named.as_slice() else {
        return None;
    };
    if given.comma {
        return None;
    }
    literal(only)
}

/// The name that `input(TEXT)` reads, where an operand and its first suffix are that.
fn name_read<'a>(head: &Expr, suffixes: &'a [Suffix<Expr>]) -> Option<&'a Text>
    ensures { option_copied result ≡ spec.name_read head.now suffixes.now }
{
    if !names_input(head) {
        return None;
    }
    let [first, ..] = suffixes else {
        return None;
    };
    match first {
        Suffix::Call(given) => lone_literal(given),
        Suffix::Index(_) | Suffix::Slice(_, _, _) | Suffix::Method(_, _) => None,
    }
}

/// Adds the names that an expression of the statement of this line reads.
#[cycle(scan)]
#[tactic(auto, using(crate::proofs::Layers::layers))]
pub fn expr(alloc: Global, line: u32, found: &mut Texts, tree: &Expr) -> Result<(), ResolveFault>
    ensures { Gives (spec.scan line tree.now found.old) result found.new }
{
    match tree {
        Expr::Name(name) if is_input(name) => Err(ResolveKind::InputNotLiteral.at(line)),
        Expr::Name(_) => Ok(()),
        Expr::Int(_) | Expr::Text(_) | Expr::None | Expr::True | Expr::False => Ok(()),
        Expr::Tuple(all, _) | Expr::List(all, _) => exprs(alloc, line, found, all.as_slice()),
        Expr::ListOver(item, over) => {
            expr(alloc, line, found, item.get())?;
            clauses(alloc, line, found, over.as_slice())
        }
        Expr::Dict(all, _) => pairs(alloc, line, found, all.as_slice()),
        Expr::DictOver(key, value, over) => {
            expr(alloc, line, found, key.get())?;
            expr(alloc, line, found, value.get())?;
            clauses(alloc, line, found, over.as_slice())
        }
        Expr::Primary(head, all) => {
            match name_read(head.get(), all.as_slice()) {
                Some(name) => found.insert(name.copy(alloc)?)?,
                None => expr(alloc, line, found, head.get())?,
            }
            suffixes(alloc, line, found, all.as_slice())
        }
        Expr::Paren(operand) | Expr::Signed(_, operand) | Expr::Not(_, operand) => {
            expr(alloc, line, found, operand.get())
        }
        Expr::Chain(_, first, all) => {
            expr(alloc, line, found, first.get())?;
            links(alloc, line, found, all.as_slice())
        }
        Expr::Compare(left, _, right) => {
            expr(alloc, line, found, left.get())?;
            expr(alloc, line, found, right.get())
        }
        Expr::Conditional(all, last) => {
            arms(alloc, line, found, all.as_slice())?;
            expr(alloc, line, found, last.get())
        }
    }
}

/// The same of expressions, in order.
#[cycle(scan)]
pub fn exprs(
    alloc: Global,
    line: u32,
    found: &mut Texts,
    trees: &[Expr],
) -> Result<(), ResolveFault>
    ensures { Gives (each (spec.scan line) trees.now found.old) result found.new }
{
    for tree in trees {
        expr(alloc, line, found, tree)?;
    }
    Ok(())
}

/// The same of an expression that may be left out.
#[cycle(scan)]
fn optional(
    alloc: Global,
    line: u32,
    found: &mut Texts,
    tree: &Option<Expr>,
) -> Result<(), ResolveFault>
    ensures { Gives (spec.scan_optional line tree.now found.old) result found.new }
{
    match tree {
        Some(tree) => expr(alloc, line, found, tree),
        None => Ok(()),
    }
}

/// The same of what may stand after the second colon of a slice.
#[cycle(scan)]
fn second_colon(
    alloc: Global,
    line: u32,
    found: &mut Texts,
    step: &Option<Option<Expr>>,
) -> Result<(), ResolveFault>
    ensures { Gives (spec.scan_step line step.now found.old) result found.new }
{
    match step {
        Some(step) => optional(alloc, line, found, step),
        None => Ok(()),
    }
}

/// The same of arguments, whose names do not count.
#[cycle(scan)]
fn arguments(
    alloc: Global,
    line: u32,
    found: &mut Texts,
    given: &Arguments<Expr>,
) -> Result<(), ResolveFault>
    ensures { Gives (spec.scan_arguments line given.now found.old) result found.new }
{
    exprs(alloc, line, found, given.positional.as_slice())?;
    named(alloc, line, found, given.named.as_slice())
}

/// The same of the values of named arguments.
#[cycle(scan)]
fn named(
    alloc: Global,
    line: u32,
    found: &mut Texts,
    all: &[Named<Expr>],
) -> Result<(), ResolveFault>
    ensures { Gives (each (spec.scan_named line) all.now found.old) result found.new }
{
    for one in all {
        expr(alloc, line, found, &one.value)?;
    }
    Ok(())
}

/// The same of suffixes, in order; the names of methods do not count.
#[cycle(scan)]
fn suffixes(
    alloc: Global,
    line: u32,
    found: &mut Texts,
    all: &[Suffix<Expr>],
) -> Result<(), ResolveFault>
    ensures { Gives (each (spec.scan_suffix line) all.now found.old) result found.new }
{
    for suffix in all {
        match suffix {
            Suffix::Index(at) => expr(alloc, line, found, at)?,
            Suffix::Slice(start, stop, step) => {
                optional(alloc, line, found, start)?;
                optional(alloc, line, found, stop)?;
                second_colon(alloc, line, found, step)?;
            }
            Suffix::Call(given) | Suffix::Method(_, given) => {
                arguments(alloc, line, found, given)?;
            }
        }
    }
    Ok(())
}

/// The same of the clauses of a comprehension, in order.
#[cycle(scan)]
fn clauses(
    alloc: Global,
    line: u32,
    found: &mut Texts,
    all: &[Clause<Expr>],
) -> Result<(), ResolveFault>
    ensures { Gives (each (spec.scan_clause line) all.now found.old) result found.new }
{
    for clause in all {
        match clause {
            Clause::For(targets, over) => {
                exprs(alloc, line, found, targets.as_slice())?;
                expr(alloc, line, found, over)?;
            }
            Clause::If(condition) => expr(alloc, line, found, condition)?,
        }
    }
    Ok(())
}

/// The same of the pairs of a display, in order.
#[cycle(scan)]
fn pairs(
    alloc: Global,
    line: u32,
    found: &mut Texts,
    all: &[Pair<Expr>],
) -> Result<(), ResolveFault>
    ensures { Gives (each (spec.scan_pair line) all.now found.old) result found.new }
{
    for pair in all {
        expr(alloc, line, found, &pair.key)?;
        expr(alloc, line, found, &pair.value)?;
    }
    Ok(())
}

/// The same of the further operands of a chain, in order.
#[cycle(scan)]
fn links(
    alloc: Global,
    line: u32,
    found: &mut Texts,
    all: &[Link<Expr>],
) -> Result<(), ResolveFault>
    ensures { Gives (each (spec.scan_link line) all.now found.old) result found.new }
{
    for link in all {
        expr(alloc, line, found, &link.operand)?;
    }
    Ok(())
}

/// The same of the arms of a conditional, in order.
#[cycle(scan)]
fn arms(alloc: Global, line: u32, found: &mut Texts, all: &[Arm<Expr>]) -> Result<(), ResolveFault>
    ensures { Gives (each (spec.scan_arm line) all.now found.old) result found.new }
{
    for arm in all {
        expr(alloc, line, found, &arm.value)?;
        expr(alloc, line, found, &arm.condition)?;
    }
    Ok(())
}
