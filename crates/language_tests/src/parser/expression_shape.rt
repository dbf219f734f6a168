//! The shapes of expressions: each node in round brackets, with its kind and then its parts.

use chex_base::{NoMemory, Text};
use star_syntax::{Arguments, Arm, ChainOp, Clause, Expr, Link, Named, Pair, Suffix};
use std::alloc::Global;

/// Begins a node of this kind.
pub fn open(out: &mut Text, kind: &str) -> Result<(), NoMemory> {
    out.push_str(" (")?;
    out.push_str(kind)
}

/// Ends a node.
pub fn close(out: &mut Text) -> Result<(), NoMemory> {
    out.push_str(")")
}

/// Adds a part that is one word.
pub fn word(out: &mut Text, word: &str) -> Result<(), NoMemory> {
    out.push_str(" ")?;
    out.push_str(word)
}

/// Adds `,`, if a comma is written.
pub fn comma_if(out: &mut Text, written: bool) -> Result<(), NoMemory> {
    if written {
        out.push_str(" ,")?;
    }
    Ok(())
}

fn chain_op(alloc: Global, out: &mut Text, op: ChainOp) -> Result<(), NoMemory> {
    match op {
        ChainOp::Or => word(out, "Or"),
        ChainOp::And => word(out, "And"),
        ChainOp::Binary(op) => word(out, format!(in alloc; "{op:?}")?.as_str()),
    }
}

/// Adds the shape of an expression.
#[cycle(shape)]
pub fn expr(alloc: Global, out: &mut Text, tree: &Expr) -> Result<(), NoMemory> {
    match tree {
        Expr::Name(name) => word(out, name.as_str()),
        Expr::Int(number) => word(out, format!(in alloc; "{number}")?.as_str()),
        Expr::Text(text) => word(out, format!(in alloc; "'{}'", text.as_str())?.as_str()),
        Expr::None => word(out, "None"),
        Expr::True => word(out, "True"),
        Expr::False => word(out, "False"),
        Expr::Paren(inner) => {
            open(out, "Paren")?;
            expr(alloc, out, inner.get())?;
            close(out)
        }
        Expr::Tuple(items, comma) => {
            open(out, "Tuple")?;
            exprs(alloc, out, items.as_slice())?;
            comma_if(out, *comma)?;
            close(out)
        }
        Expr::List(items, comma) => {
            open(out, "List")?;
            exprs(alloc, out, items.as_slice())?;
            comma_if(out, *comma)?;
            close(out)
        }
        _ => bracketed(alloc, out, tree),
    }
}

/// Adds the shape of an expression of the other kinds with brackets or suffixes, or of an operation.
#[cycle(shape)]
fn bracketed(alloc: Global, out: &mut Text, tree: &Expr) -> Result<(), NoMemory> {
    match tree {
        Expr::ListOver(item, over) => {
            open(out, "ListOver")?;
            expr(alloc, out, item.get())?;
            clauses(alloc, out, over.as_slice())?;
            close(out)
        }
        Expr::Dict(all, comma) => {
            open(out, "Dict")?;
            pairs(alloc, out, all.as_slice())?;
            comma_if(out, *comma)?;
            close(out)
        }
        Expr::DictOver(key, value, over) => {
            open(out, "DictOver")?;
            expr(alloc, out, key.get())?;
            expr(alloc, out, value.get())?;
            clauses(alloc, out, over.as_slice())?;
            close(out)
        }
        Expr::Primary(head, all) => {
            open(out, "Primary")?;
            expr(alloc, out, head.get())?;
            suffixes(alloc, out, all.as_slice())?;
            close(out)
        }
        _ => operation(alloc, out, tree),
    }
}

/// Adds the shape of an operation.
#[cycle(shape)]
fn operation(alloc: Global, out: &mut Text, tree: &Expr) -> Result<(), NoMemory> {
    match tree {
        Expr::Signed(signs, operand) => {
            open(out, "Signed")?;
            for sign in signs.as_slice() {
                word(out, format!(in alloc; "{sign:?}")?.as_str())?;
            }
            expr(alloc, out, operand.get())?;
        }
        Expr::Chain(level, first, all) => {
            open(out, format!(in alloc; "{level:?}")?.as_str())?;
            expr(alloc, out, first.get())?;
            links(alloc, out, all.as_slice())?;
        }
        Expr::Compare(left, op, right) => {
            open(out, "Compare")?;
            expr(alloc, out, left.get())?;
            word(out, format!(in alloc; "{op:?}")?.as_str())?;
            expr(alloc, out, right.get())?;
        }
        Expr::Not(count, operand) => {
            open(out, "Not")?;
            word(out, format!(in alloc; "{count}")?.as_str())?;
            expr(alloc, out, operand.get())?;
        }
        Expr::Conditional(all, last) => {
            open(out, "Conditional")?;
            arms(alloc, out, all.as_slice())?;
            expr(alloc, out, last.get())?;
        }
        _ => open(out, "Unknown")?,
    }
    close(out)
}

/// Adds the shapes of expressions, in order.
#[cycle(shape)]
pub fn exprs(alloc: Global, out: &mut Text, trees: &[Expr]) -> Result<(), NoMemory> {
    for tree in trees {
        expr(alloc, out, tree)?;
    }
    Ok(())
}

/// Adds the shape of a part that may be left out, which `-` stands for.
#[cycle(shape)]
fn optional(alloc: Global, out: &mut Text, tree: &Option<Expr>) -> Result<(), NoMemory> {
    match tree {
        Some(tree) => expr(alloc, out, tree),
        None => word(out, "-"),
    }
}

/// Adds the shape of what stands after the second colon of a slice, if that is written.
#[cycle(shape)]
fn second_colon(
    alloc: Global,
    out: &mut Text,
    step: &Option<Option<Expr>>,
) -> Result<(), NoMemory> {
    match step {
        Some(step) => optional(alloc, out, step),
        None => Ok(()),
    }
}

/// Adds the shapes of arguments.
#[cycle(shape)]
fn arguments(alloc: Global, out: &mut Text, given: &Arguments<Expr>) -> Result<(), NoMemory> {
    exprs(alloc, out, given.positional.as_slice())?;
    named(alloc, out, given.named.as_slice())?;
    comma_if(out, given.comma)
}

/// Adds the shapes of named values.
#[cycle(shape)]
pub fn named(alloc: Global, out: &mut Text, all: &[Named<Expr>]) -> Result<(), NoMemory> {
    for one in all {
        open(out, "Named")?;
        word(out, one.name.as_str())?;
        expr(alloc, out, &one.value)?;
        close(out)?;
    }
    Ok(())
}

/// Adds the shapes of suffixes.
#[cycle(shape)]
fn suffixes(alloc: Global, out: &mut Text, all: &[Suffix<Expr>]) -> Result<(), NoMemory> {
    for suffix in all {
        match suffix {
            Suffix::Index(at) => {
                open(out, "Index")?;
                expr(alloc, out, at)?;
            }
            Suffix::Slice(start, stop, step) => {
                open(out, "Slice")?;
                optional(alloc, out, start)?;
                optional(alloc, out, stop)?;
                second_colon(alloc, out, step)?;
            }
            Suffix::Call(given) => {
                open(out, "Call")?;
                arguments(alloc, out, given)?;
            }
            Suffix::Method(name, given) => {
                open(out, "Method")?;
                word(out, name.as_str())?;
                arguments(alloc, out, given)?;
            }
        }
        close(out)?;
    }
    Ok(())
}

/// Adds the shapes of clauses.
#[cycle(shape)]
fn clauses(alloc: Global, out: &mut Text, all: &[Clause<Expr>]) -> Result<(), NoMemory> {
    for clause in all {
        match clause {
            Clause::For(targets, over) => {
                open(out, "For")?;
                exprs(alloc, out, targets.as_slice())?;
                word(out, "in")?;
                expr(alloc, out, over)?;
            }
            Clause::If(condition) => {
                open(out, "If")?;
                expr(alloc, out, condition)?;
            }
        }
        close(out)?;
    }
    Ok(())
}

/// Adds the shapes of pairs.
#[cycle(shape)]
fn pairs(alloc: Global, out: &mut Text, all: &[Pair<Expr>]) -> Result<(), NoMemory> {
    for pair in all {
        open(out, "Pair")?;
        expr(alloc, out, &pair.key)?;
        expr(alloc, out, &pair.value)?;
        close(out)?;
    }
    Ok(())
}

/// Adds the arms of a conditional, in order.
#[cycle(shape)]
fn arms(alloc: Global, out: &mut Text, all: &[Arm<Expr>]) -> Result<(), NoMemory> {
    for arm in all {
        open(out, "Arm")?;
        expr(alloc, out, &arm.value)?;
        expr(alloc, out, &arm.condition)?;
        close(out)?;
    }
    Ok(())
}

/// Adds the further operands of a chain, each after its operator.
#[cycle(shape)]
fn links(alloc: Global, out: &mut Text, all: &[Link<Expr>]) -> Result<(), NoMemory> {
    for link in all {
        chain_op(alloc, out, link.op)?;
        expr(alloc, out, &link.operand)?;
    }
    Ok(())
}
