//! Inputs from assignments of literals, as `n = 1`.

use crate::fault::Fault;
use crate::sources::{lines, module_of};
use chex_base::{Input, InputItem, InputList, Inputs, Text};
use star_syntax::{Expr, SmallKind, Statement};
use std::alloc::Global;

/// The inputs of a row.
pub fn inputs_of(alloc: Global, source: &str) -> Result<Inputs, Fault> {
    let source = lines(alloc, source)?;
    let module = module_of(alloc, source.as_str())?;
    let mut inputs = Inputs::new(alloc);
    for statement in module.statements.as_slice() {
        let (name, tree) = named(statement)?;
        let value = input_of(alloc, tree)?;
        inputs.set(name.copy(alloc)?, value)?;
    }
    Ok(inputs)
}

/// The name and the value of an assignment.
fn named(statement: &Statement) -> Result<(&Text, &Expr), Fault> {
    let Statement::Line(line) = statement else {
        return Err(Fault::Unread);
    };
    let [small] = line.smalls.as_slice() else {
        return Err(Fault::Unread);
    };
    let SmallKind::Assign(targets, tests) = &small.kind else {
        return Err(Fault::Unread);
    };
    match (targets.as_slice(), tests.as_slice()) {
        ([Expr::Name(name)], [tree]) => Ok((name, tree)),
        _ => Err(Fault::Unread),
    }
}

fn input_of(alloc: Global, tree: &Expr) -> Result<Input, Fault> {
    match tree {
        Expr::None => Ok(Input::None),
        Expr::True => Ok(Input::Bool(true)),
        Expr::False => Ok(Input::Bool(false)),
        Expr::Int(number) => Ok(Input::Int(*number)),
        Expr::Text(text) => Ok(Input::Text(text.copy(alloc)?)),
        Expr::List(trees, _) => Ok(Input::List(items_of(alloc, trees.as_slice())?)),
        _ => Err(Fault::Unread),
    }
}

fn items_of(alloc: Global, trees: &[Expr]) -> Result<InputList, Fault> {
    let mut items = InputList::new(alloc);
    for tree in trees {
        let item = item_of(alloc, tree)?;
        items.add(item)?;
    }
    Ok(items)
}

fn item_of(alloc: Global, tree: &Expr) -> Result<InputItem, Fault> {
    match tree {
        Expr::None => Ok(InputItem::None),
        Expr::True => Ok(InputItem::Bool(true)),
        Expr::False => Ok(InputItem::Bool(false)),
        Expr::Int(number) => Ok(InputItem::Int(*number)),
        Expr::Text(text) => Ok(InputItem::Text(text.copy(alloc)?)),
        _ => Err(Fault::Unread),
    }
}
