//! Written forms of lists, and their comparisons, each with 100 steps.

use crate::fault::Fault;
use crate::kinds::check_list;
use crate::words::{cut, number_and};
use chex_base::{ObjectId, Text};
use heap_store::Machine;
use star_builtins::{compare, show};
use star_syntax::{Cells, CompareOp, Program};
use star_value::{Meter, Value};
use std::alloc::Global;

/// A program without cells.
pub fn no_program(alloc: Global) -> Program {
    Program {
        cells: Cells::from_vec(Vec::new(alloc)),
    }
}

/// `ID`: the quoted form of a list, and the steps that are left.
pub fn quoted(alloc: Global, machine: &Machine, rest: &str) -> Result<String, Fault> {
    let (id, _) = number_and(rest)?;
    let id = ObjectId(id);
    check_list(machine, id)?;
    let program = no_program(alloc);
    let of = Value::List(id);
    let mut meter = Meter { left: 100 };
    let mut out = Text::new(alloc);
    show(alloc, &of, &program, machine, true, &mut meter, &mut out)?;
    Ok(format!(in alloc; "{} with {} left", out.as_str(), meter.left)?)
}

const COMPARISONS: [(&str, CompareOp); 6] = [
    ("==", CompareOp::Equal),
    ("!=", CompareOp::NotEqual),
    ("<", CompareOp::Less),
    (">", CompareOp::Greater),
    ("<=", CompareOp::AtMost),
    (">=", CompareOp::AtLeast),
];

fn comparison_of(sign: &str) -> Result<CompareOp, Fault> {
    for (word, op) in COMPARISONS {
        if word == sign {
            return Ok(op);
        }
    }
    Err(Fault::Unread)
}

/// `SIGN ID ID`
pub fn compared(alloc: Global, machine: &Machine, rest: &str) -> Result<String, Fault> {
    let (sign, rest) = cut(rest);
    let op = comparison_of(sign)?;
    let (left, rest) = number_and(rest)?;
    let left = ObjectId(left);
    let (right, _) = number_and(rest)?;
    let right = ObjectId(right);
    let answer = lists_compare(alloc, machine, op, left, right)?;
    Ok(format!(in alloc; "{answer}")?)
}

fn lists_compare(
    alloc: Global,
    machine: &Machine,
    op: CompareOp,
    left: ObjectId,
    right: ObjectId,
) -> Result<bool, Fault> {
    check_list(machine, left)?;
    check_list(machine, right)?;
    let left = Value::List(left);
    let right = Value::List(right);
    let mut meter = Meter { left: 100 };
    Ok(compare(alloc, op, &left, &right, machine, &mut meter)?)
}
