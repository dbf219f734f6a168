//! Operators, index and slice over integers and texts, each with 100 steps over a new machine.
ghost use Rattle.std.specs.Prelude.{IfOk, IsTrue};
ghost use Rattle.star_builtins.specs.Reached.{Fits, HasRoom};
ghost use Rattle.star_meaning.specs.Validity.{MachineState, all_in, is_proper};

use crate::fault::Fault;
use crate::showing::no_program;
use crate::words::{cut, integer};
use chex_base::{NodeId, Text};
use heap_store::Machine;
use star_builtins::{Bounds, binary, index, slice, unary};
use star_syntax::{BinaryOp, UnaryOp};
use star_value::{Meter, Stop, Value};
use std::alloc::Global;

/// A machine in which the cell of node 1 runs.
pub fn entered(alloc: Global) -> Result<Machine, Fault>
    ensures held { IfOk result (λ m. IsTrue (all_in is_proper m.state)) }
    ensures room { IfOk result (λ m. HasRoom m) }
{
    let mut machine = Machine::new(alloc);
    machine.enter(NodeId(1))?;
    Ok(machine)
}

/// `int 7` or `text ab`
fn operand(alloc: Global, words: &str) -> Result<Value, Fault>
    ensures { (m : MachineState) → IfOk result (λ v. Fits m v) }
{
    match cut(words) {
        ("int", rest) => Ok(int_value(integer(rest)?)),
        ("text", rest) => Ok(text_value(Text::from_str(alloc, rest)?)),
        _ => Err(Fault::Unread),
    }
}

fn int_value(number: i128) -> Value
    ensures { (m : MachineState) → Fits m result }
{
    Value::Int(number)
}

fn text_value(text: Text) -> Value
    ensures { (m : MachineState) → Fits m result }
{
    // The text is one of Unicode scalar values.
    let _characters = text.as_str();
    Value::Text(text)
}

/// Makes the call of a row, whose parts stand apart by tabs, and shows what it answers.
pub fn answer(alloc: Global, call: &str) -> Result<String, Fault> {
    let (word, rest) = field(call)?;
    match word {
        "binary" => binary_of(alloc, rest),
        "unary" => unary_of(alloc, rest),
        "index" => index_of(alloc, rest),
        "slice" => slice_of(alloc, rest),
        _ => Err(Fault::Unread),
    }
}

/// What stands before the first tab, and behind it.
fn field(call: &str) -> Result<(&str, &str), Fault> {
    match call.split_once('\t') {
        Some(parts) => Ok(parts),
        None => Err(Fault::Unread),
    }
}

fn shown(alloc: Global, answer: &Result<Value, Stop>) -> Result<String, Fault> {
    Ok(format!(in alloc; "{answer:?}")?)
}

const OPERATORS: [(&str, BinaryOp); 8] = [
    ("+", BinaryOp::Add),
    ("-", BinaryOp::Sub),
    ("*", BinaryOp::Mul),
    ("//", BinaryOp::Floor),
    ("%", BinaryOp::Mod),
    ("&", BinaryOp::And),
    ("|", BinaryOp::Or),
    ("^", BinaryOp::Xor),
];

fn operator_of(sign: &str) -> Result<BinaryOp, Fault> {
    for (word, op) in OPERATORS {
        if word == sign {
            return Ok(op);
        }
    }
    Err(Fault::Unread)
}

/// The left operand, the operator and the right operand.
fn binary_of(alloc: Global, rest: &str) -> Result<String, Fault> {
    let (left, rest) = field(rest)?;
    let (sign, right) = field(rest)?;
    let op = operator_of(sign)?;
    let left = operand(alloc, left)?;
    let right = operand(alloc, right)?;
    computed(alloc, left, op, right)
}

fn computed(alloc: Global, left: Value, op: BinaryOp, right: Value) -> Result<String, Fault>
    requires left { (m : MachineState) → Fits m left }
    requires right { (m : MachineState) → Fits m right }
{
    let mut machine = entered(alloc)?;
    let program = no_program(alloc);
    let mut meter = Meter { left: 100 };
    let answer = binary(alloc, op, left, right, &program, &mut machine, &mut meter);
    shown(alloc, &answer)
}

/// The sign and the integer behind it. No step is left.
fn unary_of(alloc: Global, rest: &str) -> Result<String, Fault> {
    let (sign, number) = field(rest)?;
    let number = integer(number)?;
    let op = match sign {
        "+" => UnaryOp::Plus,
        "-" => UnaryOp::Minus,
        "~" => UnaryOp::Invert,
        _ => return Err(Fault::Unread),
    };
    let mut meter = Meter { left: 0 };
    Ok(format!(in alloc; "{:?}", unary(op, Value::Int(number), &mut meter))?)
}

/// What is indexed, and the integer of the place.
fn index_of(alloc: Global, rest: &str) -> Result<String, Fault> {
    let (of, at) = field(rest)?;
    let at = integer(at)?;
    let of = operand(alloc, of)?;
    indexed(alloc, &of, at)
}

fn indexed(alloc: Global, of: &Value, at: i128) -> Result<String, Fault>
    requires { (m : MachineState) → Fits m of.now }
{
    let machine = entered(alloc)?;
    let mut meter = Meter { left: 100 };
    let answer = index(alloc, of, &Value::Int(at), &machine, &mut meter);
    shown(alloc, &answer)
}

/// What is sliced, and the three bounds, each an integer or `none`.
fn slice_of(alloc: Global, rest: &str) -> Result<String, Fault> {
    let (of, words) = field(rest)?;
    let (start, rest) = cut(words);
    let (stop, step) = cut(rest);
    let bounds = Bounds {
        start: bound(start)?,
        stop: bound(stop)?,
        step: bound(step)?,
    };
    let of = operand(alloc, of)?;
    sliced(alloc, &of, &bounds)
}

fn bound(word: &str) -> Result<Option<Value>, Fault> {
    if word == "none" {
        return Ok(None);
    }
    Ok(Some(Value::Int(integer(word)?)))
}

fn sliced(alloc: Global, of: &Value, bounds: &Bounds) -> Result<String, Fault>
    requires { (m : MachineState) → Fits m of.now }
{
    let mut machine = entered(alloc)?;
    let mut meter = Meter { left: 100 };
    let answer = slice(alloc, of, bounds, &mut machine, &mut meter);
    shown(alloc, &answer)
}
