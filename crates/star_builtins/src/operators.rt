//! The operators between two operands.
ghost use Rattle.std.specs.Prelude.{IfOk, IsTrue};
ghost use Rattle.star_builtins.specs.Reached.{Fits, Follows, GivesWeighed, HasRoom, names, store};
ghost use Rattle.star_meaning.specs.Operators as spec;
ghost use Rattle.star_meaning.specs.Steps.{Gives};
ghost use Rattle.star_meaning.specs.Validity.{all_in, is_proper};
ghost use Rattle.star_value.specs.declared.value.Value.{out-Value};

use crate::adding::add;
use crate::arithmetic;
use crate::formatting::format;
use crate::repeating::multiply;
use heap_store::Machine;
use star_syntax::{BinaryOp, Program};
use star_value::{Meter, Stop, Value};
use std::alloc::Global;

/// What an operator makes of two operands, as the table of `docs/LANGUAGE.md` says. A text or tuple
/// on the left of `+` is extended in its place. A new list charges the weights of its items before
/// they are copied; it takes time linear in the result.
///
/// A text or tuple that is repeated past what is left is not made: the call then fails with
/// StepLimit, as its caller's charge of the result's weight would.
#[tactic(auto, unfolding(star_meaning::specs::Operators::binary), using(crate::proofs::WeighedLemmas::weighing))]
pub fn binary(
    alloc: Global,
    op: BinaryOp,
    left: Value,
    right: Value,
    program: &Program,
    machine: &mut Machine,
    meter: &mut Meter,
) -> Result<Value, Stop>
    requires left { Fits machine.old left }
    requires right { Fits machine.old right }
    requires held { IsTrue (all_in is_proper machine.old.state) }
    requires room { HasRoom machine.old }
    ensures gives { GivesWeighed (spec.binary (names program.now) op left right (store machine.old meter.old.left)) result (store machine.new meter.new.left) }
    ensures fits { IfOk result (λ v. Fits machine.new v) }
    ensures follows { Follows machine.old machine.new }
{
    match op {
        BinaryOp::Add => add(alloc, left, right, machine, meter),
        BinaryOp::Mul => multiply(alloc, &left, &right, machine, meter),
        BinaryOp::Mod => modulo(alloc, &left, &right, program, machine, meter),
        BinaryOp::Sub => arithmetic::subtract(&left, &right),
        BinaryOp::Floor => arithmetic::floor(&left, &right),
        BinaryOp::And => arithmetic::and(&left, &right),
        BinaryOp::Or => arithmetic::or(&left, &right),
        BinaryOp::Xor => arithmetic::xor(&left, &right),
    }
}

/// A format on the left, or two integers.
fn modulo(
    alloc: Global,
    left: &Value,
    right: &Value,
    program: &Program,
    machine: &Machine,
    meter: &mut Meter,
) -> Result<Value, Stop>
    requires { Fits machine.now right.now }
    ensures gives { Gives (spec.modulo_at (names program.now) (out-Value left.now) right.now (store machine.now meter.old.left)) result (store machine.now meter.new.left) }
    ensures fits { IfOk result (λ v. Fits machine.now v) }
{
    match left {
        Value::Text(text) => format(alloc, text, right, program, machine, meter),
        _ => arithmetic::modulo(left, right),
    }
}
