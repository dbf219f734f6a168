//! Signs: `+`, `-` and `~` before an operand.
ghost use Rattle.std.specs.Prelude.{◌≡◌, ℕ, IfOk};
ghost use Rattle.star_builtins.specs.Reached.{Answers, Fits};
ghost use Rattle.star_meaning.specs.Operators as spec;
ghost use Rattle.star_meaning.specs.State.{State};
ghost use Rattle.star_meaning.specs.Steps.{Store};
ghost use Rattle.star_meaning.specs.Validity.{MachineState};

use crate::integers;
use star_syntax::UnaryOp;
use star_value::{Failure, Meter, Value};

/// The integer that a sign makes of an integer: itself, the negated one, or the one with all bits
/// turned. Another operand is WrongType, and a result outside 128 bits is IntegerTooLarge. It
/// takes no steps.
pub fn unary(op: UnaryOp, operand: Value, meter: &mut Meter) -> Result<Value, Failure>
    ensures gives { (state : State ℕ) → Answers (spec.unary op operand (record { state = state; left = meter.old.left })) result (record { state = state; left = meter.new.left }) }
    ensures fits { (m : MachineState) → IfOk result (λ v. Fits m v) }
{
    signed(op, &operand)
}

#[tactic(auto, unfolding(star_meaning::specs::Operators::unary))]
fn signed(op: UnaryOp, operand: &Value) -> Result<Value, Failure>
    ensures gives { (s : Store ℕ) → Answers (spec.unary op operand.now s) result s }
    ensures fits { (m : MachineState) → IfOk result (λ v. Fits m v) }
{
    match (op, operand) {
        (UnaryOp::Plus, Value::Int(number)) => integers::as_value(integers::same(*number)),
        (UnaryOp::Minus, Value::Int(number)) => integers::as_value(integers::negated(*number)),
        (UnaryOp::Invert, Value::Int(number)) => integers::as_value(integers::inverted(*number)),
        _ => Err(Failure::WrongType),
    }
}
