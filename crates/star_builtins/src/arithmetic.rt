//! The operators on two integers. Each is WrongType where an operand is no integer, and
//! IntegerTooLarge where the result does not fit 128 bits.
ghost use Rattle.std.specs.Int.{int_bit_and, int_bit_or, int_bit_xor, w128};
ghost use Rattle.std.specs.Prelude.{◌-ℤ◌, ℕ, IfOk};
ghost use Rattle.star_builtins.specs.Reached.{Fits};
ghost use Rattle.star_meaning.specs.Operators.{divided, on_ints};
ghost use Rattle.star_meaning.specs.Steps.{Gives, Store};
ghost use Rattle.star_meaning.specs.Validity.{MachineState};
ghost use Rattle.star_meaning.specs.Values.{floor_of, integer, rest_of};
ghost use Rattle.star_value.specs.declared.value.Value.{out-Value};

use crate::integers;
use star_value::{Failure, Stop, Value};

/// `left - right`.
pub fn subtract(left: &Value, right: &Value) -> Result<Value, Stop>
    ensures gives { (s : Store ℕ) → Gives (on_ints (λ a b. integer (a -ℤ b)) (out-Value left.now) (out-Value right.now) s) result s }
    ensures fits { (m : MachineState) → IfOk result (λ v. Fits m v) }
{
    match (left, right) {
        (Value::Int(left), Value::Int(right)) => integers::as_result(integers::difference(
            *left, *right,
        )),
        _ => Err(Stop::Failure(Failure::WrongType)),
    }
}

/// `left // right`, rounded down; ZeroDivisor where the right one is 0.
pub fn floor(left: &Value, right: &Value) -> Result<Value, Stop>
    ensures gives { (s : Store ℕ) → Gives (on_ints (divided floor_of) (out-Value left.now) (out-Value right.now) s) result s }
    ensures fits { (m : MachineState) → IfOk result (λ v. Fits m v) }
{
    match (left, right) {
        (Value::Int(left), Value::Int(right)) => divided_floor(*left, *right),
        _ => Err(Stop::Failure(Failure::WrongType)),
    }
}

/// `left % right` on integers, with the sign of the right one; ZeroDivisor where that is 0.
pub fn modulo(left: &Value, right: &Value) -> Result<Value, Stop>
    ensures gives { (s : Store ℕ) → Gives (on_ints (divided rest_of) (out-Value left.now) (out-Value right.now) s) result s }
    ensures fits { (m : MachineState) → IfOk result (λ v. Fits m v) }
{
    match (left, right) {
        (Value::Int(left), Value::Int(right)) => divided_rest(*left, *right),
        _ => Err(Stop::Failure(Failure::WrongType)),
    }
}

/// `left & right`.
pub fn and(left: &Value, right: &Value) -> Result<Value, Stop>
    ensures gives { (s : Store ℕ) → Gives (on_ints (λ a b. integer (int_bit_and w128 a b)) (out-Value left.now) (out-Value right.now) s) result s }
    ensures fits { (m : MachineState) → IfOk result (λ v. Fits m v) }
{
    match (left, right) {
        (Value::Int(left), Value::Int(right)) => integers::as_result(integers::bits_of_both(
            *left, *right,
        )),
        _ => Err(Stop::Failure(Failure::WrongType)),
    }
}

/// `left | right`.
pub fn or(left: &Value, right: &Value) -> Result<Value, Stop>
    ensures gives { (s : Store ℕ) → Gives (on_ints (λ a b. integer (int_bit_or w128 a b)) (out-Value left.now) (out-Value right.now) s) result s }
    ensures fits { (m : MachineState) → IfOk result (λ v. Fits m v) }
{
    match (left, right) {
        (Value::Int(left), Value::Int(right)) => integers::as_result(integers::bits_of_either(
            *left, *right,
        )),
        _ => Err(Stop::Failure(Failure::WrongType)),
    }
}

/// `left ^ right`.
pub fn xor(left: &Value, right: &Value) -> Result<Value, Stop>
    ensures gives { (s : Store ℕ) → Gives (on_ints (λ a b. integer (int_bit_xor w128 a b)) (out-Value left.now) (out-Value right.now) s) result s }
    ensures fits { (m : MachineState) → IfOk result (λ v. Fits m v) }
{
    match (left, right) {
        (Value::Int(left), Value::Int(right)) => integers::as_result(integers::bits_of_one(
            *left, *right,
        )),
        _ => Err(Stop::Failure(Failure::WrongType)),
    }
}

fn divided_floor(left: i128, right: i128) -> Result<Value, Stop>
    ensures gives { (s : Store ℕ) → Gives (divided floor_of left right s) result s }
    ensures fits { (m : MachineState) → IfOk result (λ v. Fits m v) }
{
    if integers::is_zero(right) {
        return Err(Stop::Failure(Failure::ZeroDivisor));
    }
    integers::as_result(integers::quotient(left, right))
}

fn divided_rest(left: i128, right: i128) -> Result<Value, Stop>
    ensures gives { (s : Store ℕ) → Gives (divided rest_of left right s) result s }
    ensures fits { (m : MachineState) → IfOk result (λ v. Fits m v) }
{
    if integers::is_zero(right) {
        return Err(Stop::Failure(Failure::ZeroDivisor));
    }
    integers::as_result(integers::rest(left, right))
}
