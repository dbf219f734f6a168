//! Integers of 128 bits: each call answers None where the result does not fit them.
ghost use Rattle.std.specs.Prelude.{◌≡◌, ◌<◌, ◌^◌, false, pos, negsuc, ℕ, ◌+ℤ◌, ◌-ℤ◌, ◌*ℤ◌, neg_ℤ, IfOk, option_map};
ghost use Rattle.std.specs.Int.{int_bit_and, int_bit_or, int_bit_xor, int_bit_not, w128};
ghost use Rattle.star_builtins.specs.Quotients.{rest_size, signed_as};
ghost use Rattle.star_builtins.specs.Reached.{Answers, Fits};
ghost use Rattle.star_meaning.specs.Steps.{Gives, Store, given_or};
ghost use Rattle.star_meaning.specs.Validity.{MachineState};
ghost use Rattle.star_meaning.specs.Values as values;
ghost use Rattle.star_meaning.specs.Values.{floor_of, in_range, rest_of};
ghost use Rattle.star_value.specs.declared.failure.Failure.TheVariants as failure;
ghost use Rattle.star_value.specs.declared.value.Value.TheVariants as value;

use star_value::{Failure, Stop, Value};

/// The sum of two integers.
#[tactic(auto, using(crate::proofs::IntegerLemmas::in_range_if))]
pub fn sum(left: i128, right: i128) -> Option<i128>
    ensures { result ≡ in_range (left +ℤ right) }
{
    left.checked_add(right)
}

/// The first integer less the second.
#[tactic(auto, using(crate::proofs::IntegerLemmas::in_range_if))]
pub fn difference(left: i128, right: i128) -> Option<i128>
    ensures { result ≡ in_range (left -ℤ right) }
{
    left.checked_sub(right)
}

/// The product of two integers.
#[tactic(auto, using(crate::proofs::IntegerLemmas::in_range_if))]
pub fn product(left: i128, right: i128) -> Option<i128>
    ensures { result ≡ in_range (left *ℤ right) }
{
    left.checked_mul(right)
}

/// The integer with its sign changed.
#[tactic(auto, using(crate::proofs::IntegerLemmas::in_range_if))]
pub fn negated(number: i128) -> Option<i128>
    ensures { result ≡ in_range (neg_ℤ number) }
{
    number.checked_neg()
}

/// The integer itself, which always fits.
#[tactic(auto, using(crate::proofs::IntegerLemmas::in_range_fits))]
pub fn same(number: i128) -> Option<i128>
    ensures { result ≡ in_range number }
{
    Some(number)
}

/// The integer with all bits turned.
pub fn inverted(number: i128) -> Option<i128>
    ensures { result ≡ in_range (int_bit_not w128 number) }
{
    same(!number)
}

/// The bits that both integers have, in two's complement.
pub fn bits_of_both(left: i128, right: i128) -> Option<i128>
    ensures { result ≡ in_range (int_bit_and w128 left right) }
{
    same(left & right)
}

/// The bits that one of the integers has, in two's complement.
pub fn bits_of_either(left: i128, right: i128) -> Option<i128>
    ensures { result ≡ in_range (int_bit_or w128 left right) }
{
    same(left | right)
}

/// The bits that just one of the integers has, in two's complement.
pub fn bits_of_one(left: i128, right: i128) -> Option<i128>
    ensures { result ≡ in_range (int_bit_xor w128 left right) }
{
    same(left ^ right)
}

/// An integer as a value.
pub fn value_of(number: i128) -> Value
    ensures is { result ≡ value.Int number }
    ensures fits { (m : MachineState) → Fits m result }
{
    Value::Int(number)
}

/// An integer as a result.
pub fn as_value(answer: Option<i128>) -> Result<Value, Failure>
    ensures gives { (s : Store ℕ) → Answers (given_or failure.IntegerTooLarge (option_map value.Int answer) s) result s }
    ensures fits { (m : MachineState) → IfOk result (λ v. Fits m v) }
{
    match answer {
        Some(number) => Ok(value_of(number)),
        None => Err(Failure::IntegerTooLarge),
    }
}

/// The same, where memory may be wanting too.
pub fn as_result(answer: Option<i128>) -> Result<Value, Stop>
    ensures gives { (s : Store ℕ) → Gives (given_or failure.IntegerTooLarge (option_map value.Int answer) s) result s }
    ensures fits { (m : MachineState) → IfOk result (λ v. Fits m v) }
{
    match answer {
        Some(number) => Ok(value_of(number)),
        None => Err(Stop::Failure(Failure::IntegerTooLarge)),
    }
}

/// Whether an integer is 0.
pub fn is_zero(number: i128) -> bool
    ensures { result ≡ values.is_zero number }
{
    number == 0
}

/// A number that is not negative.
#[tactic(auto, using(crate::proofs::IntegerLemmas::in_range_if))]
pub fn positive(size: u128) -> Option<i128>
    ensures { result ≡ in_range (pos size) }
{
    0i128.checked_add_unsigned(size)
}

/// The number that lies one further below 0 than a size.
#[tactic(auto, using(crate::proofs::IntegerLemmas::in_range_if))]
pub fn below_zero(size: u128) -> Option<i128>
    ensures { result ≡ in_range (negsuc size) }
{
    (-1i128).checked_sub_unsigned(size)
}

/// The quotient, rounded down.
pub fn quotient(left: i128, right: i128) -> Option<i128>
    requires { values.is_zero right ≡ false }
    ensures { result ≡ in_range (floor_of left right) }
{
    let size = left.unsigned_abs();
    let by = right.unsigned_abs();
    if (left < 0) == (right < 0) {
        positive(size / by)
    } else if size == 0 {
        positive(0)
    } else {
        below_zero((size - 1) / by)
    }
}

/// What is left of the quotient, which has the sign of the divisor.
pub fn rest(left: i128, right: i128) -> Option<i128>
    requires { values.is_zero right ≡ false }
    ensures { result ≡ in_range (rest_of left right) }
{
    same(signed_rest(left, right))
}

#[tactic(auto, using(crate::proofs::QuotientLemmas::rest_is))]
fn signed_rest(left: i128, right: i128) -> i128
    requires { values.is_zero right ≡ false }
    ensures { result ≡ rest_of left right }
{
    with_sign(right, size_of_rest(left, right))
}

fn size_of_rest(left: i128, right: i128) -> u128
    requires { values.is_zero right ≡ false }
    ensures value { result ≡ rest_size left right }
    ensures small { result < 2 ^ 127 }
{
    let size = left.unsigned_abs();
    let by = right.unsigned_abs();
    if (left < 0) == (right < 0) {
        size % by
    } else if size == 0 {
        0
    } else {
        by - 1 - (size - 1) % by
    }
}

fn with_sign(of: i128, size: u128) -> i128
    requires { size < 2 ^ 127 }
    ensures { result ≡ signed_as of size }
{
    if of < 0 {
        -(size as i128)
    } else {
        size as i128
    }
}
