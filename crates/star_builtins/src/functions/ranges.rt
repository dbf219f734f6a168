//! Ranges.
ghost use Rattle.std.specs.Prelude.{◌≡◌, ℕ, Option, Some, None, IfOk, pos};
ghost use Rattle.star_builtins.specs.Reached.{Answers, Fits};
ghost use Rattle.star_builtins.specs.Rows.{ranged as ranged_row};
ghost use Rattle.star_meaning.specs.Builtins as spec;
ghost use Rattle.star_meaning.specs.Steps.{Store};
ghost use Rattle.star_meaning.specs.Validity.{MachineState};

use crate::integers::is_zero;
use crate::parts::int_of;
use star_value::{Failure, Range, Value, Values};

/// `range(stop)`, `range(start, stop)` and `range(start, stop, step)`: the integers from the start,
/// or 0, up to the stop in steps, or in steps of 1. The step 0 is ZeroDivisor. It takes no memory.
#[tactic(auto, using(crate::proofs::RangeRows::rows))]
pub fn range(values: &Values) -> Result<Value, Failure>
    ensures gives { (s : Store ℕ) → Answers (spec.range values.now s) result s }
    ensures fits { (m : MachineState) → IfOk result (λ v. Fits m v) }
{
    match values.as_slice() {
        [stop] => ranged(Some(0), int_of(stop), Some(1)),
        [start, stop] => ranged(int_of(start), int_of(stop), Some(1)),
        [start, stop, step] => ranged(int_of(start), int_of(stop), int_of(step)),
        _ => Err(Failure::WrongArguments),
    }
}

/// A range of these integers; what is no integer is of a wrong type.
fn ranged(start: Option<i128>, stop: Option<i128>, step: Option<i128>) -> Result<Value, Failure>
    ensures gives { (s : Store ℕ) → Answers (ranged_row start stop step s) result s }
    ensures fits { (m : MachineState) → IfOk result (λ v. Fits m v) }
{
    let Some(start) = start else {
        return Err(Failure::WrongType);
    };
    let Some(stop) = stop else {
        return Err(Failure::WrongType);
    };
    let Some(step) = step else {
        return Err(Failure::WrongType);
    };
    new_range(start, stop, step)
}

/// A range whose step is not 0.
#[tactic(auto, using(crate::proofs::RangeRows::fits_range))]
fn new_range(start: i128, stop: i128, step: i128) -> Result<Value, Failure>
    ensures gives { (s : Store ℕ) → Answers (spec.new_range start stop step s) result s }
    ensures fits { (m : MachineState) → IfOk result (λ v. Fits m v) }
{
    if is_zero(step) {
        return Err(Failure::ZeroDivisor);
    }
    Ok(Value::Range(Range { start, stop, step }))
}
