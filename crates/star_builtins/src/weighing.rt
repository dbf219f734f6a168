//! How values that hold no others are weighed. An order says which of two values is the first, and
//! none that they are unequal.
ghost use Rattle.std.specs.Prelude.{◌≡◌};
ghost use Rattle.std.specs.Ordering.{int_eq};
ghost use Rattle.star_builtins.specs.Weighing.{plain_at, verdict_of};
ghost use Rattle.star_meaning.specs.Comparing as spec;
ghost use Rattle.star_value.specs.declared.value.Value.{out-Value};
ghost use Rattle.star_value.specs.declared.value.Value.TheOpen.{Value-F};

use crate::parts::text_of;
use crate::plain::builtin_word;
use chex_base::{ObjectId, Text};
use star_value::{Builtin, Range, Value};
use std::cmp::Ordering;

/// The steps that a pair of values takes itself: 1, and for two texts also the shorter length.
#[tactic(auto, using(crate::proofs::Weighed::own_part_is))]
pub fn own_part(left: &Value, right: &Value) -> u64
    ensures { result ≡ spec.own_part left.now right.now }
{
    match (text_of(left), text_of(right)) {
        (Some(left), Some(right)) => left.len().min(right.len()) as u64 + 1,
        _ => 1,
    }
}

/// Whether an order says that two values are equal.
pub fn is_same(order: Option<Ordering>) -> bool
    ensures { result ≡ spec.is_same (verdict_of order) }
{
    match order {
        Some(Ordering::Equal) => true,
        _ => false,
    }
}

fn same_if(is_same: bool) -> Option<Ordering>
    ensures { verdict_of result ≡ spec.same_if is_same }
{
    if is_same { Some(Ordering::Equal) } else { None }
}

/// None against a value.
#[tactic(auto, using(crate::proofs::Outs::outs))]
pub fn weigh_none(right: &Value) -> Option<Ordering>
    ensures { verdict_of result ≡ plain_at Value-F.None (out-Value right.now) }
{
    match right {
        Value::None => Some(Ordering::Equal),
        _ => None,
    }
}

/// A bool against a value.
#[tactic(auto, using(crate::proofs::Outs::outs))]
pub fn weigh_bool(left: bool, right: &Value) -> Option<Ordering>
    ensures { verdict_of result ≡ plain_at (Value-F.Bool left) (out-Value right.now) }
{
    match right {
        Value::Bool(right) => same_if(left == *right),
        _ => None,
    }
}

/// An integer against a value.
#[tactic(auto, using(crate::proofs::Outs::outs))]
pub fn weigh_int(left: i128, right: &Value) -> Option<Ordering>
    ensures { verdict_of result ≡ plain_at (Value-F.Int left) (out-Value right.now) }
{
    match right {
        Value::Int(right) => Some(left.cmp(right)),
        _ => None,
    }
}

/// A text against a value.
#[tactic(auto, using(crate::proofs::Outs::outs))]
pub fn weigh_text(left: &Text, right: &Value) -> Option<Ordering>
    ensures { verdict_of result ≡ plain_at (Value-F.Text left.now) (out-Value right.now) }
{
    match right {
        Value::Text(right) => Some(left.cmp(right)),
        _ => None,
    }
}

/// A range against a value.
#[tactic(auto, using(crate::proofs::Outs::outs))]
pub fn weigh_range(left: &Range, right: &Value) -> Option<Ordering>
    ensures { verdict_of result ≡ plain_at (Value-F.Range left.now) (out-Value right.now) }
{
    match right {
        Value::Range(right) => same_if(is_same_range(left, right)),
        _ => None,
    }
}

/// A function against a value.
#[tactic(auto, using(crate::proofs::Outs::outs))]
pub fn weigh_function(left: ObjectId, right: &Value) -> Option<Ordering>
    ensures { verdict_of result ≡ plain_at (Value-F.Function left) (out-Value right.now) }
{
    match right {
        Value::Function(right) => same_if(left.0 == right.0),
        _ => None,
    }
}

/// A built-in function against a value.
#[tactic(auto, using(crate::proofs::Outs::outs))]
pub fn weigh_builtin(left: Builtin, right: &Value) -> Option<Ordering>
    ensures { verdict_of result ≡ plain_at (Value-F.Builtin left) (out-Value right.now) }
{
    match right {
        Value::Builtin(right) => same_if(is_same_builtin(left, *right)),
        _ => None,
    }
}

/// Whether two ranges give the same integers.
fn is_same_range(left: &Range, right: &Range) -> bool
    ensures { result ≡ spec.same_range left.now right.now }
{
    let count = left.len();
    if count != right.len() {
        return false;
    }
    if count == 0 {
        return true;
    }
    if !is_same_int(left.start, right.start) {
        return false;
    }
    if count == 1 {
        return true;
    }
    is_same_int(left.step, right.step)
}

fn is_same_int(left: i128, right: i128) -> bool
    ensures { result ≡ int_eq left right }
{
    left == right
}

/// Whether two built-in functions are one, which their names tell.
fn is_same_builtin(left: Builtin, right: Builtin) -> bool
    ensures { result ≡ spec.same_builtin left right }
{
    builtin_word(left) == builtin_word(right)
}
