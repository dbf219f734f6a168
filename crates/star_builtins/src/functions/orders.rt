//! The order of values that are all integers or all texts.
ghost use Rattle.std.specs.Prelude.{◌≡◌, ◌<◌, length, slice_get};
ghost use Rattle.std.specs.List.{list_all};
ghost use Rattle.star_builtins.specs.Sorting.{better, leader};
ghost use Rattle.star_meaning.specs.Builtins as spec;
ghost use Rattle.star_value.specs.declared.value.Value.{out-Value};
ghost use Rattle.star_value.specs.declared.value.Value.TheOpen.{Value-F};

use crate::parts::{int_of, text_of};
use chex_base::Text;
use star_value::Value;

/// Whether two values are both integers or both texts. A bool is no integer.
#[tactic(auto, using(crate::proofs::Outs::outs, crate::proofs::SortLemmas::kinds))]
pub fn are_alike(left: &Value, right: &Value) -> bool
    ensures { result ≡ spec.are_alike left.now right.now }
{
    match left {
        Value::Int(_) => int_of(right).is_some(),
        Value::Text(_) => text_of(right).is_some(),
        _ => false,
    }
}

/// Whether all these values are integers where the first one is, and texts where it is a text.
pub fn all_alike(first: &Value, values: &[Value]) -> bool
    ensures { result ≡ list_all (spec.are_alike first.now) values.now }
{
    for value in values {
        if !are_alike(first, value) {
            return false;
        }
    }
    true
}

/// Whether one of two integers or texts comes before the other.
#[tactic(auto, using(crate::proofs::Outs::outs))]
fn is_before(left: &Value, right: &Value) -> bool
    ensures { result ≡ spec.is_before left.now right.now }
{
    match left {
        Value::Int(number) => number_before(*number, right),
        Value::Text(text) => text_before(text, right),
        _ => false,
    }
}

#[tactic(auto, using(crate::proofs::SortLemmas::befores))]
fn number_before(number: i128, right: &Value) -> bool
    ensures { result ≡ spec.is_before_at (Value-F.Int number) (out-Value right.now) }
{
    match int_of(right) {
        Some(other) => number < other,
        None => false,
    }
}

#[tactic(auto, using(crate::proofs::SortLemmas::befores))]
fn text_before(text: &Text, right: &Value) -> bool
    ensures { result ≡ spec.is_before_at (Value-F.Text text.now) (out-Value right.now) }
{
    match text_of(right) {
        Some(other) => *text < *other,
        None => false,
    }
}

/// Whether an item is to be taken in place of another one: a greater one, or a lesser one.
pub fn is_better(greatest: bool, item: &Value, than: &Value) -> bool
    ensures { result ≡ better greatest item.now than.now }
{
    if greatest {
        is_before(than, item)
    } else {
        is_before(item, than)
    }
}

/// The place of the first of the greatest values, or of the least ones.
pub fn best_place(greatest: bool, values: &[Value]) -> usize
    requires { 0 < length values.now }
    ensures within { result < length values.now }
    ensures best { slice_get values.now result ≡ leader (better greatest) values.now }
{
    let mut best = 0;
    for place in 1..values.len() {
        if is_better(greatest, &values[place], &values[best]) {
            best = place;
        }
    }
    best
}
