//! Whether cells have one key: the same source, and the same values of the inputs that they name.
ghost use Rattle.std.specs.Prelude.{◌≡◌, map};
ghost use Rattle.std.specs.Option.{option_copied};
ghost use Rattle.std.specs.Ordering.{int_eq};
ghost use Rattle.std.specs.Cmp.Lexicographic.{pointwise};
ghost use Rattle.exec_tree.specs.Keys as spec;

use chex_base::{Input, InputItem, Inputs, Text};
use star_syntax::Cell;

/// Whether a cell under a version's inputs has the key of another one under the inputs of its own
/// version. It takes time linear in the shorter source and, where the sources are equal, in the
/// values of the inputs that the cells name.
#[tactic(auto, unfolding(crate::specs::Keys::same_key))]
pub fn is_same_key(cell: &Cell, inputs: &Inputs, other: &Cell, others: &Inputs) -> bool
    ensures { result ≡ spec.same_key (spec.key_of inputs.now cell.now) (spec.key_of others.now other.now) }
{
    cell.source() == other.source()
        && are_same_values(
            cell.inputs().as_slice(),
            inputs,
            other.inputs().as_slice(),
            others,
        )
}

/// Whether two lists of names are one, with one value of each name or absence on both sides.
fn are_same_values(names: &[Text], inputs: &Inputs, other_names: &[Text], others: &Inputs) -> bool
    ensures { result ≡ pointwise spec.same_named (map (spec.named inputs.now) names.now) (map (spec.named others.now) other_names.now) }
{
    if names.len() != other_names.len() {
        return false;
    }
    for (place, name) in names.iter().enumerate() {
        if !is_same_named(name, inputs, &other_names[place], others) {
            return false;
        }
    }
    true
}

#[tactic(auto, unfolding(crate::specs::Keys::same_named))]
fn is_same_named(name: &Text, inputs: &Inputs, other: &Text, others: &Inputs) -> bool
    ensures { result ≡ spec.same_named (spec.named inputs.now name.now) (spec.named others.now other.now) }
{
    name == other && is_same_value(inputs.get(name), others.get(other))
}

#[tactic(auto, unfolding(crate::specs::Keys::same_value))]
fn is_same_value(value: Option<&Input>, other: Option<&Input>) -> bool
    ensures { result ≡ spec.same_value (option_copied value.entry) (option_copied other.entry) }
{
    match (value, other) {
        (None, None) => true,
        (Some(a), Some(b)) => is_same_input(a, b),
        _ => false,
    }
}

#[tactic(auto, unfolding(crate::specs::Keys::same_input))]
fn is_same_input(input: &Input, other: &Input) -> bool
    ensures { result ≡ spec.same_input input.now other.now }
{
    match (input, other) {
        (Input::None, Input::None) => true,
        (Input::Bool(a), Input::Bool(b)) => a == b,
        (Input::Int(a), Input::Int(b)) => is_same_int(*a, *b),
        (Input::Text(a), Input::Text(b)) => a == b,
        (Input::List(a), Input::List(b)) => are_same_items(a.as_slice(), b.as_slice()),
        _ => false,
    }
}

fn are_same_items(items: &[InputItem], others: &[InputItem]) -> bool
    ensures { result ≡ pointwise spec.same_item items.now others.now }
{
    if items.len() != others.len() {
        return false;
    }
    for (place, item) in items.iter().enumerate() {
        if !is_same_item(item, &others[place]) {
            return false;
        }
    }
    true
}

#[tactic(auto, unfolding(crate::specs::Keys::same_item))]
fn is_same_item(item: &InputItem, other: &InputItem) -> bool
    ensures { result ≡ spec.same_item item.now other.now }
{
    match (item, other) {
        (InputItem::None, InputItem::None) => true,
        (InputItem::Bool(a), InputItem::Bool(b)) => a == b,
        (InputItem::Int(a), InputItem::Int(b)) => is_same_int(*a, *b),
        (InputItem::Text(a), InputItem::Text(b)) => a == b,
        _ => false,
    }
}

fn is_same_int(a: i128, b: i128) -> bool
    ensures { result ≡ int_eq a b }
{
    a == b
}
