//! The methods of texts. Each takes its arguments out itself.
ghost use Rattle.std.specs.Prelude.{◌≡◌, ◌<◌, Bool, ℕ, IfOk, IsTrue, length, map};
ghost use Rattle.star_builtins.specs.Reached.{AllFit, Answers, Fits, Follows, GivesWeighed, HasRoom, store};
ghost use Rattle.star_builtins.specs.TextRows.{given_texts};
ghost use Rattle.star_meaning.specs.Methods as spec;
ghost use Rattle.star_meaning.specs.Operators.{charged_list};
ghost use Rattle.star_meaning.specs.State.{State};
ghost use Rattle.star_meaning.specs.Steps.{Gives};
ghost use Rattle.star_meaning.specs.Validity.{MachineState, all_in, is_proper};
ghost use Rattle.star_value.specs.Texts as text_spec;
ghost use Rattle.star_value.specs.declared.value.Value.TheVariants as value;

use crate::arguments::{into_text, one};
use crate::charges::charge_items;
use crate::joining::joined_value;
use crate::text_arguments::{check_not_empty, one_text, optional_text, two_texts};
use crate::walks::{charged_item, count_of};
use crate::{integers, lists, texts, truths};
use chex_base::{NoMemory, Text};
use heap_store::Machine;
use sqlite_items::Items;
use star_value::{Failure, Meter, Stop, Texts, Value, Values};
use std::alloc::Global;

/// `find(what)`: the first place of another text, or -1 where there is none. It charges the code
/// points of both texts.
pub fn find(text: &Text, values: Values, meter: &mut Meter) -> Result<Value, Failure>
    ensures gives { (s : State ℕ) → Answers (spec.find text.now values (record { state = s; left = meter.old.left })) result (record { state = s; left = meter.new.left }) }
    ensures fits { (m : MachineState) → IfOk result (λ v. Fits m v) }
{
    let what = one_text(values)?;
    meter.charge(text.len() as u64 + what.len() as u64)?;
    Ok(place_value(star_value::find(text, &what)))
}

/// A place as a value, or -1 where there is none.
fn place_value(place: Option<usize>) -> Value
    ensures is { result ≡ spec.place_or_none place }
    ensures fits { (m : MachineState) → Fits m result }
{
    match place {
        Some(place) => integers::value_of(place as i128),
        None => integers::value_of(-1),
    }
}

/// `startswith(what)`. It charges the code points of `what`.
pub fn starts_with(text: &Text, values: Values, meter: &mut Meter) -> Result<Value, Failure>
    ensures gives { (s : State ℕ) → Answers (spec.tested_with text_spec.starts_with text.now values (record { state = s; left = meter.old.left })) result (record { state = s; left = meter.new.left }) }
    ensures fits { (m : MachineState) → IfOk result (λ v. Fits m v) }
{
    let what = one_text(values)?;
    meter.charge(what.len() as u64)?;
    Ok(truths::value_of(star_value::starts_with(text, &what)))
}

/// `endswith(what)`. It charges the code points of `what`.
pub fn ends_with(text: &Text, values: Values, meter: &mut Meter) -> Result<Value, Failure>
    ensures gives { (s : State ℕ) → Answers (spec.tested_with text_spec.ends_with text.now values (record { state = s; left = meter.old.left })) result (record { state = s; left = meter.new.left }) }
    ensures fits { (m : MachineState) → IfOk result (λ v. Fits m v) }
{
    let what = one_text(values)?;
    meter.charge(what.len() as u64)?;
    Ok(truths::value_of(star_value::ends_with(text, &what)))
}

/// `strip([set])`, `lstrip([set])` and `rstrip([set])`: the text without the code points of the set,
/// or without white space, at the ends that are asked for. It charges the text's code points.
pub fn strip_ends(
    alloc: Global,
    left: bool,
    right: bool,
    text: &Text,
    values: Values,
    meter: &mut Meter,
) -> Result<Value, Stop>
    ensures gives { (s : State ℕ) → Gives (spec.strip_ends left right text.now values (record { state = s; left = meter.old.left })) result (record { state = s; left = meter.new.left }) }
    ensures fits { (m : MachineState) → IfOk result (λ v. Fits m v) }
{
    let set = optional_text(values)?;
    meter.charge(text.len() as u64)?;
    let stripped = star_value::strip(alloc, text, set.as_ref(), left, right)?;
    Ok(texts::value_of(stripped))
}

/// `split([by])`: a new list of the pieces between the places of another text, or between runs of
/// white space. It charges the text's code points before it is cut, and then the weights of the
/// pieces. An empty `by` is BadText.
pub fn split(
    alloc: Global,
    text: &Text,
    values: Values,
    machine: &mut Machine,
    meter: &mut Meter,
) -> Result<Value, Stop>
    requires room { HasRoom machine.old }
    ensures gives { Gives (spec.split text.now values (store machine.old meter.old.left)) result (store machine.new meter.new.left) }
    ensures fits { IfOk result (λ v. Fits machine.new v) }
    ensures follows { Follows machine.old machine.new }
{
    let given = optional_text(values)?;
    let Some(by) = given else {
        return split_at_white(alloc, text, machine, meter);
    };
    check_not_empty(&by)?;
    split_at(alloc, text, &by, machine, meter)
}

fn split_at_white(
    alloc: Global,
    text: &Text,
    machine: &mut Machine,
    meter: &mut Meter,
) -> Result<Value, Stop>
    requires room { HasRoom machine.old }
    ensures gives { Gives (spec.pieces text.now (text_spec.split_white text.now) (store machine.old meter.old.left)) result (store machine.new meter.new.left) }
    ensures fits { IfOk result (λ v. Fits machine.new v) }
    ensures follows { Follows machine.old machine.new }
{
    meter.charge(text.len() as u64)?;
    let parts = star_value::split_white(alloc, text)?;
    new_pieces(alloc, parts, machine, meter)
}

fn split_at(
    alloc: Global,
    text: &Text,
    by: &Text,
    machine: &mut Machine,
    meter: &mut Meter,
) -> Result<Value, Stop>
    requires some { 0 < length by.now }
    requires room { HasRoom machine.old }
    ensures gives { Gives (spec.pieces text.now (text_spec.split text.now by.now) (store machine.old meter.old.left)) result (store machine.new meter.new.left) }
    ensures fits { IfOk result (λ v. Fits machine.new v) }
    ensures follows { Follows machine.old machine.new }
{
    meter.charge(text.len() as u64)?;
    let parts = star_value::split(alloc, text, by)?;
    new_pieces(alloc, parts, machine, meter)
}

/// A new list of these texts, once their weights are charged.
fn new_pieces(
    alloc: Global,
    parts: Texts,
    machine: &mut Machine,
    meter: &mut Meter,
) -> Result<Value, Stop>
    requires room { HasRoom machine.old }
    ensures gives { Gives (charged_list (map value.Text parts) (store machine.old meter.old.left)) result (store machine.new meter.new.left) }
    ensures fits { IfOk result (λ v. Fits machine.new v) }
    ensures follows { Follows machine.old machine.new }
{
    let pieces = into_values(alloc, parts)?;
    charge_items(pieces.as_slice(), meter)?;
    lists::new_list(pieces, machine)
}

/// The texts as values. They are moved, not copied.
fn into_values(alloc: Global, mut parts: Texts) -> Result<Values, NoMemory>
    ensures same { IfOk result (λ pieces. pieces ≡ map value.Text parts) }
    ensures fits { (m : MachineState) → IfOk result (λ pieces. AllFit m pieces) }
{
    let mut pieces = Vec::new(alloc);
    while let Some(part) = parts.pop() {
        pieces.push(texts::value_of(part))?;
    }
    pieces.reverse();
    Ok(Items::from_vec(pieces))
}

/// `join(x)`: the texts that a value gives, with this one between each two. It charges the weight of
/// each item before it looks at it; an item that is no text is WrongType. A text that weighs more
/// than what is left is not made: the call then fails with StepLimit, as the charge of its weight
/// would.
pub fn join(
    alloc: Global,
    text: &Text,
    values: Values,
    machine: &Machine,
    meter: &mut Meter,
) -> Result<Value, Stop>
    requires values { AllFit machine.now values }
    requires held { IsTrue (all_in is_proper machine.now.state) }
    ensures gives { GivesWeighed (spec.join text.now values (store machine.now meter.old.left)) result (store machine.now meter.new.left) }
    ensures fits { (m : MachineState) → IfOk result (λ v. Fits m v) }
{
    let of = one(values)?;
    let parts = taken_texts(alloc, &of, machine, meter)?;
    joined_value(alloc, text, parts.as_slice(), meter)
}

/// The texts that a value gives, each looked at once its weight is charged.
fn taken_texts(
    alloc: Global,
    of: &Value,
    machine: &Machine,
    meter: &mut Meter,
) -> Result<Texts, Stop>
    requires of { Fits machine.now of.now }
    requires held { IsTrue (all_in is_proper machine.now.state) }
    ensures { Gives (given_texts of.now (store machine.now meter.old.left)) result (store machine.now meter.new.left) }
{
    let count = count_of(of, machine)?;
    let mut parts = Items::new(alloc);
    for place in 0..count {
        let item = charged_item(alloc, of, place, machine, meter)?;
        let part = into_text(item)?;
        parts.push(part)?;
    }
    Ok(parts)
}

/// `replace(old, new)`: the text with `new` in place of each `old`, found from the left. It charges
/// the text's code points. An empty `old` is BadText. A text that weighs more than what is left is
/// not made: the call then fails with StepLimit, as the charge of its weight would.
pub fn replace(alloc: Global, text: &Text, values: Values, meter: &mut Meter) -> Result<Value, Stop>
    ensures gives { (s : State ℕ) → GivesWeighed (spec.replace text.now values (record { state = s; left = meter.old.left })) result (record { state = s; left = meter.new.left }) }
    ensures fits { (m : MachineState) → IfOk result (λ v. Fits m v) }
{
    let (old, new) = two_texts(values)?;
    check_not_empty(&old)?;
    meter.charge(text.len() as u64)?;
    let parts = star_value::split(alloc, text, &old)?;
    joined_value(alloc, &new, parts.as_slice(), meter)
}
