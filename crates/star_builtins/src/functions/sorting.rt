//! Items in order, and the least and the greatest of them.
ghost use Rattle.std.specs.Prelude.{◌≡◌, ◌∷◌, ◌<◌, ℕ, [], IfOk, IsTrue, true, drop, if◌then◌else◌, length, map, reverse};
ghost use Rattle.star_builtins.specs.Reached.{AllFit, Answers, Fits, Follows, HasRoom, store};
ghost use Rattle.star_builtins.specs.Sorting.{best_from, best_given, better, ordered, ordered_from, turned};
ghost use Rattle.star_builtins.specs.Walks.{given};
ghost use Rattle.star_meaning.specs.Builtins as spec;
ghost use Rattle.star_meaning.specs.State.{State};
ghost use Rattle.star_meaning.specs.Steps.{Gives, Store};
ghost use Rattle.star_meaning.specs.Validity.{MachineState, all_in, is_proper};
ghost use Rattle.star_meaning.specs.Values.{bool_in};
ghost use Rattle.star_value.specs.declared.value.Value.TheVariants as value;

use super::orders::{all_alike, are_alike, best_place, is_better};
use crate::arguments::{as_int, into_text, one, only_named};
use crate::charges::charge_items;
use crate::lists::new_list;
use crate::parts::int_of;
use crate::walks::{charged_item, count_of};
use crate::{Call, NamedValues};
use chex_base::{NoMemory, Text};
use heap_store::Machine;
use sqlite_items::Items;
use star_value::{Failure, Meter, Stop, Value, Values};
use std::alloc::Global;

/// `sorted(x, reverse=False)`: a new list of the items that a value gives, in order, or in the
/// opposite order. Each item is charged before it is looked at; items that are not all integers or
/// all texts are WrongType. It takes time n log n in the n items.
pub fn sorted(
    alloc: Global,
    call: Call,
    machine: &mut Machine,
    meter: &mut Meter,
) -> Result<Value, Stop>
    requires positional { AllFit machine.old call.positional }
    requires held { IsTrue (all_in is_proper machine.old.state) }
    requires room { HasRoom machine.old }
    ensures gives { Gives (spec.with_one (spec.sorted call.named) call.positional (store machine.old meter.old.left)) result (store machine.new meter.new.left) }
    ensures fits { IfOk result (λ v. Fits machine.new v) }
    ensures follows { Follows machine.old machine.new }
{
    let Call { positional, named } = call;
    let of = one(positional)?;
    sorted_of(alloc, &of, named, machine, meter)
}

#[tactic(auto, using(crate::proofs::FollowLemmas::follows_equal))]
fn sorted_of(
    alloc: Global,
    of: &Value,
    named: NamedValues,
    machine: &mut Machine,
    meter: &mut Meter,
) -> Result<Value, Stop>
    requires of { Fits machine.old of.now }
    requires held { IsTrue (all_in is_proper machine.old.state) }
    requires room { HasRoom machine.old }
    ensures gives { Gives (spec.sorted named of.now (store machine.old meter.old.left)) result (store machine.new meter.new.left) }
    ensures fits { IfOk result (λ v. Fits machine.new v) }
    ensures follows { Follows machine.old machine.new }
{
    let _nodes = machine.ran();
    let name = Text::from_str(alloc, "reverse")?;
    let given = only_named(&name, named)?;
    let count = count_of(of, machine)?;
    let back = backwards(given)?;
    let items = in_order(alloc, of, count, back, machine, meter)?;
    new_list(items, machine)
}

/// Whether the opposite order is asked for: a bool, or False where nothing is given.
fn backwards(given: Option<Value>) -> Result<bool, Failure>
    ensures { (s : Store ℕ) → Answers (spec.backwards given s) result s }
{
    let Some(value) = given else {
        return Ok(false);
    };
    match bool_of(&value) {
        Some(back) => Ok(back),
        None => Err(Failure::WrongType),
    }
}

/// The bool that a value is, if it is one.
#[tactic(auto, using(crate::proofs::Outs::outs))]
fn bool_of(value: &Value) -> Option<bool>
    ensures { result ≡ bool_in value.now }
{
    match value {
        Value::Bool(truth) => Some(*truth),
        _ => None,
    }
}

/// The items that a value gives, of which there are so many, in order.
fn in_order(
    alloc: Global,
    of: &Value,
    count: u128,
    back: bool,
    machine: &Machine,
    meter: &mut Meter,
) -> Result<Values, Stop>
    requires of { Fits machine.now of.now }
    requires held { IsTrue (all_in is_proper machine.now.state) }
    requires count { length (given machine.now.state of.now) ≡ count }
    ensures { Gives (ordered back (given machine.now.state of.now) (store machine.now meter.old.left)) result (store machine.now meter.new.left) }
{
    if count == 0 {
        return Ok(Items::new(alloc));
    }
    let first = charged_item(alloc, of, 0, machine, meter)?;
    match int_of(&first) {
        Some(number) => numbers_in_order(alloc, number, of, count, back, machine, meter),
        None => texts_in_order(alloc, into_text(first)?, of, count, back, machine, meter),
    }
}

/// The integers that a value gives, of which the first one is charged, in order.
fn numbers_in_order(
    alloc: Global,
    first: i128,
    of: &Value,
    count: u128,
    back: bool,
    machine: &Machine,
    meter: &mut Meter,
) -> Result<Values, Stop>
    requires of { Fits machine.now of.now }
    requires held { IsTrue (all_in is_proper machine.now.state) }
    requires count { length (given machine.now.state of.now) ≡ count }
    ensures { Gives (ordered_from back (value.Int first) (value.Int first ∷ []) (drop 1 (given machine.now.state of.now)) (store machine.now meter.old.left)) result (store machine.now meter.new.left) }
{
    let mut numbers = Vec::new(alloc);
    numbers.push(first)?;
    for place in 1..count {
        let item = charged_item(alloc, of, place, machine, meter)?;
        numbers.push(as_int(&item)?)?;
    }
    Ok(sorted_numbers(alloc, numbers, back)?)
}

/// The texts that a value gives, of which the first one is charged, in order.
fn texts_in_order(
    alloc: Global,
    first: Text,
    of: &Value,
    count: u128,
    back: bool,
    machine: &Machine,
    meter: &mut Meter,
) -> Result<Values, Stop>
    requires of { Fits machine.now of.now }
    requires held { IsTrue (all_in is_proper machine.now.state) }
    requires count { length (given machine.now.state of.now) ≡ count }
    ensures { Gives (ordered_from back (value.Text first) (value.Text first ∷ []) (drop 1 (given machine.now.state of.now)) (store machine.now meter.old.left)) result (store machine.now meter.new.left) }
{
    let mut texts = Vec::new(alloc);
    texts.push(first)?;
    for place in 1..count {
        let item = charged_item(alloc, of, place, machine, meter)?;
        texts.push(into_text(item)?)?;
    }
    Ok(sorted_texts(alloc, texts, back)?)
}

/// Turns items round, where the opposite order is asked for.
fn turn<T>(items: &mut Vec<T>, back: bool)
    ensures { items.new.items ≡ (if back then reverse items.old.items else items.old.items) }
{
    if back {
        items.reverse();
    }
}

/// Integers in order, as values.
fn sorted_numbers(alloc: Global, mut numbers: Vec<i128>, back: bool) -> Result<Values, NoMemory>
    ensures { IfOk result (λ items. items ≡ turned back (spec.sorted_items (map value.Int numbers.items))) }
{
    numbers.sort()?;
    turn(&mut numbers, back);
    numbers_as_values(alloc, numbers.as_slice())
}

fn numbers_as_values(alloc: Global, numbers: &[i128]) -> Result<Values, NoMemory>
    ensures { IfOk result (λ items. items ≡ map value.Int numbers.now) }
{
    let mut items = Items::new(alloc);
    for number in numbers {
        items.push(Value::Int(*number))?;
    }
    Ok(items)
}

/// Texts in order, as values.
fn sorted_texts(alloc: Global, mut texts: Vec<Text>, back: bool) -> Result<Values, NoMemory>
    ensures { IfOk result (λ items. items ≡ turned back (spec.sorted_items (map value.Text texts.items))) }
{
    texts.sort()?;
    turn(&mut texts, back);
    texts_as_values(alloc, texts)
}

fn texts_as_values(alloc: Global, texts: Vec<Text>) -> Result<Values, NoMemory>
    ensures { IfOk result (λ items. items ≡ map value.Text texts.items) }
{
    let mut items = Items::new(alloc);
    for text in texts {
        items.push(Value::Text(text))?;
    }
    Ok(items)
}

/// `min(..)` or `max(..)`: the first of the least or of the greatest items that the only argument
/// gives, or of two or more arguments. Values that are not all integers or all texts are WrongType,
/// and no item is NoElement. An item is charged before it is looked at; of several arguments all are
/// looked at first.
pub fn extreme(
    alloc: Global,
    greatest: bool,
    mut values: Values,
    machine: &Machine,
    meter: &mut Meter,
) -> Result<Value, Stop>
    requires values { AllFit machine.now values }
    requires held { IsTrue (all_in is_proper machine.now.state) }
    ensures gives { Gives (spec.extreme (better greatest) values (store machine.now meter.old.left)) result (store machine.now meter.new.left) }
    ensures fits { IfOk result (λ v. Fits machine.now v) }
{
    if values.len() > 1 {
        return best_argument(greatest, values, meter);
    }
    match values.pop() {
        Some(of) => best_item(alloc, greatest, &of, machine, meter),
        None => Err(Stop::Failure(Failure::WrongArguments)),
    }
}

/// The best of two or more arguments.
fn best_argument(greatest: bool, mut values: Values, meter: &mut Meter) -> Result<Value, Stop>
    requires { 1 < length values }
    ensures gives { (s : State ℕ) → Gives (spec.extreme (better greatest) values (record { state = s; left = meter.old.left })) result (record { state = s; left = meter.new.left }) }
    ensures fits { (m : MachineState) → AllFit m values → IfOk result (λ v. Fits m v) }
{
    let items = values.as_slice();
    if !all_alike(&items[0], items) {
        return Err(Stop::Failure(Failure::WrongType));
    }
    charge_items(items, meter)?;
    let place = best_place(greatest, items);
    Ok(values.remove(place))
}

/// The best of the items that a value gives.
fn best_item(
    alloc: Global,
    greatest: bool,
    of: &Value,
    machine: &Machine,
    meter: &mut Meter,
) -> Result<Value, Stop>
    requires of { Fits machine.now of.now }
    requires held { IsTrue (all_in is_proper machine.now.state) }
    ensures gives { Gives (best_given greatest of.now (store machine.now meter.old.left)) result (store machine.now meter.new.left) }
    ensures fits { IfOk result (λ v. Fits machine.now v) }
{
    let count = count_of(of, machine)?;
    if count == 0 {
        return Err(Stop::Failure(Failure::NoElement));
    }
    let first = charged_item(alloc, of, 0, machine, meter)?;
    if !are_alike(&first, &first) {
        return Err(Stop::Failure(Failure::WrongType));
    }
    best_after(alloc, greatest, first, of, count, machine, meter)
}

/// The best of the items that a value gives, where the first one is charged.
fn best_after(
    alloc: Global,
    greatest: bool,
    first: Value,
    of: &Value,
    count: u128,
    machine: &Machine,
    meter: &mut Meter,
) -> Result<Value, Stop>
    requires of { Fits machine.now of.now }
    requires held { IsTrue (all_in is_proper machine.now.state) }
    requires count { length (given machine.now.state of.now) ≡ count }
    requires first { Fits machine.now first }
    requires alike { spec.are_alike first first ≡ true }
    ensures gives { Gives (best_from greatest first first (drop 1 (given machine.now.state of.now)) (store machine.now meter.old.left)) result (store machine.now meter.new.left) }
    ensures fits { IfOk result (λ v. Fits machine.now v) }
{
    let mut best = first;
    for place in 1..count {
        let item = charged_item(alloc, of, place, machine, meter)?;
        if !are_alike(&best, &item) {
            return Err(Stop::Failure(Failure::WrongType));
        }
        if is_better(greatest, &item, &best) {
            best = item;
        }
    }
    Ok(best)
}
