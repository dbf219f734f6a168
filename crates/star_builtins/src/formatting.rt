//! Text `%` value: a format with values in the places of its parts.
ghost use Rattle.std.specs.Option.{option_copied};
ghost use Rattle.std.specs.Prelude.{◌≡◌, ◌++◌, ℕ, IsTrue, IfOk, OnOk};
ghost use Rattle.star_builtins.specs.Filled.{part_fits, piece, plain_of};
ghost use Rattle.star_builtins.specs.Reached.{AllFit, Fits, names, store};
ghost use Rattle.star_builtins.specs.Shows.{Shows, onto};
ghost use Rattle.star_meaning.specs.Operators as spec;
ghost use Rattle.star_meaning.specs.Steps.{Gives};
ghost use Rattle.star_meaning.specs.Validity.{MachineState};
ghost use Rattle.star_meaning.specs.Values.{int_in};
ghost use Rattle.star_value.specs.declared.value.Value.{out-Value};

use crate::showing::show;
use crate::texts;
use chex_base::{NoMemory, Text};
use heap_store::Machine;
use star_syntax::Program;
use star_value::{Failure, Meter, Part, Stop, Value, format_parts};
use std::alloc::Global;
use std::slice;

/// A format with values in the places of its parts: the items of a tuple, or any other value alone.
/// A format that is none is BadText, another number of values is WrongArguments, and a `%d` without
/// an integer is WrongType. What `%s` and `%r` make is charged.
#[tactic(auto, using(crate::proofs::FitLemmas::held))]
pub fn format(
    alloc: Global,
    text: &Text,
    value: &Value,
    program: &Program,
    machine: &Machine,
    meter: &mut Meter,
) -> Result<Value, Stop>
    requires { Fits machine.now value.now }
    ensures gives { Gives (spec.formatted (names program.now) text.now value.now (store machine.now meter.old.left)) result (store machine.now meter.new.left) }
    ensures fits { (m : MachineState) → IfOk result (λ v. Fits m v) }
{
    let Some(parts) = format_parts(alloc, text)? else {
        return Err(Stop::Failure(Failure::BadText));
    };
    let values = values_for(value);
    formatted(alloc, parts.as_slice(), values, program, machine, meter)
}

/// The items of a tuple, and any other value alone.
#[tactic(auto, using(crate::proofs::FitLemmas::tuple_items, crate::proofs::FilledLemmas::alone_fits))]
fn values_for(value: &Value) -> &[Value]
    ensures values { result.now ≡ spec.values_for (out-Value value.now) value.now }
    ensures fits { (m : MachineState) → Fits m value.now → AllFit m result.now }
{
    match value {
        Value::Tuple(items) => items.as_slice(),
        _ => slice::from_ref(value),
    }
}

fn formatted(
    alloc: Global,
    parts: &[Part],
    values: &[Value],
    program: &Program,
    machine: &Machine,
    meter: &mut Meter,
) -> Result<Value, Stop>
    requires { AllFit machine.now values.now }
    ensures gives { Gives (spec.formatted_parts (names program.now) parts.now values.now (store machine.now meter.old.left)) result (store machine.now meter.new.left) }
    ensures fits { (m : MachineState) → IfOk result (λ v. Fits m v) }
{
    if values_taken(parts) != values.len() {
        return Err(Stop::Failure(Failure::WrongArguments));
    }
    if !decimals_fit(parts, values) {
        return Err(Stop::Failure(Failure::WrongType));
    }
    let mut text = Text::new(alloc);
    fill(alloc, parts, values, program, machine, meter, &mut text)?;
    Ok(texts::value_of(text))
}

/// The text that a part is, if it takes no value.
fn plain_text(part: &Part) -> Option<&Text>
    ensures { option_copied result ≡ plain_of part.now }
{
    match part {
        Part::Plain(text) => Some(text),
        Part::Shown => None,
        Part::Quoted => None,
        Part::Decimal => None,
    }
}

fn takes_value(part: &Part) -> bool
    ensures { result ≡ spec.takes_value part.now }
{
    match part {
        Part::Plain(_) => false,
        Part::Shown => true,
        Part::Quoted => true,
        Part::Decimal => true,
    }
}

/// Whether a value may stand for a part.
fn fits_part(part: &Part, value: &Value) -> bool
    ensures { result ≡ part_fits part.now value.now }
{
    match part {
        Part::Plain(_) => true,
        Part::Shown => true,
        Part::Quoted => true,
        Part::Decimal => int_of(value).is_some(),
    }
}

fn int_of(value: &Value) -> Option<i128>
    ensures { result ≡ int_in value.now }
{
    match value {
        Value::Int(number) => Some(*number),
        _ => None,
    }
}

/// How many values the parts of a format take.
fn values_taken(parts: &[Part]) -> usize
    ensures { result ≡ spec.values_taken parts.now }
{
    let mut count = 0;
    for part in parts {
        if !takes_value(part) {
            continue;
        }
        count += 1;
    }
    count
}

/// Whether each `%d` has an integer.
fn decimals_fit(parts: &[Part], values: &[Value]) -> bool
    ensures { result ≡ spec.decimals_fit parts.now values.now }
{
    let mut at = 0;
    for part in parts {
        if !takes_value(part) {
            continue;
        }
        let Some(value) = values.get(at) else {
            return true;
        };
        if !fits_part(part, value) {
            return false;
        }
        at += 1;
    }
    true
}

/// Writes the parts of a format with the values in their places at the end of `out`. What `%s` and
/// `%r` make is charged before it is written.
fn fill(
    alloc: Global,
    parts: &[Part],
    values: &[Value],
    program: &Program,
    machine: &Machine,
    meter: &mut Meter,
    out: &mut Text,
) -> Result<(), Stop>
    requires { AllFit machine.now values.now }
    ensures { Shows (onto out.old (spec.filled (names program.now) parts.now values.now) (store machine.now meter.old.left)) result (store machine.now meter.new.left) out.new }
{
    let mut at = 0;
    for part in parts {
        if let Some(text) = plain_text(part) {
            out.push_text(text)?;
            continue;
        }
        let Some(value) = sqlite_items::at(values, at) else {
            return Ok(());
        };
        fill_one(alloc, part, value, program, machine, meter, out)?;
        at += 1;
    }
    Ok(())
}

/// Writes what a value makes of a part.
#[tactic(auto, unfolding(crate::specs::Filled::piece, crate::specs::Shows::onto))]
fn fill_one(
    alloc: Global,
    part: &Part,
    value: &Value,
    program: &Program,
    machine: &Machine,
    meter: &mut Meter,
    out: &mut Text,
) -> Result<(), Stop>
    requires { Fits machine.now value.now }
    ensures { Shows (onto out.old (piece (names program.now) part.now value.now) (store machine.now meter.old.left)) result (store machine.now meter.new.left) out.new }
{
    match part {
        Part::Plain(text) => {
            out.push_text(text)?;
            Ok(())
        }
        Part::Shown => show(alloc, value, program, machine, false, meter, out),
        Part::Quoted => show(alloc, value, program, machine, true, meter, out),
        Part::Decimal => {
            push_int(alloc, int_of(value), out)?;
            Ok(())
        }
    }
}

/// Writes an integer in decimal.
fn push_int(alloc: Global, number: Option<i128>, out: &mut Text) -> Result<(), NoMemory>
    ensures { OnOk result (out.new ≡ out.old ++ spec.decimal_text number) }
{
    match number {
        Some(number) => {
            let digits = Text::from_int(alloc, number)?;
            out.push_text(&digits)?;
        }
        None => {}
    }
    Ok(())
}
