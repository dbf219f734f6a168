//! Values as texts: what is printed, and the shown and the quoted form.
ghost use Rattle.std.specs.Prelude.{ℕ, ◌∷◌, [], IfOk, map, if◌then◌else◌};
ghost use Rattle.star_builtins.specs.Calling.{GivesWritten};
ghost use Rattle.star_builtins.specs.Reached.{AllFit, Fits, names, store};
ghost use Rattle.star_builtins.specs.Rows as rows;
ghost use Rattle.star_builtins.specs.Shows.{Begins, Shows, onto};
ghost use Rattle.star_meaning.specs.Builtins as spec;
ghost use Rattle.star_meaning.specs.Showing.{made, made_between, quoted as quoted_form, shown, ◌<+>◌};
ghost use Rattle.star_meaning.specs.State.{State};
ghost use Rattle.star_meaning.specs.Steps.{Gives, Store};
ghost use Rattle.star_meaning.specs.Validity.{MachineState};

use crate::arguments::{into_text, only_named};
use crate::pieces::{write_text, write_word};
use crate::{Call, NamedValues, show, texts};
use chex_base::Text;
use heap_store::Machine;
use star_syntax::Program;
use star_value::{Meter, Stop, Value};
use std::alloc::Global;

/// `str(x)` or `repr(x)`: the shown or the quoted form of a value, for a step a code point.
#[tactic(auto, using(crate::proofs::RowLemmas::text_went))]
pub fn form(
    alloc: Global,
    value: &Value,
    quoted: bool,
    program: &Program,
    machine: &Machine,
    meter: &mut Meter,
) -> Result<Value, Stop>
    requires { Fits machine.now value.now }
    ensures gives { Gives (spec.as_value (if quoted then quoted_form (names program.now) value.now else shown (names program.now) value.now) (store machine.now meter.old.left)) result (store machine.now meter.new.left) }
    ensures fits { (m : MachineState) → IfOk result (λ v. Fits m v) }
{
    let mut text = Text::new(alloc);
    show(alloc, value, program, machine, quoted, meter, &mut text)?;
    Ok(texts::value_of(text))
}

/// `print(.., sep=" ")`: writes the shown forms of its arguments with the separator between them,
/// and a newline, at the end of `out`, for a step a code point. A call that fails writes nothing.
pub fn print(
    alloc: Global,
    call: Call,
    program: &Program,
    machine: &Machine,
    meter: &mut Meter,
    out: &mut Text,
) -> Result<Value, Stop>
    requires { AllFit machine.now call.positional }
    ensures gives { GivesWritten out.old (spec.writing (spec.printed (names program.now) call.positional call.named) (store machine.now meter.old.left)) result (store machine.now meter.new.left) out.new }
    ensures fits { (m : MachineState) → IfOk result (λ v. Fits m v) }
    ensures begins { Begins out.old out.new }
{
    let Call { positional, named } = call;
    let by = separator(alloc, named)?;
    let line = line(alloc, &by, positional.as_slice(), program, machine, meter)?;
    out.push_text(&line)?;
    Ok(Value::None)
}

/// The text between what is printed: the argument `sep`, or a space.
fn separator(alloc: Global, named: NamedValues) -> Result<Text, Stop>
    ensures { (s : Store ℕ) → Gives (rows.separated named s) result s }
{
    let name = Text::from_str(alloc, "sep")?;
    match only_named(&name, named)? {
        Some(value) => Ok(into_text(value)?),
        None => Ok(Text::from_str(alloc, " ")?),
    }
}

/// What is printed.
fn line(
    alloc: Global,
    by: &Text,
    values: &[Value],
    program: &Program,
    machine: &Machine,
    meter: &mut Meter,
) -> Result<Text, Stop>
    requires { AllFit machine.now values.now }
    ensures { Gives ((made_between by.now (map (shown (names program.now)) values.now) <+> made (10 ∷ [])) (store machine.now meter.old.left)) result (store machine.now meter.new.left) }
{
    let mut line = Text::new(alloc);
    show_all(alloc, by, values, program, machine, meter, &mut line)?;
    write_word("\n", meter, &mut line)?;
    Ok(line)
}

/// Writes the shown forms of values with a text between them.
fn show_all(
    alloc: Global,
    by: &Text,
    values: &[Value],
    program: &Program,
    machine: &Machine,
    meter: &mut Meter,
    out: &mut Text,
) -> Result<(), Stop>
    requires { AllFit machine.now values.now }
    ensures { Shows (onto out.old (rows.pieces_by by.now 0 (map (shown (names program.now)) values.now)) (store machine.now meter.old.left)) result (store machine.now meter.new.left) out.new }
{
    for (place, value) in values.iter().enumerate() {
        write_before(by, place, meter, out)?;
        show(alloc, value, program, machine, false, meter, out)?;
    }
    Ok(())
}

/// Writes the text before the piece of a place: none before the first one.
#[tactic(auto, using(crate::proofs::PrintLemmas::befores))]
fn write_before(by: &Text, place: usize, meter: &mut Meter, out: &mut Text) -> Result<(), Stop>
    ensures { (s : State ℕ) → Shows (onto out.old (rows.before by.now place) (record { state = s; left = meter.old.left })) result (record { state = s; left = meter.new.left }) out.new }
{
    if place > 0 {
        write_text(by, meter, out)?;
    }
    Ok(())
}
