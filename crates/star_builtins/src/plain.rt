//! How values that hold no others are written.
ghost use Rattle.std.specs.Prelude.{◌≡◌, ◌++◌, ℕ, IfOk, OnOk, codes};
ghost use Rattle.std.specs.Fmt.{signed_decimal};
ghost use Rattle.std.specs.Str.{chars};
ghost use Rattle.star_builtins.specs.Pieces as pieces;
ghost use Rattle.star_builtins.specs.Pieces.{Keeps};
ghost use Rattle.star_builtins.specs.Shows.{Shows, onto};
ghost use Rattle.star_meaning.specs.Showing as spec;
ghost use Rattle.star_meaning.specs.Showing.{made};
ghost use Rattle.star_meaning.specs.State.{State};
ghost use Rattle.star_meaning.specs.Values.{builtin_name};

use crate::pieces::write_text;
use chex_base::{NoMemory, Text};
use star_value::{Builtin, Meter, Range, Stop};
use std::alloc::Global;

/// Charges and writes an integer in decimal digits.
pub fn write_int(alloc: Global, number: i128, meter: &mut Meter, out: &mut Text) -> Result<(), Stop>
    ensures gives { (s : State ℕ) → Shows (onto out.old (made (signed_decimal number)) (record { state = s; left = meter.old.left })) result (record { state = s; left = meter.new.left }) out.new }
    ensures keeps { Keeps out.old out.new }
{
    let digits = Text::from_int(alloc, number)?;
    write_text(&digits, meter, out)
}

/// Charges and writes a range, with its step where that is not 1.
pub fn write_range(
    alloc: Global,
    range: &Range,
    meter: &mut Meter,
    out: &mut Text,
) -> Result<(), Stop>
    ensures gives { (s : State ℕ) → Shows (onto out.old (made (spec.range_text range.now)) (record { state = s; left = meter.old.left })) result (record { state = s; left = meter.new.left }) out.new }
    ensures keeps { Keeps out.old out.new }
{
    let text = range_text(alloc, range)?;
    write_text(&text, meter, out)
}

/// Charges and writes the quoted form of a text. What it takes at least is charged before the form
/// is built.
#[tactic(auto, using(crate::proofs::Charged::parts))]
pub fn write_quoted(
    alloc: Global,
    text: &Text,
    meter: &mut Meter,
    out: &mut Text,
) -> Result<(), Stop>
    ensures gives { (s : State ℕ) → Shows (onto out.old (made (spec.quoted_text text.now)) (record { state = s; left = meter.old.left })) result (record { state = s; left = meter.new.left }) out.new }
    ensures keeps { Keeps out.old out.new }
{
    let least = text.len() as u64 + 2;
    meter.charge(least)?;
    let quoted = quoted_text(alloc, text)?;
    meter.charge(quoted.len() as u64 - least)?;
    out.push_text(&quoted)?;
    Ok(())
}

/// Charges and writes a function of this name.
pub fn write_function(
    alloc: Global,
    name: &Text,
    meter: &mut Meter,
    out: &mut Text,
) -> Result<(), Stop>
    ensures gives { (s : State ℕ) → Shows (onto out.old (made (spec.function_text name.now)) (record { state = s; left = meter.old.left })) result (record { state = s; left = meter.new.left }) out.new }
    ensures keeps { Keeps out.old out.new }
{
    let text = function_text(alloc, name)?;
    write_text(&text, meter, out)
}

/// Charges and writes a built-in function.
pub fn write_builtin(
    alloc: Global,
    which: Builtin,
    meter: &mut Meter,
    out: &mut Text,
) -> Result<(), Stop>
    ensures gives { (s : State ℕ) → Shows (onto out.old (made (codes "<builtin " ++ builtin_name which ++ codes ">")) (record { state = s; left = meter.old.left })) result (record { state = s; left = meter.new.left }) out.new }
    ensures keeps { Keeps out.old out.new }
{
    let text = builtin_text(alloc, which)?;
    write_text(&text, meter, out)
}

#[tactic(auto, using(crate::proofs::Words::words, crate::proofs::Words::range_is))]
fn range_text(alloc: Global, range: &Range) -> Result<Text, NoMemory>
    ensures { IfOk result (λ text. text ≡ spec.range_text range.now) }
{
    let mut text = Text::from_str(alloc, "range(")?;
    push_int(alloc, &mut text, range.start)?;
    text.push_str(", ")?;
    push_int(alloc, &mut text, range.stop)?;
    push_step(alloc, &mut text, range.step)?;
    Ok(text)
}

/// Adds the step of a range, where that is not 1, and the end.
#[tactic(auto, using(crate::proofs::Words::words), unfolding(crate::specs::Pieces::with_step))]
fn push_step(alloc: Global, text: &mut Text, step: i128) -> Result<(), NoMemory>
    ensures { OnOk result (text.new ≡ pieces.with_step text.old step) }
{
    if step == 1 {
        return text.push_str(")");
    }
    text.push_str(", ")?;
    push_int(alloc, text, step)?;
    text.push_str(")")
}

fn push_int(alloc: Global, text: &mut Text, number: i128) -> Result<(), NoMemory>
    ensures { OnOk result (text.new ≡ text.old ++ signed_decimal number) }
{
    let digits = Text::from_int(alloc, number)?;
    text.push_text(&digits)
}

#[tactic(auto, using(crate::proofs::Words::words))]
fn function_text(alloc: Global, name: &Text) -> Result<Text, NoMemory>
    ensures { IfOk result (λ text. text ≡ spec.function_text name.now) }
{
    let mut text = Text::from_str(alloc, "<function ")?;
    text.push_text(name)?;
    text.push_str(">")?;
    Ok(text)
}

#[tactic(auto, using(crate::proofs::Words::words))]
fn builtin_text(alloc: Global, which: Builtin) -> Result<Text, NoMemory>
    ensures { IfOk result (λ text. text ≡ codes "<builtin " ++ builtin_name which ++ codes ">") }
{
    let mut text = Text::from_str(alloc, "<builtin ")?;
    text.push_str(builtin_word(which))?;
    text.push_str(">")?;
    Ok(text)
}

/// The name of a built-in function.
#[tactic(auto, using(crate::proofs::Words::builtins), unfolding(star_meaning::specs::Values::builtin_name))]
pub fn builtin_word(which: Builtin) -> &'static str
    ensures points { chars result.now ≡ builtin_name which }
    ensures bytes { result.now ≡ builtin_name which }
{
    match which {
        Builtin::Abs => "abs",
        Builtin::All => "all",
        Builtin::Any => "any",
        Builtin::Bool => "bool",
        Builtin::Dict => "dict",
        Builtin::Enumerate => "enumerate",
        Builtin::Int => "int",
        Builtin::Len => "len",
        Builtin::List => "list",
        Builtin::Max => "max",
        Builtin::Min => "min",
        Builtin::Print => "print",
        Builtin::Range => "range",
        Builtin::Repr => "repr",
        Builtin::Reversed => "reversed",
        Builtin::Sorted => "sorted",
        Builtin::Str => "str",
        Builtin::Tuple => "tuple",
        Builtin::Type => "type",
        Builtin::Zip => "zip",
    }
}

/// The quoted form of a text.
#[tactic(auto, unfolding(star_meaning::specs::Showing::quoted_text))]
fn quoted_text(alloc: Global, text: &Text) -> Result<Text, NoMemory>
    ensures { IfOk result (λ quoted. quoted ≡ spec.quoted_text text.now) }
{
    let mut points = Vec::new(alloc);
    points.push('"')?;
    for c in text.as_str().chars() {
        push_escaped(&mut points, c)?;
    }
    points.push('"')?;
    Text::from_chars(alloc, points.as_slice())
}

fn push_escaped(points: &mut Vec<char>, c: char) -> Result<(), NoMemory>
    ensures { OnOk result (points.new.items ≡ points.old.items ++ spec.escaped c) }
{
    match letter_of(c) {
        Some(letter) => {
            points.push('\\')?;
            points.push(letter)?;
        }
        None => points.push(c)?,
    }
    Ok(())
}

/// The letter after a backslash that stands for a character of a quoted text, if one does.
fn letter_of(c: char) -> Option<char>
    ensures { spec.escaped c ≡ pieces.escaped_as c result }
{
    match c {
        '\\' => Some('\\'),
        '"' => Some('"'),
        '\n' => Some('n'),
        '\r' => Some('r'),
        '\t' => Some('t'),
        _ => None,
    }
}
