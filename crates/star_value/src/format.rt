//! The left text of `text % value`, cut into parts.
ghost use Rattle.std.specs.Prelude.{◌≡◌, ◌∷◌, ◌++◌, ◌==◌, [], IfOk, OnOk};
ghost use Rattle.std.specs.Str.{chars};
ghost use Rattle.star_value.specs.Cutting.{CutsAtPoint, CutsFirst};
ghost use Rattle.star_value.specs.Format as spec;

use chex_base::{NoMemory, Text};
use sqlite_items::Items;
use std::alloc::Global;
use std::mem;

/// A part of a format.
#[derive(Debug, Drop, PartialEq, Eq)]
pub enum Part {
    /// Text that is written as it stands.
    Plain(Text),
    /// `%s`: a value in its shown form.
    Shown,
    /// `%r`: a value in its quoted form.
    Quoted,
    /// `%d`: an integer.
    Decimal,
}

/// Parts in order, which contracts see as a list.
pub type Parts = Items<Part>;

/// The parts of a format: plain text, in which `%%` stands for `%`, between `%s`, `%r` and `%d`. No
/// plain part is empty, and no two are neighbours. There is no answer where a `%` stands at the end
/// or before another character. It takes time linear in the format.
#[tactic(auto, using(crate::proofs::Places::spells, crate::proofs::Words::shorter, crate::proofs::FormatLemmas::steps))]
pub fn format_parts(alloc: Global, format: &Text) -> Result<Option<Parts>, NoMemory>
    ensures { IfOk result (λ parts. parts ≡ spec.parts_of format.now) }
{
    let mut parts = Items::new(alloc);
    let mut plain = Text::new(alloc);
    let mut rest = format.as_str();
    while let Some((before, after)) = cut_percent(rest) {
        plain.push_str(before)?;
        let Some((letter, after)) = first(after) else {
            return Ok(None);
        };
        rest = after;
        if letter == '%' {
            plain.push_str("%")?;
        } else {
            let Some(part) = conversion(letter) else {
                return Ok(None);
            };
            push_plain(&mut parts, mem::replace(&mut plain, Text::new(alloc)))?;
            parts.push(part)?;
        }
    }
    plain.push_str(rest)?;
    push_plain(&mut parts, plain)?;
    Ok(Some(parts))
}

fn conversion(letter: char) -> Option<Part>
    ensures { result ≡ spec.conversion letter }
{
    match letter {
        's' => Some(Part::Shown),
        'r' => Some(Part::Quoted),
        'd' => Some(Part::Decimal),
        _ => None,
    }
}

#[tactic(auto, using(crate::proofs::FormatLemmas::plain_parts_none))]
fn push_plain(parts: &mut Parts, plain: Text) -> Result<(), NoMemory>
    ensures { OnOk result (parts.new ≡ parts.old ++ spec.plain_parts plain) }
{
    if !plain.as_str().is_empty() {
        parts.push(Part::Plain(plain))?;
    }
    Ok(())
}

fn cut_percent(text: &str) -> Option<(&str, &str)>
    ensures { CutsAtPoint (λ d. d == spec.percent) (chars text.now) result }
{
    text.split_once('%')
}

fn first(text: &str) -> Option<(char, &str)>
    ensures { CutsFirst (chars text.now) result }
{
    let mut points = text.chars();
    let first = points.next()?;
    Some((first, points.as_str()))
}
