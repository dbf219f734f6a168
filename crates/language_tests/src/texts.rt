//! Calls on texts, and formats.

use crate::fault::Fault;
use crate::rows::plain;
use chex_base::Text;
use sqlite_items::Items;
use star_value::{
    Part, Texts, ends_with, find, format_parts, join, replace, split, split_white, starts_with,
    strip,
};
use std::alloc::Global;

/// What a call answers: its name, the text and what it is given are fields.
pub fn answer(alloc: Global, question: &str) -> Result<String, Fault> {
    let mut fields = question.split('\t');
    let call = fields.next().unwrap_or("");
    let of = text(alloc, fields.next())?;
    let given = fields.next();
    let more = fields.next();
    match call {
        "places" => places(alloc, &of, given),
        "split" => pieces(alloc, &of, given),
        "split_white" => listed(alloc, &split_white(alloc, &of)?),
        "replace" => replaced(alloc, &of, given, more),
        "join" => joined(alloc, of.as_str(), given),
        "strip" => stripped_of(alloc, &of, given, more),
        "strip_white" => stripped(alloc, &of, given, None),
        "format" => cut(alloc, &of),
        _ => Err(Fault::Unread),
    }
}

/// The text of a field.
fn text(alloc: Global, field: Option<&str>) -> Result<Text, Fault> {
    let characters = plain(alloc, field.unwrap_or(""))?;
    Ok(Text::from_str(alloc, characters.as_str())?)
}

fn string(alloc: Global, text: &Text) -> Result<String, Fault> {
    Ok(String::from_str(alloc, text.as_str())?)
}

/// Where a text stands in another, and whether the other starts and ends with it.
fn places(alloc: Global, of: &Text, given: Option<&str>) -> Result<String, Fault> {
    let what = text(alloc, given)?;
    let starts = starts_with(of, &what);
    let ends = ends_with(of, &what);
    match find(of, &what) {
        Some(place) => Ok(format!(in alloc; "{place} {starts} {ends}")?),
        None => Ok(format!(in alloc; "nowhere {starts} {ends}")?),
    }
}

/// The pieces of a text between separators.
fn pieces(alloc: Global, of: &Text, given: Option<&str>) -> Result<String, Fault> {
    let by = text(alloc, given)?;
    if by.len() == 0 {
        return Err(Fault::Unread);
    }
    listed(alloc, &split(alloc, of, &by)?)
}

/// How a row writes several texts.
fn listed(alloc: Global, texts: &Texts) -> Result<String, Fault> {
    let mut out = String::new(alloc);
    for text in texts.as_slice() {
        out.push('«')?;
        out.push_str(text.as_str())?;
        out.push('»')?;
    }
    Ok(out)
}

fn replaced(
    alloc: Global,
    of: &Text,
    given: Option<&str>,
    more: Option<&str>,
) -> Result<String, Fault> {
    let old = text(alloc, given)?;
    if old.len() == 0 {
        return Err(Fault::Unread);
    }
    let new = text(alloc, more)?;
    string(alloc, &replace(alloc, of, &old, &new)?)
}

/// The parts of a text, each with a bar after it.
fn parts(alloc: Global, of: &str) -> Result<Texts, Fault> {
    let mut parts = Items::new(alloc);
    for part in of.split_terminator('|') {
        parts.push(Text::from_str(alloc, part)?)?;
    }
    Ok(parts)
}

fn joined(alloc: Global, of: &str, given: Option<&str>) -> Result<String, Fault> {
    let by = text(alloc, given)?;
    let parts = parts(alloc, of)?;
    string(alloc, &join(alloc, &by, parts.as_slice())?)
}

/// A text without the characters of another at its ends.
fn stripped_of(
    alloc: Global,
    of: &Text,
    ends: Option<&str>,
    more: Option<&str>,
) -> Result<String, Fault> {
    let set = text(alloc, more)?;
    stripped(alloc, of, ends, Some(&set))
}

/// A text without what stands at its ends, as a word names them.
fn stripped(
    alloc: Global,
    of: &Text,
    ends: Option<&str>,
    set: Option<&Text>,
) -> Result<String, Fault> {
    let (left, right) = match ends.unwrap_or("") {
        "both" => (true, true),
        "left" => (true, false),
        "right" => (false, true),
        _ => (false, false),
    };
    string(alloc, &strip(alloc, of, set, left, right)?)
}

/// A format's parts as one text, plain text between bars.
fn cut(alloc: Global, format: &Text) -> Result<String, Fault> {
    let Some(parts) = format_parts(alloc, format)? else {
        return Ok(String::from_str(alloc, "no format")?);
    };
    let mut out = String::new(alloc);
    for part in parts.as_slice() {
        push_part(&mut out, part)?;
    }
    Ok(out)
}

fn push_part(out: &mut String, part: &Part) -> Result<(), Fault> {
    match part {
        Part::Plain(plain) => {
            out.push('|')?;
            out.push_str(plain.as_str())?;
            out.push('|')?;
        }
        Part::Shown => out.push_str("Shown")?,
        Part::Quoted => out.push_str("Quoted")?,
        Part::Decimal => out.push_str("Decimal")?,
    }
    Ok(())
}
