//! Rows: a question and its answer, with a tab between; a question may have several fields, also
//! with tabs between. A line without a tab is a heading. In sources and texts `\n`, `\t` and `\r`
//! stand for a newline, a tab and a carriage return, `\\` for a backslash, and `\u{..}` for the
//! character of a hexadecimal number.

use crate::fault::Fault;
use crate::{parser, placement, ranges, texts, tokens, trees, values};
use std::alloc::Global;

/// What the rows of a table ask.
#[derive(Clone, Copy)]
pub enum Table {
    /// The tokens of a source.
    Tokens,
    /// How many tokens a source has.
    Counts,
    /// Whether tokens spell a tree.
    Trees,
    /// The nodes of the tree of tokens.
    Shapes,
    /// The tokens with which the tree of a source is spelled.
    Spelling,
    /// The names that the cell of a source reads.
    Placement,
    /// What a call on a text answers.
    Texts,
    /// An integer of a range, or its length.
    Ranges,
    /// What a value weighs.
    Values,
}

/// What differs from a row, if anything does.
pub fn difference(alloc: Global, table: Table, line: &str) -> Result<Option<String>, Fault> {
    let Some((question, wanted)) = line.rsplit_once('\t') else {
        return Err(Fault::Unread);
    };
    let found = answer(alloc, table, question)?;
    let wanted = plain(alloc, wanted)?;
    if found.as_str() == wanted.as_str() {
        Ok(None)
    } else {
        Ok(Some(found))
    }
}

fn answer(alloc: Global, table: Table, question: &str) -> Result<String, Fault> {
    match table {
        Table::Trees => parser::answer(alloc, question),
        Table::Shapes => parser::shape(alloc, question),
        Table::Texts => texts::answer(alloc, question),
        Table::Ranges => ranges::answer(alloc, question),
        Table::Values => values::answer(alloc, question),
        _ => of_source(alloc, table, question),
    }
}

/// The answer of a table whose questions are sources.
fn of_source(alloc: Global, table: Table, question: &str) -> Result<String, Fault> {
    let source = plain(alloc, question)?;
    match table {
        Table::Tokens => tokens::answer(alloc, source.as_str()),
        Table::Counts => tokens::count(alloc, source.as_str()),
        Table::Spelling => trees::spelled(alloc, source.as_str()),
        Table::Placement => placement::answer(alloc, source.as_str()),
        _ => Err(Fault::Unread),
    }
}

/// Where in an escape a character stands.
#[derive(Clone, Copy)]
enum Escape {
    /// In none.
    Outside,
    /// Directly after a backslash.
    Begun,
    /// After `\u`, with the number so far.
    Number(u32),
}

/// The text of a field, with its escapes undone.
pub fn plain(alloc: Global, field: &str) -> Result<String, Fault> {
    let mut out = String::new(alloc);
    let mut escape = Escape::Outside;
    for c in field.chars() {
        escape = pass(&mut out, escape, c)?;
    }
    Ok(out)
}

/// Takes in one more character of a field.
fn pass(out: &mut String, escape: Escape, c: char) -> Result<Escape, Fault> {
    match (escape, c) {
        (Escape::Outside, '\\') => return Ok(Escape::Begun),
        (Escape::Begun, 'u') => return Ok(Escape::Number(0)),
        (Escape::Number(number), '}') => {
            out.push(char::from_u32(number).ok_or(Fault::Unread)?)?;
        }
        (Escape::Number(number), _) => return Ok(Escape::Number(longer(number, c))),
        (Escape::Outside, _) => out.push(c)?,
        (Escape::Begun, _) => out.push(escaped(c))?,
    }
    Ok(Escape::Outside)
}

/// A hexadecimal number with one more digit; what is no digit leaves it as it is.
fn longer(number: u32, c: char) -> u32 {
    match c.to_digit(16) {
        Some(digit) => number.saturating_mul(16).saturating_add(digit),
        None => number,
    }
}

/// The character that a letter after a backslash stands for.
fn escaped(c: char) -> char {
    match c {
        'n' => '\n',
        't' => '\t',
        'r' => '\r',
        _ => c,
    }
}
