//! The fields of a row, between which tabs stand, and their words, between which blanks stand.

use crate::fault::Fault;
use std::alloc::Global;

/// The first field, and what stands behind its tab.
pub fn field(row: &str) -> Result<(&str, &str), Fault> {
    match row.split_once('\t') {
        Some(parts) => Ok(parts),
        None => Err(Fault::Unread),
    }
}

/// The first word, and what stands behind its blank.
pub fn cut(text: &str) -> (&str, &str) {
    match text.split_once(' ') {
        Some(parts) => parts,
        None => (text, ""),
    }
}

pub fn number(text: &str) -> Result<usize, Fault> {
    match text.parse::<usize>() {
        Ok(number) => Ok(number),
        Err(_) => Err(Fault::Unread),
    }
}

pub fn flag(word: &str) -> Result<bool, Fault> {
    match word {
        "yes" => Ok(true),
        "no" => Ok(false),
        _ => Err(Fault::Unread),
    }
}

/// The text on one line, with `\n` for each newline and `\r` for each carriage return.
pub fn on_one_line(alloc: Global, text: &str) -> Result<String, Fault> {
    let mut out = String::new(alloc);
    for c in text.chars() {
        match c {
            '\n' => out.push_str("\\n")?,
            '\r' => out.push_str("\\r")?,
            _ => out.push(c)?,
        }
    }
    Ok(out)
}
