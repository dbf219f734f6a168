//! The fields of a row, between which tabs stand, and their words, between which blanks stand.

use crate::fault::Fault;
use std::alloc::Global;

/// The first field, and what stands behind its tab.
pub fn field(row: &str) -> Result<(&str, &str), Fault> {
    match row.split_once('\t') {
        Some(parts) => Ok(parts),
        None => Err(Fault::Unread),
    }
}

/// The first word, and what stands behind its blank.
pub fn cut(text: &str) -> (&str, &str) {
    match text.split_once(' ') {
        Some(parts) => parts,
        None => (text, ""),
    }
}

pub fn number(text: &str) -> Result<u32, Fault> {
    match text.parse::<u32>() {
        Ok(number) => Ok(number),
        Err(_) => Err(Fault::Unread),
    }
}

pub fn large(text: &str) -> Result<u64, Fault> {
    match text.parse::<u64>() {
        Ok(number) => Ok(number),
        Err(_) => Err(Fault::Unread),
    }
}

/// The number that is the first word, and the other words.
pub fn number_and(text: &str) -> Result<(u32, &str), Fault> {
    let (first, rest) = cut(text);
    Ok((number(first)?, rest))
}

/// The text, with a newline for each `\n`, and a carriage return for a `\r` before one.
pub fn with_lines(alloc: Global, written: &str) -> Result<String, Fault> {
    let mut text = String::new(alloc);
    for (place, line) in written.split("\\n").enumerate() {
        if place > 0 {
            text.push('\n')?;
        }
        match line.strip_suffix("\\r") {
            Some(line) => {
                text.push_str(line)?;
                text.push('\r')?;
            }
            None => text.push_str(line)?,
        }
    }
    Ok(text)
}

/// The text on one line, with `\n` for each newline.
pub fn on_one_line(alloc: Global, text: &str) -> Result<String, Fault> {
    let mut out = String::new(alloc);
    for c in text.chars() {
        if c == '\n' {
            out.push_str("\\n")?;
        } else {
            out.push(c)?;
        }
    }
    Ok(out)
}
