//! The words of a row, which stand apart by single blanks.

use crate::fault::Fault;

/// The first word, and what stands behind its blank.
pub fn cut(text: &str) -> (&str, &str) {
    match text.split_once(' ') {
        Some(parts) => parts,
        None => (text, ""),
    }
}

pub fn number(text: &str) -> Result<u32, Fault> {
    match text.parse::<u32>() {
        Ok(number) => Ok(number),
        Err(_) => Err(Fault::Unread),
    }
}

pub fn integer(text: &str) -> Result<i128, Fault> {
    match text.parse::<i128>() {
        Ok(number) => Ok(number),
        Err(_) => Err(Fault::Unread),
    }
}

/// The number that is the first word, and the other words.
pub fn number_and(text: &str) -> Result<(u32, &str), Fault> {
    let (first, rest) = cut(text);
    Ok((number(first)?, rest))
}

/// The place of a number that is the first word, and the other words.
pub fn place(text: &str) -> Result<(usize, &str), Fault> {
    let (first, rest) = cut(text);
    Ok((number(first)? as usize, rest))
}

/// Two integers.
pub fn two_integers(text: &str) -> Result<(i128, i128), Fault> {
    let (first, second) = cut(text);
    Ok((integer(first)?, integer(second)?))
}
