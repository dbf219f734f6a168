//! Ranges: integers at places, and lengths.

use crate::fault::Fault;
use star_value::Range;
use std::alloc::Global;

/// The integer at a place, where a fourth number stands; else the length.
pub fn answer(alloc: Global, question: &str) -> Result<String, Fault> {
    let mut words = question.split_whitespace();
    let range = Range {
        start: number(words.next())?,
        stop: number(words.next())?,
        step: number(words.next())?,
    };
    match words.next() {
        Some(place) => item(alloc, range, place),
        None => {
            let length = range.len();
            Ok(format!(in alloc; "{length}")?)
        }
    }
}

fn number(word: Option<&str>) -> Result<i128, Fault> {
    match word {
        Some(word) => word.parse::<i128>().map_err(|_| Fault::Unread),
        None => Err(Fault::Unread),
    }
}

fn item(alloc: Global, range: Range, place: &str) -> Result<String, Fault> {
    let Ok(place) = place.parse::<u128>() else {
        return Err(Fault::Unread);
    };
    if place >= range.len() {
        return Err(Fault::Unread);
    }
    let item = range.item(place);
    Ok(format!(in alloc; "{item}")?)
}
