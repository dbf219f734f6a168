//! Files from their table: a name and parts, with tabs between. The file is its parts one after the
//! other. A part `65×,{"n%":1}` stands for its text 65 times, in which `%` is how many times it
//! stood before.
use crate::fault::Fault;
use chex_base::{Files, Text};
use std::alloc::Global;

/// The files of a table, a line each.
pub fn files_of(alloc: Global, table: &str) -> Result<Files, Fault> {
    let mut files = Files::new(alloc);
    for line in table.lines() {
        let Some((name, parts)) = line.split_once('\t') else {
            return Err(Fault::Unread);
        };
        let bytes = bytes_of(alloc, parts)?;
        files.add(Text::from_str(alloc, name)?, bytes)?;
    }
    Ok(files)
}

fn bytes_of(alloc: Global, parts: &str) -> Result<Vec<u8>, Fault> {
    let mut bytes = Vec::new(alloc);
    for part in parts.split('\t') {
        match repeated(part) {
            None => bytes.extend_from_slice(part.as_bytes())?,
            Some((times, text)) => add_times(alloc, times, text, &mut bytes)?,
        }
    }
    Ok(bytes)
}

/// How often a part stands for a text, and the text.
fn repeated(part: &str) -> Option<(u32, &str)> {
    let (times, text) = part.split_once('×')?;
    let times = times.parse::<u32>().ok()?;
    Some((times, text))
}

fn add_times(alloc: Global, times: u32, text: &str, bytes: &mut Vec<u8>) -> Result<(), Fault> {
    for turn in 0..times {
        let mut is_first = true;
        for piece in text.split('%') {
            if !is_first {
                let number = format!(in alloc; "{turn}")?;
                bytes.extend_from_slice(number.as_bytes())?;
            }
            is_first = false;
            bytes.extend_from_slice(piece.as_bytes())?;
        }
    }
    Ok(())
}
