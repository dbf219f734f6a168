//! The readers on files as tools write them, at each refusal and at each limit.

use crate::fault::Fault;
use crate::words::{cut, field, flag, number};
use chex_base::Text;
use nb_reader::{NbFault, read_inputs, read_manifest, read_notebook};
use std::alloc::Global;

/// The sources in brackets, or the refusal.
pub fn notebook(alloc: Global, text: &str) -> Result<String, Fault> {
    match read_notebook(alloc, text.as_bytes()) {
        Ok(sources) => {
            let mut shown = String::new(alloc);
            for source in sources.as_slice() {
                shown.push_str("[")?;
                shown.push_str(source.as_str())?;
                shown.push_str("]")?;
            }
            Ok(shown)
        }
        Err(fault) => refusal(alloc, &fault),
    }
}

/// Each version's name, notebook and inputs, or the refusal.
pub fn versions(alloc: Global, text: &str) -> Result<String, Fault> {
    match read_manifest(alloc, text.as_bytes()) {
        Ok(manifest) => {
            let mut shown = String::new(alloc);
            for version in manifest.versions.as_slice() {
                shown.push_str(version.name.as_str())?;
                shown.push_str("=")?;
                shown.push_str(version.notebook.as_str())?;
                if let Some(inputs) = &version.inputs {
                    shown.push_str("+")?;
                    shown.push_str(inputs.as_str())?;
                }
                shown.push_str(";")?;
            }
            Ok(shown)
        }
        Err(fault) => refusal(alloc, &fault),
    }
}

/// The value of the name `n`, or the refusal.
pub fn input(alloc: Global, text: &str) -> Result<String, Fault> {
    match read_inputs(alloc, text.as_bytes()) {
        Ok(inputs) => {
            let name = Text::from_str(alloc, "n")?;
            Ok(format!(in alloc; "{:?}", inputs.get(&name))?)
        }
        Err(fault) => refusal(alloc, &fault),
    }
}

fn refusal(alloc: Global, fault: &NbFault) -> Result<String, Fault> {
    Ok(format!(in alloc; "{fault:?}")?)
}

/// A front, some copies of a piece, each with its number before it where that is wanted, and an end.
fn repeated(
    alloc: Global,
    parts: (&str, &str, &str),
    numbered: bool,
    count: usize,
) -> Result<String, Fault> {
    let (front, piece, end) = parts;
    let mut text = String::from_str(alloc, front)?;
    for place in 0..count {
        if numbered {
            let number = format!(in alloc; "{place}")?;
            text.push_str(number.as_str())?;
        }
        text.push_str(piece)?;
    }
    text.push_str(end)?;
    Ok(text)
}

/// A file at a limit or past it: which reader, a front, a piece and an end, how often the piece
/// stands, and whether numbers stand before the pieces.
pub fn limit(alloc: Global, row: &str) -> Result<String, Fault> {
    let (reader, rest) = field(row)?;
    let (front, rest) = field(rest)?;
    let (piece, rest) = field(rest)?;
    let (end, rest) = field(rest)?;
    let (count, numbered) = cut(rest);
    let count = number(count)?;
    let text = repeated(alloc, (front, piece, end), flag(numbered)?, count)?;
    match reader {
        "notebook" => notebook(alloc, text.as_str()),
        "manifest" => versions(alloc, text.as_str()),
        "inputs" => input(alloc, text.as_str()),
        _ => Err(Fault::Unread),
    }
}
