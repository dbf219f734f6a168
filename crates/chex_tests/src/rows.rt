//! Rows: the words of a call, the number of its status, what it writes, and further facts. Tabs
//! stand between, and `¶` stands for a newline. A fact says which call of a device fails, which
//! listeners there are, or what is told after the call; docs/DEVELOPING.md lists them.
use crate::called::{Ended, called};
use crate::facts::{found, is_told, with_newlines};
use crate::fault::Fault;
use chex_base::MemoryLibrary;
use std::alloc::Global;

/// What differs from a row, if anything does.
pub fn difference(
    alloc: Global,
    line: &str,
    library: &mut MemoryLibrary,
) -> Result<Option<String>, Fault> {
    let mut fields = Vec::new(alloc);
    for field in line.split('\t') {
        fields.push(field)?;
    }
    let [words, status, written, facts @ ..] = fields.as_slice() else {
        return Err(Fault::Unread);
    };
    let ended = called(alloc, words, facts, library)?;
    let wanted = with_newlines(alloc, written)?;
    let number = format!(in alloc; "{}", ended.told.status)?;
    if number.as_str() != *status || ended.written.as_str() != wanted.as_str() {
        let text = ended.written;
        return Ok(Some(format!(in alloc; "status {number}, {text:?}")?));
    }
    first_other(alloc, &ended, facts)
}

/// The first fact that is told otherwise.
fn first_other(alloc: Global, ended: &Ended, facts: &[&str]) -> Result<Option<String>, Fault> {
    for fact in facts {
        if !is_told(fact) {
            continue;
        }
        let Some((name, wanted)) = fact.split_once(": ") else {
            return Err(Fault::Unread);
        };
        let told = found(alloc, ended, name)?;
        let wanted = with_newlines(alloc, wanted)?;
        if told.as_str() != wanted.as_str() {
            return Ok(Some(format!(in alloc; "{name}: {told:?}")?));
        }
    }
    Ok(None)
}
