//! Rows: the machine that bytes are read as, or their fault, and the bytes. A tab stands between.
use crate::fault::Fault;
use crate::shown::machine_shown;
use crate::spelled::bytes_of;
use heap_store::Machine;
use snapshot_codec::{SnapFault, decode, encode, size};
use star_syntax::Program;
use std::alloc::Global;

/// What bytes are read as.
#[derive(Drop)]
struct Answer {
    shown: String,
    /// Whether it is a machine.
    is_machine: bool,
}

/// What the bytes of a row are read as, where that is not what the row says. Where they are read as
/// a machine, that is written as the same bytes, all the bytes but the last ones are Short, however
/// many these are, and one byte more is LeftOver.
pub fn difference(alloc: Global, line: &str, program: &Program) -> Result<Option<String>, Fault> {
    let Some((expected, words)) = line.split_once('\t') else {
        return Err(Fault::Unread);
    };
    let bytes = bytes_of(alloc, words)?;
    let answer = answer_of(alloc, bytes.as_slice(), program)?;
    if answer.shown.as_str() != expected {
        return Ok(Some(answer.shown));
    }
    if answer.is_machine {
        return other_lengths(alloc, bytes, program);
    }
    Ok(None)
}

fn answer_of(alloc: Global, bytes: &[u8], program: &Program) -> Result<Answer, Fault> {
    match decode(alloc, bytes, program) {
        Ok(machine) => machine_answer(alloc, &machine, bytes),
        Err(SnapFault::NoMemory) => Err(Fault::NoMemory),
        Err(fault) => Ok(Answer {
            shown: format!(in alloc; "{fault:?}")?,
            is_machine: false,
        }),
    }
}

/// What a machine shows, where it is written as the bytes that it was read from.
fn machine_answer(alloc: Global, machine: &Machine, bytes: &[u8]) -> Result<Answer, Fault> {
    if !is_written_so(alloc, machine, bytes)? {
        return Ok(Answer {
            shown: format!(in alloc; "other bytes")?,
            is_machine: false,
        });
    }
    Ok(Answer {
        shown: machine_shown(alloc, machine)?,
        is_machine: true,
    })
}

/// Whether a machine is written as these bytes, and they are counted.
fn is_written_so(alloc: Global, machine: &Machine, bytes: &[u8]) -> Result<bool, Fault> {
    let written = encode(alloc, machine)?;
    if written.as_slice() != bytes {
        return Ok(false);
    }
    let count = size(alloc, machine)?;
    Ok(count == bytes.len() as u64)
}

/// Looks at the bytes of a machine without their last ones, and with one more.
fn other_lengths(
    alloc: Global,
    bytes: Vec<u8>,
    program: &Program,
) -> Result<Option<String>, Fault> {
    let all = bytes.as_slice();
    for end in 0..all.len() {
        let answer = answer_of(alloc, &all[..end], program)?;
        if answer.shown.as_str() != "Short" {
            let found = answer.shown;
            return Ok(Some(format!(in alloc; "{found} at {end} bytes")?));
        }
    }
    let mut more = bytes;
    more.push(0)?;
    let answer = answer_of(alloc, more.as_slice(), program)?;
    if answer.shown.as_str() != "LeftOver" {
        let found = answer.shown;
        return Ok(Some(format!(in alloc; "{found} with a byte more")?));
    }
    Ok(None)
}
