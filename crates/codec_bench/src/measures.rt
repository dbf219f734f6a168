//! What is measured.

use crate::bytes::snapshot;
use crate::fault::Fault;
use chex_base::Text;
use snapshot_codec::{decode, encode, size};
use star_lexer::lex;
use star_parser::parse;
use star_resolver::resolve;
use star_syntax::{Cells, Program};
use std::alloc::Global;

/// What is done with the bytes.
#[derive(Clone, Copy, Debug, PartialEq, Eq)]
pub enum Task {
    /// They are made.
    Make,
    /// A machine is read from them.
    Read,
    /// The machine is counted and written again.
    Write,
}

/// Does a task with a state of so many lists, and answers how many bytes its snapshot has. Fails
/// where the bytes that are written are not those that were read, or not as many as were counted.
pub fn measured(alloc: Global, task: Task, count: u32) -> Result<usize, Fault> {
    let bytes = snapshot(alloc, count)?;
    if task == Task::Make {
        return Ok(bytes.len());
    }
    let program = program(alloc)?;
    let machine = decode(alloc, bytes.as_slice(), &program)?;
    if task == Task::Read {
        return Ok(bytes.len());
    }
    let counted = size(alloc, &machine)?;
    let written = encode(alloc, &machine)?;
    if written.as_slice() == bytes.as_slice() && counted == written.len() as u64 {
        Ok(written.len())
    } else {
        Err(Fault::Other)
    }
}

/// A program of one cell.
fn program(alloc: Global) -> Result<Program, Fault> {
    let source = "x = []\n";
    let tokens = lex(alloc, source)?;
    let tree = parse(alloc, tokens.as_slice())?;
    let cell = resolve(alloc, Text::from_str(alloc, source)?, tree)?;
    let mut cells = Vec::new(alloc);
    cells.push(cell)?;
    Ok(Program {
        cells: Cells::from_vec(cells),
    })
}
