//! Programs from the sources of their cells.

use crate::fault::Fault;
use chex_base::Text;
use star_lexer::lex;
use star_parser::parse;
use star_resolver::resolve;
use star_syntax::{Cell, Cells, Program};
use std::alloc::Global;

/// The program of cells that stand apart by a bar, each with `\n` for a newline.
pub fn program_of(alloc: Global, text: &str) -> Result<Program, Fault> {
    let mut cells = Vec::new(alloc);
    if !text.is_empty() {
        for written in text.split('|') {
            cells.push(cell_of(alloc, written.trim())?)?;
        }
    }
    Ok(Program {
        cells: Cells::from_vec(cells),
    })
}

fn cell_of(alloc: Global, written: &str) -> Result<Cell, Fault> {
    let source = with_lines(alloc, written)?;
    if source.len() > 65_536 {
        return Err(Fault::Unread);
    }
    let tokens = lex(alloc, source.as_str())?;
    let tree = parse(alloc, tokens.as_slice())?;
    let text = Text::from_str(alloc, source.as_str())?;
    Ok(resolve(alloc, text, tree)?)
}

/// The text with a newline for each `\n`.
fn with_lines(alloc: Global, written: &str) -> Result<String, Fault> {
    let mut source = String::new(alloc);
    for (place, line) in written.split("\\n").enumerate() {
        if place > 0 {
            source.push('\n')?;
        }
        source.push_str(line)?;
    }
    Ok(source)
}
