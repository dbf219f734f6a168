//! Cells from sources, which stand on one line with `\n` for a newline.

use crate::fault::Fault;
use chex_base::Text;
use star_lexer::lex;
use star_parser::parse;
use star_resolver::resolve;
use star_syntax::Cell;
use std::alloc::Global;

pub fn cell_of(alloc: Global, written: &str) -> Result<Cell, Fault> {
    let source = with_lines(alloc, written)?;
    if source.len() > 65_536 {
        return Err(Fault::Unread);
    }
    let tokens = lex(alloc, source.as_str())?;
    let tree = parse(alloc, tokens.as_slice())?;
    let text = Text::from_str(alloc, source.as_str())?;
    Ok(resolve(alloc, text, tree)?)
}

/// The text with a newline for each `\n`.
fn with_lines(alloc: Global, written: &str) -> Result<String, Fault> {
    let mut source = String::new(alloc);
    for (place, line) in written.split("\\n").enumerate() {
        if place > 0 {
            source.push('\n')?;
        }
        source.push_str(line)?;
    }
    Ok(source)
}

/// The source of a cell on one line.
pub fn written(alloc: Global, cell: &Cell) -> Result<String, Fault> {
    let mut out = String::new(alloc);
    for c in cell.source().as_str().chars() {
        if c == '\n' {
            out.push_str("\\n")?;
        } else {
            out.push(c)?;
        }
    }
    Ok(out)
}
