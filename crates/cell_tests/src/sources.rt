//! Cells and trees from the sources of a row, in which `¶` stands for a newline, and `§` between
//! the cells of a version.

use crate::fault::Fault;
use chex_base::Text;
use star_lexer::lex;
use star_parser::parse;
use star_resolver::resolve;
use star_syntax::{Cell, Cells, Module, Program};
use std::alloc::Global;

/// A text of a row with its newlines.
pub fn lines(alloc: Global, text: &str) -> Result<String, Fault> {
    let mut all = String::new(alloc);
    for (place, line) in text.split('¶').enumerate() {
        if place > 0 {
            all.push_str("\n")?;
        }
        all.push_str(line)?;
    }
    Ok(all)
}

/// The tree that a source spells.
pub fn module_of(alloc: Global, source: &str) -> Result<Module, Fault> {
    if source.len() > 65_536 {
        return Err(Fault::Unread);
    }
    let tokens = lex(alloc, source)?;
    Ok(parse(alloc, tokens.as_slice())?)
}

fn cell_of(alloc: Global, source: &str) -> Result<Cell, Fault> {
    let source = lines(alloc, source)?;
    let tree = module_of(alloc, source.as_str())?;
    let source = Text::from_str(alloc, source.as_str())?;
    Ok(resolve(alloc, source, tree)?)
}

/// The program of a version alone: node n has its cell n.
pub fn program_of(alloc: Global, sources: &str) -> Result<Program, Fault> {
    let mut cells = Vec::new(alloc);
    for source in sources.split('§') {
        let cell = cell_of(alloc, source)?;
        cells.push(cell)?;
    }
    Ok(Program {
        cells: Cells::from_vec(cells),
    })
}
