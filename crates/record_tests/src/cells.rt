//! Cells from their sources.
use crate::fault::Fault;
use chex_base::Text;
use star_lexer::lex;
use star_parser::parse;
use star_resolver::resolve;
use star_syntax::Cell;
use std::alloc::Global;

/// The cell of a source of at most 65,536 bytes.
pub fn cell(alloc: Global, source: &str) -> Result<Cell, Fault> {
    if source.len() > 65_536 {
        return Err(Fault::Unread);
    }
    let tokens = lex(alloc, source)?;
    let tree = parse(alloc, tokens.as_slice())?;
    let text = Text::from_str(alloc, source)?;
    Ok(resolve(alloc, text, tree)?)
}
