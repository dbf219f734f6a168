//! Lists of tokens, with the tree that they spell or the least place with which no tree goes on.

mod expression_shape;
pub mod notation;
mod statement_shape;

ghost use Rattle.std.specs.Prelude.{◌≡◌, ◌+◌, ◌≤◌, IsTrue};
ghost use Rattle.star_syntax.specs.Nesting as nesting;

use self::notation::{row_of, tokens_of};
use self::statement_shape::shape_of;
use crate::fault::Fault;
use chex_base::Text;
use star_parser::{ParseFault, one_tree, parse};
use star_syntax::{Mark, Module, Spanned, Token, spell};
use std::alloc::Global;

/// The open brackets and the open columns after one more token.
fn after_token(token: &Token, brackets: usize, columns: usize) -> (usize, usize)
    requires { brackets + columns ≤ 32 }
    ensures { result ≡ nesting.after_token token.now (brackets, columns) }
{
    match token {
        Token::Mark(Mark::OpenRound | Mark::OpenSquare | Mark::OpenCurly) => {
            (brackets + 1, columns)
        }
        Token::Mark(Mark::CloseRound | Mark::CloseSquare | Mark::CloseCurly) => {
            (brackets.saturating_sub(1), columns)
        }
        Token::Indent => (brackets, columns + 1),
        Token::Dedent => (brackets, columns.saturating_sub(1)),
        _ => (brackets, columns),
    }
}

/// Whether at most 32 brackets and columns are open at each place.
fn is_shallow(tokens: &[Spanned]) -> bool
    ensures { IsTrue result → nesting.IsShallow tokens.now }
{
    let mut brackets = 0;
    let mut columns = 0;
    for spanned in tokens {
        (brackets, columns) = after_token(&spanned.token, brackets, columns);
        if brackets + columns > 32 {
            return false;
        }
    }
    true
}

/// The tree of tokens, of which the last must be End and at most 32 brackets and columns be open.
fn read(alloc: Global, tokens: &[Spanned]) -> Result<Result<Module, ParseFault>, Fault> {
    let Some((last, _)) = tokens.split_last() else {
        return Err(Fault::Unread);
    };
    let Token::End = &last.token else {
        return Err(Fault::Unread);
    };
    if !is_shallow(tokens) {
        return Err(Fault::Unread);
    }
    Ok(parse(alloc, tokens))
}

/// What the tokens of a row are read as.
fn read_row(alloc: Global, row: &str) -> Result<Result<Module, ParseFault>, Fault> {
    let tokens = tokens_of(alloc, row)?;
    read(alloc, tokens.as_slice())
}

/// The row of the tokens that a tree is spelled with.
fn spelled(alloc: Global, tree: &Module) -> Result<Text, Fault> {
    let tokens = spell(alloc, tree)?;
    Ok(row_of(alloc, tokens.as_slice())?)
}

/// Whether a row is the spelling of a tree.
fn is_spelling(alloc: Global, row: &str, tree: &Module) -> Result<bool, Fault> {
    let words = spelled(alloc, tree)?;
    Ok(words.as_str() == row)
}

/// Whether tokens spell the tree that they are read as, or the place with which no tree goes on.
pub fn answer(alloc: Global, row: &str) -> Result<String, Fault> {
    match read_row(alloc, row)? {
        Ok(tree) => {
            let found = if is_spelling(alloc, row, &tree)? {
                "tree"
            } else {
                "a tree that other tokens spell"
            };
            Ok(String::from_str(alloc, found)?)
        }
        Err(ParseFault::Unexpected { place }) => Ok(format!(in alloc; "place {place}")?),
        Err(ParseFault::NoMemory) => Err(Fault::NoMemory),
    }
}

/// The nodes of the tree of tokens.
pub fn shape(alloc: Global, row: &str) -> Result<String, Fault> {
    one_tree();
    let tree = read_row(alloc, row)??;
    let shape = shape_of(alloc, &tree)?;
    Ok(String::from_str(alloc, shape.as_str().trim_start())?)
}
