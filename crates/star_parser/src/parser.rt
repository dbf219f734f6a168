//! The tree of a cell's tokens.
ghost use Rattle.std.specs.Prelude.{◌≡◌, ◌+◌, ◌*◌, IfOk, length};
ghost use Rattle.star_syntax.specs.declared.statement.Module.{Module};
ghost use Rattle.star_syntax.specs.Levels.{WellLevelled};
ghost use Rattle.star_syntax.specs.Nesting.{IsEnded, IsShallow};
ghost use Rattle.star_syntax.specs.Spelling.{spelling};
ghost use Rattle.star_parser.specs.Lines.{unlined};
ghost use Rattle.star_parser.specs.Parsing.{IfUnexpected, IsUnrefused};
ghost use Rattle.star_parser.specs.Reading.{kinds};
ghost use Rattle.star_parser.specs.StatementReaders as spec;
ghost use Rattle.star_parser.specs.Trees.{IsTree, AreSpelled, IsLeast};
ghost use Rattle.star_parser.specs.Verdict.{Reads};

use crate::compound::{self, Blocks};
use crate::cursor::Cursor;
use crate::fault::{Fault, ParseFault};
use crate::terms::Terms;
use star_syntax::{Module, Spanned};
use std::alloc::Global;

/// A whole cell, with the rules of expressions and blocks nested no deeper than the numbers.
#[tactic(auto, unfolding(crate::specs::StatementReaders::whole))]
fn whole(
    alloc: Global,
    tokens: &mut Cursor<'_>,
    terms: usize,
    depth: usize,
) -> Result<Module, Fault>
    ensures { Reads (spec.whole terms depth tokens.old.rest.now) result tokens.new.rest.now }
{
    Blocks {
        terms: Terms {
            alloc,
            depth: terms,
        },
        depth,
        statement: compound::statement,
    }
    .cell(tokens)
}

/// How deep the rules of expressions nest at most: by each of their twelve levels at each token.
fn depth_of_terms(tokens: &[Spanned]) -> usize
    ensures { result ≡ 12 * length tokens.now + 12 }
{
    12 * tokens.len() + 12
}

/// How deep blocks nest at most.
fn depth_of_blocks(tokens: &[Spanned]) -> usize
    ensures { result ≡ length tokens.now + 1 }
{
    tokens.len() + 1
}

/// The tree of the tokens of a cell by the grammar of docs/LANGUAGE.md, with the line of each
/// statement's first token; or the least place with whose token no cell begins. At most 32 brackets and
/// indentations may be open at any place, and the last token must be End. Takes time in proportion to the tokens.
pub fn parse(alloc: Global, tokens: &[Spanned]) -> Result<Module, ParseFault>
    requires nested { IsShallow tokens.now }
    requires ended { IsEnded tokens.now }
    // The tree is well-levelled, the tokens are its spelling, and its statements' lines are theirs.
    ensures ok { IfOk result (λ cell. IsTree cell tokens.now) }
    // There is no other.
    ensures only { IfOk result (λ cell. (other : Module) → IsTree other tokens.now → other ≡ cell) }
    // Where the tokens spell a well-levelled tree, whatever its lines, none of them is refused.
    ensures complete { AreSpelled (kinds tokens.now) → IsUnrefused result }
    // The tokens before the refused one begin a well-levelled tree, and those up to it begin none.
    ensures unexpected { IfUnexpected result (λ place. IsLeast place (kinds tokens.now)) }
{
    let mut cursor = Cursor { rest: tokens };
    match whole(
        alloc,
        &mut cursor,
        depth_of_terms(tokens),
        depth_of_blocks(tokens),
    ) {
        Ok(cell) => Ok(cell),
        Err(Fault::NoMemory) => Err(ParseFault::NoMemory),
        Err(Fault::Unexpected) => Err(ParseFault::Unexpected {
            place: tokens.len() - cursor.left(),
        }),
    }
}

/// The law of the grammar: two well-levelled trees with one spelling differ in their lines alone. Does
/// nothing.
pub fn one_tree()
    ensures { (x y : Module) → WellLevelled x → WellLevelled y → spelling x ≡ spelling y → unlined x ≡ unlined y }
{}
