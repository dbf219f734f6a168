//! The cell of a source, or what is wrong with the source.
ghost use Rattle.std.specs.Prelude.{◌≡◌, ◌≤◌, IfOk, IfErr, length};
ghost use Rattle.std.specs.Str.{encode_utf8_all};
ghost use Rattle.star_lexer.specs.Tokens.{Tokens};
ghost use Rattle.star_parser.specs.Trees.{IsTree};
ghost use Rattle.star_syntax.specs.Nesting.{IsEnded, IsShallow};
ghost use Rattle.star_syntax.specs.Placement.{IsPlaced, AreInputNames};
ghost use Rattle.cell_reader.specs.Cells as spec;

use chex_base::{NoMemory, Text};
use star_lexer::{LexFault, LexKind, lex};
use star_parser::{ParseFault, parse};
use star_resolver::{ResolveFault, ResolveKind, resolve};
use star_syntax::{Cell, Module, Spanned, SpannedTokens};
use std::alloc::{AllocFailed, Global};

/// What is wrong with a source; docs/LANGUAGE.md has the rules.
#[derive(Clone, Copy, Debug, PartialEq, Eq)]
pub enum Reason {
    /// A piece of it is no token.
    Token(LexKind),
    /// A token stands where no tree goes on with it.
    Unexpected,
    /// A statement or a name is out of place.
    Placement(ResolveKind),
}

/// Why a source gives no cell.
#[derive(Clone, Copy, Debug, PartialEq, Eq)]
pub enum CellFault {
    /// What is wrong with it, and on which line, from 1.
    Bad { reason: Reason, line: u32 },
    /// Memory was wanting.
    NoMemory,
}

/// The cell of a source of at most 65,536 bytes, or what is wrong with it: first its tokens, then
/// their order, and last the places of its statements and names. The time is linear in the source,
/// but for the look-ups of names.
pub fn read_cell(alloc: Global, source: &Text) -> Result<Cell, CellFault>
    requires { length (encode_utf8_all source.now) ≤ 65536 }
    ensures cell { IfOk result (spec.IsCellOf source.now) }
    ensures fault { IfErr result (spec.IsFaultOf source.now) }
{
    let tokens = tokens_of(alloc, source)?;
    let tree = tree_of(alloc, tokens.as_slice())?;
    placed(alloc, source, tree)
}

/// The tokens of a source.
fn tokens_of(alloc: Global, source: &Text) -> Result<SpannedTokens, CellFault>
    requires { length (encode_utf8_all source.now) ≤ 65536 }
    ensures tokens { IfOk result (Tokens source.now) }
    ensures nested { IfOk result IsShallow }
    ensures ended { IfOk result IsEnded }
    ensures fault { IfErr result (spec.IsFaultOf source.now) }
{
    match lex(alloc, source.as_str()) {
        Ok(tokens) => Ok(tokens),
        Err(LexFault::Bad { kind, line }) => Err(CellFault::Bad {
            reason: Reason::Token(kind),
            line,
        }),
        Err(LexFault::NoMemory) => Err(CellFault::NoMemory),
    }
}

/// The tree of tokens.
fn tree_of(alloc: Global, tokens: &[Spanned]) -> Result<Module, CellFault>
    requires nested { IsShallow tokens.now }
    requires ended { IsEnded tokens.now }
    ensures tree { IfOk result (λ tree. IsTree tree tokens.now) }
    ensures fault { IfErr result (spec.IsUnexpectedIn tokens.now) }
{
    match parse(alloc, tokens) {
        Ok(tree) => Ok(tree),
        Err(ParseFault::Unexpected { place }) => Err(CellFault::Bad {
            reason: Reason::Unexpected,
            line: tokens[place].line,
        }),
        Err(ParseFault::NoMemory) => Err(CellFault::NoMemory),
    }
}

/// The cell of a source and its tree.
fn placed(alloc: Global, source: &Text, tree: Module) -> Result<Cell, CellFault>
    ensures cell { IfOk result (λ cell. (cell.source ≡ source.now) × (cell.«module» ≡ tree) × IsPlaced tree × AreInputNames tree cell.inputs) }
    ensures fault { IfErr result (spec.IsMisplacedIn tree) }
{
    match resolve(alloc, source.copy(alloc)?, tree) {
        Ok(cell) => Ok(cell),
        Err(ResolveFault::Bad { kind, line }) => Err(CellFault::Bad {
            reason: Reason::Placement(kind),
            line,
        }),
        Err(ResolveFault::NoMemory) => Err(CellFault::NoMemory),
    }
}

impl From<NoMemory> for CellFault {
    ghost use Rattle.cell_reader.specs.declared.cell.CellFault.TheVariants as variant;

    ghost from_gives = { λ _ e. e ≡ variant.NoMemory };

    fn from(_: NoMemory) -> Self {
        CellFault::NoMemory
    }
}

impl<T: Drop> From<AllocFailed<T>> for CellFault {
    ghost use Rattle.cell_reader.specs.declared.cell.CellFault.TheVariants as variant;

    ghost from_gives = { λ _ e. e ≡ variant.NoMemory };

    fn from(_: AllocFailed<T>) -> Self {
        CellFault::NoMemory
    }
}
