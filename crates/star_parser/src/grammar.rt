//! The rules of expressions.
//!
//! Each takes the reader of nested expressions as a value, and gives what the reader of its name in
//! `specs/Readers.antt` gives. The one recursion is [`expr`].

mod arguments;
mod brackets;
mod clauses;
mod dicts;
mod operators;
mod suffixes;

ghost use Rattle.std.specs.Prelude.{◌≡◌, [], length};
ghost use Rattle.star_parser.specs.Readers as spec;
ghost use Rattle.star_parser.specs.Verdict.{Reads};
ghost use Rattle.star_parser.specs.Nests.{Nests};

use crate::cursor::Cursor;
use crate::fault::Fault;
use crate::level::Level;
use star_syntax::{ChainLevel, Expr};
use std::alloc::Global;

/// The rules over a reader of nested expressions.
#[derive(Clone, Copy)]
pub struct Grammar<F> {
    pub alloc: Global,
    /// How deep calls may still nest.
    pub depth: usize,
    /// Reads an expression of a level, with calls nested no deeper than the number.
    pub expr: F,
}

impl<F: Fn(Global, &mut Cursor<'_>, usize, Level) -> Result<Expr, Fault>> Grammar<F> {
    /// A nested expression of the level.
    pub fn expr(&self, tokens: &mut Cursor<'_>, level: Level) -> Result<Expr, Fault>
        requires { Nests self.now.depth (F.pre self.now.expr) (F.post self.now.expr) }
        ensures { Reads (spec.expr self.now.depth level tokens.old.rest.now) result tokens.new.rest.now }
    {
        (self.expr)(self.alloc, tokens, self.depth, level)
    }

    /// An expression of the level.
    pub fn at(&self, tokens: &mut Cursor<'_>, level: Level) -> Result<Expr, Fault>
        requires { Nests self.now.depth (F.pre self.now.expr) (F.post self.now.expr) }
        ensures { Reads (spec.at (spec.expr self.now.depth) level tokens.old.rest.now) result tokens.new.rest.now }
    {
        match level {
            Level::Test => self.test(tokens),
            Level::Or => self.chained(tokens, ChainLevel::Or, Level::And),
            Level::And => self.chained(tokens, ChainLevel::And, Level::Not),
            Level::Not => self.negated(tokens),
            Level::Compare => self.compare(tokens),
            Level::BitOr => self.chained(tokens, ChainLevel::BitOr, Level::BitXor),
            Level::BitXor => self.chained(tokens, ChainLevel::BitXor, Level::BitAnd),
            Level::BitAnd => self.chained(tokens, ChainLevel::BitAnd, Level::Sum),
            Level::Sum => self.chained(tokens, ChainLevel::Sum, Level::Product),
            Level::Product => self.chained(tokens, ChainLevel::Product, Level::Unary),
            Level::Unary => self.unary(tokens),
            Level::Primary => self.primary(tokens),
        }
    }
}

/// An expression of the level, where calls nest no deeper than `depth`.
pub fn expr(
    alloc: Global,
    tokens: &mut Cursor<'_>,
    depth: usize,
    level: Level,
) -> Result<Expr, Fault>
    ensures { Reads (spec.expr depth level tokens.old.rest.now) result tokens.new.rest.now }
{
    if depth == 0 {
        return Err(Fault::Unexpected);
    }
    Grammar {
        alloc,
        depth: depth - 1,
        expr,
    }
    .at(tokens, level)
}
