//! Expressions in statements, alone and with commas between.
ghost use Rattle.std.specs.Prelude.{◌≡◌, [], length};
ghost use Rattle.star_parser.specs.Readers as readers;
ghost use Rattle.star_parser.specs.StatementReaders as spec;
ghost use Rattle.star_parser.specs.Verdict.{Reads};

use crate::cursor::Cursor;
use crate::fault::Fault;
use crate::grammar::{self, Grammar};
use crate::level::Level;
use chex_base::Text;
use sqlite_items::Items;
use star_syntax::{Arguments, Expr, Mark};
use std::alloc::Global;

/// Reads the expressions of statements.
#[derive(Clone, Copy)]
pub struct Terms {
    pub alloc: Global,
    /// How deep the rules of expressions may nest.
    pub depth: usize,
}

impl Terms {
    /// An expression of the level.
    pub fn expr(&self, tokens: &mut Cursor<'_>, level: Level) -> Result<Expr, Fault>
        ensures { Reads (readers.expr self.now.depth level tokens.old.rest.now) result tokens.new.rest.now }
    {
        grammar::expr(self.alloc, tokens, self.depth, level)
    }

    /// Targets with commas between, up to what follows them.
    pub fn targets(&self, tokens: &mut Cursor<'_>) -> Result<Items<Expr>, Fault>
        ensures { Reads (readers.targets_from (readers.expr self.now.depth) (length tokens.old.rest.now) [] tokens.old.rest.now) result tokens.new.rest.now }
    {
        Grammar {
            alloc: self.alloc,
            depth: self.depth,
            expr: grammar::expr,
        }
        .targets(tokens)
    }

    /// Names with values up to `)`, the first name and the `=` after it being read.
    pub fn named(&self, tokens: &mut Cursor<'_>, name: Text) -> Result<Arguments<Expr>, Fault>
        ensures { Reads (readers.named_from (readers.expr self.now.depth) (length tokens.old.rest.now) [] [] name tokens.old.rest.now) result tokens.new.rest.now }
    {
        let turns = tokens.left();
        let positional = Items::new(self.alloc);
        Grammar {
            alloc: self.alloc,
            depth: self.depth,
            expr: grammar::expr,
        }
        .named_from(tokens, turns, positional, name)
    }

    /// The tests after those found, each after a comma.
    #[tactic(auto, unfolding(crate::specs::StatementReaders::tests_after))]
    pub fn tests_after(
        &self,
        tokens: &mut Cursor<'_>,
        mut found: Items<Expr>,
    ) -> Result<Items<Expr>, Fault>
        ensures { Reads (spec.tests_after (readers.expr self.now.depth) (length tokens.old.rest.now) found tokens.old.rest.now) result tokens.new.rest.now }
    {
        for _turn in 0..tokens.left() {
            if !tokens.eat(Mark::Comma) {
                return Ok(found);
            }
            found.push(self.expr(tokens, Level::Test)?)?;
        }
        Ok(found)
    }

    /// At least one test, with commas between.
    #[tactic(auto, unfolding(crate::specs::StatementReaders::tests))]
    pub fn tests(&self, tokens: &mut Cursor<'_>) -> Result<Items<Expr>, Fault>
        ensures { Reads (spec.tests (readers.expr self.now.depth) tokens.old.rest.now) result tokens.new.rest.now }
    {
        let mut found = Items::new(self.alloc);
        found.push(self.expr(tokens, Level::Test)?)?;
        self.tests_after(tokens, found)
    }
}
