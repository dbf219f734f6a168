//! The clauses of a comprehension.

ghost use Rattle.std.specs.Prelude.{◌≡◌, [], length};
ghost use Rattle.star_parser.specs.Readers as spec;
ghost use Rattle.star_parser.specs.Verdict.{Reads};
ghost use Rattle.star_parser.specs.Nests.{Nests};
ghost use Rattle.star_parser.specs.Parts as parts;

use crate::cursor::Cursor;
use crate::fault::Fault;
use crate::grammar::Grammar;
use crate::level::Level;
use crate::target::is_target;
use sqlite_items::Items;
use star_syntax::{Clause, Expr, Keyword, Mark};
use std::alloc::Global;

impl<F: Fn(Global, &mut Cursor<'_>, usize, Level) -> Result<Expr, Fault>> Grammar<F> {
    /// Targets with commas between, up to what follows them.
    #[tactic(auto, unfolding(crate::specs::Readers::targets_from))]
    pub fn targets(&self, tokens: &mut Cursor<'_>) -> Result<Items<Expr>, Fault>
        requires { Nests self.now.depth (F.pre self.now.expr) (F.post self.now.expr) }
        ensures { Reads (spec.targets_from (spec.expr self.now.depth) (length tokens.old.rest.now) [] tokens.old.rest.now) result tokens.new.rest.now }
    {
        let mut found = Items::new(self.alloc);
        for _turn in 0..tokens.left() {
            let target = self.expr(tokens, Level::Primary)?;
            if !is_target(&target) {
                return Err(Fault::Unexpected);
            }
            found.push(target)?;
            if !tokens.eat(Mark::Comma) {
                return Ok(found);
            }
        }
        Err(Fault::Unexpected)
    }

    /// After `for`.
    #[tactic(auto, unfolding(crate::specs::Readers::for_clause))]
    fn for_clause(&self, tokens: &mut Cursor<'_>) -> Result<Clause<Expr>, Fault>
        requires { Nests self.now.depth (F.pre self.now.expr) (F.post self.now.expr) }
        ensures { Reads (spec.for_clause (spec.expr self.now.depth) tokens.old.rest.now) result tokens.new.rest.now }
    {
        let targets = self.targets(tokens)?;
        tokens.expect_word(Keyword::In)?;
        let over = self.expr(tokens, Level::Or)?;
        Ok(Clause::For(targets, over))
    }

    /// The clauses up to what follows them.
    #[tactic(auto, unfolding(crate::specs::Readers::clauses_from))]
    pub fn clauses(&self, tokens: &mut Cursor<'_>) -> Result<Items<Clause<Expr>>, Fault>
        requires { Nests self.now.depth (F.pre self.now.expr) (F.post self.now.expr) }
        ensures { Reads (spec.clauses_from (spec.expr self.now.depth) (length tokens.old.rest.now) [] tokens.old.rest.now) result tokens.new.rest.now }
    {
        let mut found = Items::new(self.alloc);
        for _turn in 0..tokens.left() {
            let clause = if tokens.eat_word(Keyword::For) {
                self.for_clause(tokens)?
            } else if tokens.eat_word(Keyword::If) {
                Clause::If(self.expr(tokens, Level::Or)?)
            } else {
                return Ok(found);
            };
            found.push(clause)?;
        }
        Ok(found)
    }
    /// The clauses up to the closing bracket, which is passed.
    #[tactic(auto, unfolding(crate::specs::Parts::closed_clauses))]
    pub fn closed_clauses(
        &self,
        tokens: &mut Cursor<'_>,
        close: Mark,
    ) -> Result<Items<Clause<Expr>>, Fault>
        requires { Nests self.now.depth (F.pre self.now.expr) (F.post self.now.expr) }
        ensures { Reads (parts.closed_clauses (spec.expr self.now.depth) close tokens.old.rest.now) result tokens.new.rest.now }
    {
        let found = self.clauses(tokens)?;
        tokens.expect(close)?;
        Ok(found)
    }
}
