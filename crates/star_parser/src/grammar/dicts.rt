//! What stands in curly brackets.

ghost use Rattle.std.specs.Prelude.{◌≡◌, [], length, IfOk};
ghost use Rattle.star_syntax.specs.declared.expression.Expr.TheVariants as variant;
ghost use Rattle.star_parser.specs.Readers as spec;
ghost use Rattle.star_parser.specs.Verdict.{Reads};
ghost use Rattle.star_parser.specs.Nests.{Nests};

use crate::cursor::Cursor;
use crate::fault::Fault;
use crate::grammar::Grammar;
use crate::level::Level;
use sqlite_items::{Boxed, Items};
use star_syntax::{Clause, Expr, Keyword, Mark, Pair};
use std::alloc::{AllocError, Global};

impl<F: Fn(Global, &mut Cursor<'_>, usize, Level) -> Result<Expr, Fault>> Grammar<F> {
    /// `key: value`
    #[tactic(auto, unfolding(crate::specs::Readers::pair))]
    fn pair(&self, tokens: &mut Cursor<'_>) -> Result<Pair<Expr>, Fault>
        requires { Nests self.now.depth (F.pre self.now.expr) (F.post self.now.expr) }
        ensures { Reads (spec.pair (spec.expr self.now.depth) tokens.old.rest.now) result tokens.new.rest.now }
    {
        let key = self.expr(tokens, Level::Test)?;
        tokens.expect(Mark::Colon)?;
        let value = self.expr(tokens, Level::Test)?;
        Ok(Pair { key, value })
    }

    /// The pairs up to `}`, after those found, and whether a comma stands at the end.
    #[tactic(auto, unfolding(crate::specs::Readers::pairs_from))]
    fn pairs_from(
        &self,
        tokens: &mut Cursor<'_>,
        mut found: Items<Pair<Expr>>,
    ) -> Result<(Items<Pair<Expr>>, bool), Fault>
        requires { Nests self.now.depth (F.pre self.now.expr) (F.post self.now.expr) }
        ensures { Reads (spec.pairs_from (spec.expr self.now.depth) (length tokens.old.rest.now) found tokens.old.rest.now) result tokens.new.rest.now }
    {
        for _turn in 0..tokens.left() {
            found.push(self.pair(tokens)?)?;
            if tokens.eat(Mark::CloseCurly) {
                return Ok((found, false));
            }
            tokens.expect(Mark::Comma)?;
            if tokens.eat(Mark::CloseCurly) {
                return Ok((found, true));
            }
        }
        Err(Fault::Unexpected)
    }

    /// After `{` and a pair, where no `for` follows.
    #[tactic(auto, unfolding(crate::specs::Readers::paired_after))]
    fn paired_after(&self, tokens: &mut Cursor<'_>, first: Pair<Expr>) -> Result<Expr, Fault>
        requires { Nests self.now.depth (F.pre self.now.expr) (F.post self.now.expr) }
        ensures { Reads (spec.paired_after (spec.expr self.now.depth) first tokens.old.rest.now) result tokens.new.rest.now }
    {
        let mut pairs = Items::new(self.alloc);
        pairs.push(first)?;
        if tokens.eat(Mark::CloseCurly) {
            return Ok(Expr::Dict(pairs, false));
        }
        tokens.expect(Mark::Comma)?;
        if tokens.eat(Mark::CloseCurly) {
            return Ok(Expr::Dict(pairs, true));
        }
        let (pairs, comma) = self.pairs_from(tokens, pairs)?;
        Ok(Expr::Dict(pairs, comma))
    }

    /// After `{` and a pair, where `for` follows.
    #[tactic(auto, using(crate::proofs::OverSteps::dict_by_clauses))]
    fn dict_over(&self, tokens: &mut Cursor<'_>, first: Pair<Expr>) -> Result<Expr, Fault>
        requires { Nests self.now.depth (F.pre self.now.expr) (F.post self.now.expr) }
        ensures { Reads (spec.dict_over (spec.expr self.now.depth) first tokens.old.rest.now) result tokens.new.rest.now }
    {
        let clauses = self.closed_clauses(tokens, Mark::CloseCurly)?;
        Ok(dict_over(self.alloc, first, clauses)?)
    }

    /// After `{`.
    #[tactic(auto, unfolding(crate::specs::Readers::curly))]
    pub fn curly(&self, tokens: &mut Cursor<'_>) -> Result<Expr, Fault>
        requires { Nests self.now.depth (F.pre self.now.expr) (F.post self.now.expr) }
        ensures { Reads (spec.curly (spec.expr self.now.depth) tokens.old.rest.now) result tokens.new.rest.now }
    {
        if tokens.eat(Mark::CloseCurly) {
            return Ok(Expr::Dict(Items::new(self.alloc), false));
        }
        let first = self.pair(tokens)?;
        if tokens.sees_word(Keyword::For) {
            self.dict_over(tokens, first)
        } else {
            self.paired_after(tokens, first)
        }
    }
}

/// A dict over clauses.
fn dict_over(
    alloc: Global,
    pair: Pair<Expr>,
    clauses: Items<Clause<Expr>>,
) -> Result<Expr, AllocError>
    ensures { IfOk result (λ tree. tree ≡ variant.DictOver pair.key pair.value clauses) }
{
    let (key, value) = boxed(alloc, pair)?;
    Ok(Expr::DictOver(key, value, clauses))
}

/// The key and the value of a pair, each in a box.
fn boxed(alloc: Global, pair: Pair<Expr>) -> Result<(Boxed<Expr>, Boxed<Expr>), AllocError>
    ensures { IfOk result (λ boxes. (boxes.0 ≡ pair.key) × (boxes.1 ≡ pair.value)) }
{
    let Pair { key, value } = pair;
    let key = Boxed::new(alloc, key)?;
    let value = Boxed::new(alloc, value)?;
    Ok((key, value))
}
