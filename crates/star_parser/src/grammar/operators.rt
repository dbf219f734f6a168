//! Operators: chains, signs, comparisons, `not`, and the conditional.

ghost use Rattle.std.specs.Prelude.{◌≡◌, [], length, IfOk};
ghost use Rattle.star_parser.specs.Readers as spec;
ghost use Rattle.star_parser.specs.Verdict.{Reads};
ghost use Rattle.star_parser.specs.Nests.{Nests};
ghost use Rattle.star_parser.specs.Tables as tables;

use crate::cursor::{Cursor, chain_op, compare_op, sign_of};
use crate::fault::Fault;
use crate::grammar::Grammar;
use crate::level::Level;
use sqlite_items::{Boxed, Items};
use star_syntax::{Arm, ChainLevel, CompareOp, Expr, Keyword, Link, UnaryOp};
use std::alloc::{AllocError, Global};

impl<F: Fn(Global, &mut Cursor<'_>, usize, Level) -> Result<Expr, Fault>> Grammar<F> {
    /// The further operands of a chain, each after its operator.
    #[tactic(auto, unfolding(crate::specs::Readers::links_from))]
    fn links(
        &self,
        tokens: &mut Cursor<'_>,
        level: ChainLevel,
        inner: Level,
    ) -> Result<Items<Link<Expr>>, Fault>
        requires { Nests self.now.depth (F.pre self.now.expr) (F.post self.now.expr) }
        ensures { Reads (spec.links_from (spec.expr self.now.depth) level inner (length tokens.old.rest.now) [] tokens.old.rest.now) result tokens.new.rest.now }
    {
        let mut found = Items::new(self.alloc);
        for _turn in 0..tokens.left() {
            let Some(op) = chain_op(level, tokens.peek()) else {
                return Ok(found);
            };
            tokens.skip();
            let operand = self.expr(tokens, inner)?;
            found.push(Link { op, operand })?;
        }
        Ok(found)
    }

    /// Operands of the inner level with operators of the chain's level between.
    #[tactic(auto, unfolding(crate::specs::Readers::chained))]
    pub fn chained(
        &self,
        tokens: &mut Cursor<'_>,
        level: ChainLevel,
        inner: Level,
    ) -> Result<Expr, Fault>
        requires { Nests self.now.depth (F.pre self.now.expr) (F.post self.now.expr) }
        ensures { Reads (spec.chained (spec.expr self.now.depth) level inner tokens.old.rest.now) result tokens.new.rest.now }
    {
        let first = self.expr(tokens, inner)?;
        let found = self.links(tokens, level, inner)?;
        Ok(with_links(self.alloc, level, first, found)?)
    }

    /// Signs and their operand.
    #[tactic(auto, unfolding(crate::specs::Readers::unary))]
    pub fn unary(&self, tokens: &mut Cursor<'_>) -> Result<Expr, Fault>
        requires { Nests self.now.depth (F.pre self.now.expr) (F.post self.now.expr) }
        ensures { Reads (spec.unary (spec.expr self.now.depth) tokens.old.rest.now) result tokens.new.rest.now }
    {
        let signs = signs(self.alloc, tokens)?;
        let operand = self.expr(tokens, Level::Primary)?;
        Ok(with_signs(self.alloc, signs, operand)?)
    }

    /// The right side of a comparison.
    #[tactic(auto, unfolding(crate::specs::Readers::compared))]
    fn compared(&self, tokens: &mut Cursor<'_>, left: Expr, op: CompareOp) -> Result<Expr, Fault>
        requires { Nests self.now.depth (F.pre self.now.expr) (F.post self.now.expr) }
        ensures { Reads (spec.compared (spec.expr self.now.depth) left op tokens.old.rest.now) result tokens.new.rest.now }
    {
        let right = self.expr(tokens, Level::BitOr)?;
        Ok(Expr::Compare(
            Boxed::new(self.alloc, left)?,
            op,
            Boxed::new(self.alloc, right)?,
        ))
    }

    /// A comparison, or its left side alone.
    #[tactic(auto, unfolding(crate::specs::Readers::compare))]
    pub fn compare(&self, tokens: &mut Cursor<'_>) -> Result<Expr, Fault>
        requires { Nests self.now.depth (F.pre self.now.expr) (F.post self.now.expr) }
        ensures { Reads (spec.compare (spec.expr self.now.depth) tokens.old.rest.now) result tokens.new.rest.now }
    {
        let left = self.expr(tokens, Level::BitOr)?;
        match compare_op(tokens.peek()) {
            None => Ok(left),
            Some(CompareOp::NotWithin) => {
                tokens.skip();
                tokens.expect_word(Keyword::In)?;
                self.compared(tokens, left, CompareOp::NotWithin)
            }
            Some(op) => {
                tokens.skip();
                self.compared(tokens, left, op)
            }
        }
    }

    /// An operand after any number of `not`.
    #[tactic(auto, unfolding(crate::specs::Readers::negated))]
    pub fn negated(&self, tokens: &mut Cursor<'_>) -> Result<Expr, Fault>
        requires { Nests self.now.depth (F.pre self.now.expr) (F.post self.now.expr) }
        ensures { Reads (spec.negated (spec.expr self.now.depth) tokens.old.rest.now) result tokens.new.rest.now }
    {
        let count = nots(tokens);
        let operand = self.expr(tokens, Level::Compare)?;
        Ok(with_nots(self.alloc, count, operand)?)
    }

    /// After `if`: the condition, and the value after `else`.
    #[tactic(auto, unfolding(crate::specs::Readers::alternative))]
    fn alternative(&self, tokens: &mut Cursor<'_>) -> Result<(Expr, Expr), Fault>
        requires { Nests self.now.depth (F.pre self.now.expr) (F.post self.now.expr) }
        ensures { Reads (spec.alternative (spec.expr self.now.depth) tokens.old.rest.now) result tokens.new.rest.now }
    {
        let condition = self.expr(tokens, Level::Or)?;
        tokens.expect_word(Keyword::Else)?;
        let value = self.expr(tokens, Level::Or)?;
        Ok((condition, value))
    }

    /// After a value: each `if`, its condition and the value after its `else`.
    #[tactic(auto, unfolding(crate::specs::Readers::arms_from))]
    fn arms(&self, tokens: &mut Cursor<'_>, first: Expr) -> Result<Expr, Fault>
        requires { Nests self.now.depth (F.pre self.now.expr) (F.post self.now.expr) }
        ensures { Reads (spec.arms_from (spec.expr self.now.depth) (length tokens.old.rest.now) [] first tokens.old.rest.now) result tokens.new.rest.now }
    {
        let mut value = first;
        let mut found = Items::new(self.alloc);
        for _turn in 0..tokens.left() {
            if !tokens.eat_word(Keyword::If) {
                return Ok(with_arms(self.alloc, found, value)?);
            }
            let (condition, next) = self.alternative(tokens)?;
            found.push(Arm { value, condition })?;
            value = next;
        }
        Ok(with_arms(self.alloc, found, value)?)
    }

    /// A conditional, or its value alone.
    #[tactic(auto, unfolding(crate::specs::Readers::whole_test))]
    pub fn test(&self, tokens: &mut Cursor<'_>) -> Result<Expr, Fault>
        requires { Nests self.now.depth (F.pre self.now.expr) (F.post self.now.expr) }
        ensures { Reads (spec.whole_test (spec.expr self.now.depth) tokens.old.rest.now) result tokens.new.rest.now }
    {
        let value = self.expr(tokens, Level::Or)?;
        self.arms(tokens, value)
    }
}

fn with_links(
    alloc: Global,
    level: ChainLevel,
    first: Expr,
    found: Items<Link<Expr>>,
) -> Result<Expr, AllocError>
    ensures { IfOk result (λ e. e ≡ spec.with_links level first found) }
{
    if found.is_empty() {
        return Ok(first);
    }
    Ok(Expr::Chain(level, Boxed::new(alloc, first)?, found))
}

fn with_arms(alloc: Global, found: Items<Arm<Expr>>, last: Expr) -> Result<Expr, AllocError>
    ensures { IfOk result (λ e. e ≡ spec.with_arms found last) }
{
    if found.is_empty() {
        return Ok(last);
    }
    Ok(Expr::Conditional(found, Boxed::new(alloc, last)?))
}

fn with_signs(alloc: Global, signs: Items<UnaryOp>, operand: Expr) -> Result<Expr, AllocError>
    ensures { IfOk result (λ e. e ≡ spec.with_signs signs operand) }
{
    if signs.is_empty() {
        return Ok(operand);
    }
    Ok(Expr::Signed(signs, Boxed::new(alloc, operand)?))
}

fn with_nots(alloc: Global, count: usize, operand: Expr) -> Result<Expr, AllocError>
    ensures { IfOk result (λ e. e ≡ spec.with_nots count operand) }
{
    if count == 0 {
        return Ok(operand);
    }
    Ok(Expr::Not(count, Boxed::new(alloc, operand)?))
}

/// The signs up to what follows them.
#[tactic(auto, unfolding(crate::specs::Tables::signs_from))]
fn signs(alloc: Global, tokens: &mut Cursor<'_>) -> Result<Items<UnaryOp>, AllocError>
    ensures { IfOk result (λ found. tables.signs_from (length tokens.old.rest.now) [] tokens.old.rest.now ≡ Ok (found, tokens.new.rest.now)) }
{
    let mut found = Items::new(alloc);
    for _turn in 0..tokens.left() {
        let Some(sign) = sign_of(tokens.peek()) else {
            return Ok(found);
        };
        tokens.skip();
        found.push(sign)?;
    }
    Ok(found)
}

/// How many `not` stand next; they are passed.
#[tactic(auto, unfolding(crate::specs::Tables::nots_from))]
fn nots(tokens: &mut Cursor<'_>) -> usize
    ensures { tables.nots_from (length tokens.old.rest.now) 0 tokens.old.rest.now ≡ Ok (result, tokens.new.rest.now) }
{
    let mut count = 0;
    for _turn in 0..tokens.left() {
        if !tokens.eat_word(Keyword::Not) {
            return count;
        }
        count += 1;
    }
    count
}
