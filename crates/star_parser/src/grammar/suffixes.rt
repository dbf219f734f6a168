//! What follows an operand directly: indices, slices, calls and methods.

ghost use Rattle.std.specs.Prelude.{◌≡◌, [], length, IfOk};
ghost use Rattle.star_parser.specs.Readers as spec;
ghost use Rattle.star_parser.specs.Verdict.{Reads};
ghost use Rattle.star_parser.specs.Nests.{Nests};
ghost use Rattle.star_parser.specs.Parts as parts;

use crate::cursor::Cursor;
use crate::fault::Fault;
use crate::grammar::Grammar;
use crate::level::Level;
use sqlite_items::{Boxed, Items};
use star_syntax::{Expr, Mark, Suffix};
use std::alloc::{AllocError, Global};

impl<F: Fn(Global, &mut Cursor<'_>, usize, Level) -> Result<Expr, Fault>> Grammar<F> {
    /// A bound of a slice, unless it is left out.
    #[tactic(auto, unfolding(crate::specs::Readers::bound))]
    fn bound(&self, tokens: &mut Cursor<'_>) -> Result<Option<Expr>, Fault>
        requires { Nests self.now.depth (F.pre self.now.expr) (F.post self.now.expr) }
        ensures { Reads (spec.bound (spec.expr self.now.depth) tokens.old.rest.now) result tokens.new.rest.now }
    {
        if tokens.sees(Mark::Colon) || tokens.sees(Mark::CloseSquare) {
            return Ok(None);
        }
        Ok(Some(self.expr(tokens, Level::Test)?))
    }

    /// The second colon of a slice, where it stands, what stands after it, and `]`.
    #[tactic(auto, unfolding(crate::specs::Parts::slice_step))]
    fn slice_step(&self, tokens: &mut Cursor<'_>) -> Result<Option<Option<Expr>>, Fault>
        requires { Nests self.now.depth (F.pre self.now.expr) (F.post self.now.expr) }
        ensures { Reads (parts.slice_step (spec.expr self.now.depth) tokens.old.rest.now) result tokens.new.rest.now }
    {
        if !tokens.eat(Mark::Colon) {
            tokens.expect(Mark::CloseSquare)?;
            return Ok(None);
        }
        if tokens.eat(Mark::CloseSquare) {
            return Ok(Some(None));
        }
        let step = self.expr(tokens, Level::Test)?;
        tokens.expect(Mark::CloseSquare)?;
        Ok(Some(Some(step)))
    }

    /// The second bound of a slice, its step, and `]`.
    #[tactic(auto, unfolding(crate::specs::Parts::slice_end))]
    fn slice_end(
        &self,
        tokens: &mut Cursor<'_>,
    ) -> Result<(Option<Expr>, Option<Option<Expr>>), Fault>
        requires { Nests self.now.depth (F.pre self.now.expr) (F.post self.now.expr) }
        ensures { Reads (parts.slice_end (spec.expr self.now.depth) tokens.old.rest.now) result tokens.new.rest.now }
    {
        let stop = self.bound(tokens)?;
        let step = self.slice_step(tokens)?;
        Ok((stop, step))
    }

    /// After the first colon of a slice.
    #[tactic(auto, using(crate::proofs::SliceSteps::slice_by_end))]
    fn slice_after(
        &self,
        tokens: &mut Cursor<'_>,
        start: Option<Expr>,
    ) -> Result<Suffix<Expr>, Fault>
        requires { Nests self.now.depth (F.pre self.now.expr) (F.post self.now.expr) }
        ensures { Reads (spec.slice_after (spec.expr self.now.depth) start tokens.old.rest.now) result tokens.new.rest.now }
    {
        let (stop, step) = self.slice_end(tokens)?;
        Ok(Suffix::Slice(start, stop, step))
    }

    /// After `[` and an expression.
    #[tactic(auto, unfolding(crate::specs::Readers::index_after))]
    fn index_after(&self, tokens: &mut Cursor<'_>, at: Expr) -> Result<Suffix<Expr>, Fault>
        requires { Nests self.now.depth (F.pre self.now.expr) (F.post self.now.expr) }
        ensures { Reads (spec.index_after (spec.expr self.now.depth) at tokens.old.rest.now) result tokens.new.rest.now }
    {
        if tokens.eat(Mark::Colon) {
            return self.slice_after(tokens, Some(at));
        }
        tokens.expect(Mark::CloseSquare)?;
        Ok(Suffix::Index(at))
    }

    /// After `[`.
    #[tactic(auto, unfolding(crate::specs::Readers::index))]
    fn index(&self, tokens: &mut Cursor<'_>) -> Result<Suffix<Expr>, Fault>
        requires { Nests self.now.depth (F.pre self.now.expr) (F.post self.now.expr) }
        ensures { Reads (spec.index (spec.expr self.now.depth) tokens.old.rest.now) result tokens.new.rest.now }
    {
        if tokens.eat(Mark::Colon) {
            return self.slice_after(tokens, None);
        }
        let at = self.expr(tokens, Level::Test)?;
        self.index_after(tokens, at)
    }

    /// After `.`.
    #[tactic(auto, unfolding(crate::specs::Readers::method))]
    fn method(&self, tokens: &mut Cursor<'_>) -> Result<Suffix<Expr>, Fault>
        requires { Nests self.now.depth (F.pre self.now.expr) (F.post self.now.expr) }
        ensures { Reads (spec.method (spec.expr self.now.depth) tokens.old.rest.now) result tokens.new.rest.now }
    {
        let name = tokens.expect_name(self.alloc)?;
        tokens.expect(Mark::OpenRound)?;
        let given = self.arguments(tokens)?;
        Ok(Suffix::Method(name, given))
    }

    /// The suffixes up to what follows them.
    #[tactic(auto, unfolding(crate::specs::Readers::suffixes_from))]
    fn suffixes(&self, tokens: &mut Cursor<'_>) -> Result<Items<Suffix<Expr>>, Fault>
        requires { Nests self.now.depth (F.pre self.now.expr) (F.post self.now.expr) }
        ensures { Reads (spec.suffixes_from (spec.expr self.now.depth) (length tokens.old.rest.now) [] tokens.old.rest.now) result tokens.new.rest.now }
    {
        let mut found = Items::new(self.alloc);
        for _turn in 0..tokens.left() {
            let suffix = if tokens.eat(Mark::OpenSquare) {
                self.index(tokens)?
            } else if tokens.eat(Mark::OpenRound) {
                Suffix::Call(self.arguments(tokens)?)
            } else if tokens.eat(Mark::Dot) {
                self.method(tokens)?
            } else {
                return Ok(found);
            };
            found.push(suffix)?;
        }
        Ok(found)
    }

    /// An atom and its suffixes.
    #[tactic(auto, unfolding(crate::specs::Readers::primary))]
    pub fn primary(&self, tokens: &mut Cursor<'_>) -> Result<Expr, Fault>
        requires { Nests self.now.depth (F.pre self.now.expr) (F.post self.now.expr) }
        ensures { Reads (spec.primary (spec.expr self.now.depth) tokens.old.rest.now) result tokens.new.rest.now }
    {
        let head = self.atom(tokens)?;
        let found = self.suffixes(tokens)?;
        Ok(with_suffixes(self.alloc, head, found)?)
    }
}

fn with_suffixes(alloc: Global, head: Expr, found: Items<Suffix<Expr>>) -> Result<Expr, AllocError>
    ensures { IfOk result (λ e. e ≡ spec.with_suffixes head found) }
{
    if found.is_empty() {
        return Ok(head);
    }
    Ok(Expr::Primary(Boxed::new(alloc, head)?, found))
}
