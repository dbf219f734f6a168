//! Atoms, and the items in round and square brackets.

ghost use Rattle.std.specs.Prelude.{◌≡◌, [], length};
ghost use Rattle.star_parser.specs.Readers as spec;
ghost use Rattle.star_parser.specs.Verdict.{Reads};
ghost use Rattle.star_parser.specs.Nests.{Nests};

use crate::cursor::Cursor;
use crate::fault::Fault;
use crate::grammar::Grammar;
use crate::level::Level;
use sqlite_items::{Boxed, Items};
use star_syntax::{Expr, Keyword, Mark, Token};
use std::alloc::Global;

impl<F: Fn(Global, &mut Cursor<'_>, usize, Level) -> Result<Expr, Fault>> Grammar<F> {
    /// The items up to the closing bracket, after those found, and whether a comma stands at the end.
    #[tactic(auto, unfolding(crate::specs::Readers::items_from))]
    fn items_from(
        &self,
        tokens: &mut Cursor<'_>,
        close: Mark,
        mut found: Items<Expr>,
    ) -> Result<(Items<Expr>, bool), Fault>
        requires { Nests self.now.depth (F.pre self.now.expr) (F.post self.now.expr) }
        ensures { Reads (spec.items_from (spec.expr self.now.depth) close (length tokens.old.rest.now) found tokens.old.rest.now) result tokens.new.rest.now }
    {
        for _turn in 0..tokens.left() {
            found.push(self.expr(tokens, Level::Test)?)?;
            if tokens.eat(close) {
                return Ok((found, false));
            }
            tokens.expect(Mark::Comma)?;
            if tokens.eat(close) {
                return Ok((found, true));
            }
        }
        Err(Fault::Unexpected)
    }

    /// After `(` and an expression.
    #[tactic(auto, unfolding(crate::specs::Readers::parenthesized))]
    fn parenthesized(&self, tokens: &mut Cursor<'_>, inner: Expr) -> Result<Expr, Fault>
        requires { Nests self.now.depth (F.pre self.now.expr) (F.post self.now.expr) }
        ensures { Reads (spec.parenthesized (spec.expr self.now.depth) inner tokens.old.rest.now) result tokens.new.rest.now }
    {
        if tokens.eat(Mark::CloseRound) {
            return Ok(Expr::Paren(Boxed::new(self.alloc, inner)?));
        }
        tokens.expect(Mark::Comma)?;
        let mut items = Items::new(self.alloc);
        items.push(inner)?;
        if tokens.eat(Mark::CloseRound) {
            return Ok(Expr::Tuple(items, true));
        }
        let (items, comma) = self.items_from(tokens, Mark::CloseRound, items)?;
        Ok(Expr::Tuple(items, comma))
    }

    /// After `(`.
    #[tactic(auto, unfolding(crate::specs::Readers::round))]
    fn round(&self, tokens: &mut Cursor<'_>) -> Result<Expr, Fault>
        requires { Nests self.now.depth (F.pre self.now.expr) (F.post self.now.expr) }
        ensures { Reads (spec.round (spec.expr self.now.depth) tokens.old.rest.now) result tokens.new.rest.now }
    {
        if tokens.eat(Mark::CloseRound) {
            return Ok(Expr::Tuple(Items::new(self.alloc), false));
        }
        let inner = self.expr(tokens, Level::Test)?;
        self.parenthesized(tokens, inner)
    }

    /// After `[` and an expression, where no `for` follows.
    #[tactic(auto, unfolding(crate::specs::Readers::listed_after))]
    fn listed_after(&self, tokens: &mut Cursor<'_>, first: Expr) -> Result<Expr, Fault>
        requires { Nests self.now.depth (F.pre self.now.expr) (F.post self.now.expr) }
        ensures { Reads (spec.listed_after (spec.expr self.now.depth) first tokens.old.rest.now) result tokens.new.rest.now }
    {
        let mut items = Items::new(self.alloc);
        items.push(first)?;
        if tokens.eat(Mark::CloseSquare) {
            return Ok(Expr::List(items, false));
        }
        tokens.expect(Mark::Comma)?;
        if tokens.eat(Mark::CloseSquare) {
            return Ok(Expr::List(items, true));
        }
        let (items, comma) = self.items_from(tokens, Mark::CloseSquare, items)?;
        Ok(Expr::List(items, comma))
    }

    /// After `[` and an expression, where `for` follows.
    #[tactic(auto, using(crate::proofs::OverSteps::list_by_clauses))]
    fn list_over(&self, tokens: &mut Cursor<'_>, item: Expr) -> Result<Expr, Fault>
        requires { Nests self.now.depth (F.pre self.now.expr) (F.post self.now.expr) }
        ensures { Reads (spec.list_over (spec.expr self.now.depth) item tokens.old.rest.now) result tokens.new.rest.now }
    {
        let clauses = self.closed_clauses(tokens, Mark::CloseSquare)?;
        Ok(Expr::ListOver(Boxed::new(self.alloc, item)?, clauses))
    }

    /// After `[`.
    #[tactic(auto, unfolding(crate::specs::Readers::square))]
    fn square(&self, tokens: &mut Cursor<'_>) -> Result<Expr, Fault>
        requires { Nests self.now.depth (F.pre self.now.expr) (F.post self.now.expr) }
        ensures { Reads (spec.square (spec.expr self.now.depth) tokens.old.rest.now) result tokens.new.rest.now }
    {
        if tokens.eat(Mark::CloseSquare) {
            return Ok(Expr::List(Items::new(self.alloc), false));
        }
        let first = self.expr(tokens, Level::Test)?;
        if tokens.sees_word(Keyword::For) {
            self.list_over(tokens, first)
        } else {
            self.listed_after(tokens, first)
        }
    }

    /// A name, a literal, or what stands in brackets.
    #[tactic(auto, unfolding(crate::specs::Readers::atom))]
    pub fn atom(&self, tokens: &mut Cursor<'_>) -> Result<Expr, Fault>
        requires { Nests self.now.depth (F.pre self.now.expr) (F.post self.now.expr) }
        ensures { Reads (spec.atom (spec.expr self.now.depth) tokens.old.rest.now) result tokens.new.rest.now }
    {
        let atom = match tokens.peek() {
            Some(Token::Name(name)) => Expr::Name(name.copy(self.alloc)?),
            Some(Token::Int(number)) => Expr::Int(*number),
            Some(Token::Text(text)) => Expr::Text(text.copy(self.alloc)?),
            Some(Token::Word(Keyword::None)) => Expr::None,
            Some(Token::Word(Keyword::True)) => Expr::True,
            Some(Token::Word(Keyword::False)) => Expr::False,
            Some(Token::Mark(Mark::OpenRound)) => {
                tokens.skip();
                return self.round(tokens);
            }
            Some(Token::Mark(Mark::OpenSquare)) => {
                tokens.skip();
                return self.square(tokens);
            }
            Some(Token::Mark(Mark::OpenCurly)) => {
                tokens.skip();
                return self.curly(tokens);
            }
            _ => return Err(Fault::Unexpected),
        };
        tokens.skip();
        Ok(atom)
    }
}
