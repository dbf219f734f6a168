//! The arguments of a call.

ghost use Rattle.std.specs.Prelude.{◌≡◌, [], length, IfOk};
ghost use Rattle.star_parser.specs.Readers as spec;
ghost use Rattle.star_parser.specs.Verdict.{Reads};
ghost use Rattle.star_parser.specs.Nests.{Nests};
ghost use Rattle.star_parser.specs.Parts as parts;

use crate::cursor::Cursor;
use crate::fault::Fault;
use crate::grammar::Grammar;
use crate::level::Level;
use crate::target::name_or_self;
use chex_base::Text;
use sqlite_items::Items;
use star_syntax::{Arguments, Expr, Mark, Named};
use std::alloc::Global;

/// One argument of a call.
#[derive(Drop)]
pub enum Argument {
    /// The name of a named argument.
    Named(Text),
    Positional(Expr),
}

impl<F: Fn(Global, &mut Cursor<'_>, usize, Level) -> Result<Expr, Fault>> Grammar<F> {
    /// Named arguments up to `)`, in so many turns at most, after the positional ones; the name of the
    /// first and the `=` after it are read.
    #[tactic(auto, unfolding(crate::specs::Readers::named_from))]
    pub fn named_from(
        &self,
        tokens: &mut Cursor<'_>,
        turns: usize,
        positional: Items<Expr>,
        mut name: Text,
    ) -> Result<Arguments<Expr>, Fault>
        requires { Nests self.now.depth (F.pre self.now.expr) (F.post self.now.expr) }
        ensures { Reads (spec.named_from (spec.expr self.now.depth) turns positional [] name tokens.old.rest.now) result tokens.new.rest.now }
    {
        let mut named = Items::new(self.alloc);
        for _turn in 0..turns {
            let value = self.expr(tokens, Level::Test)?;
            named.push(Named { name, value })?;
            if tokens.eat(Mark::CloseRound) {
                return Ok(arguments(positional, named, false));
            }
            tokens.expect(Mark::Comma)?;
            if tokens.eat(Mark::CloseRound) {
                return Ok(arguments(positional, named, true));
            }
            name = tokens.expect_name(self.alloc)?;
            tokens.expect(Mark::Assign)?;
        }
        Err(Fault::Unexpected)
    }

    /// A positional argument, or the name of a named one with the `=` after it.
    #[tactic(auto, using(crate::proofs::Targets::names), unfolding(crate::specs::Parts::argument))]
    fn argument(&self, tokens: &mut Cursor<'_>) -> Result<Argument, Fault>
        requires { Nests self.now.depth (F.pre self.now.expr) (F.post self.now.expr) }
        ensures { Reads (parts.argument (spec.expr self.now.depth) tokens.old.rest.now) result tokens.new.rest.now }
    {
        match name_or_self(self.expr(tokens, Level::Test)?) {
            Ok(name) => {
                if tokens.eat(Mark::Assign) {
                    return Ok(Argument::Named(name));
                }
                Ok(Argument::Positional(Expr::Name(name)))
            }
            Err(item) => Ok(Argument::Positional(item)),
        }
    }

    /// The arguments up to `)`, of which there is at least one.
    #[tactic(auto, unfolding(crate::specs::Readers::arguments_from))]
    fn arguments_from(&self, tokens: &mut Cursor<'_>) -> Result<Arguments<Expr>, Fault>
        requires { Nests self.now.depth (F.pre self.now.expr) (F.post self.now.expr) }
        ensures { Reads (spec.arguments_from (spec.expr self.now.depth) (length tokens.old.rest.now) [] tokens.old.rest.now) result tokens.new.rest.now }
    {
        let turns = tokens.left();
        let mut found = Items::new(self.alloc);
        for turn in 0..turns {
            match self.argument(tokens)? {
                Argument::Named(name) => {
                    return self.named_from(tokens, turns - turn - 1, found, name);
                }
                Argument::Positional(item) => found.push(item)?,
            }
            if tokens.eat(Mark::CloseRound) {
                return Ok(arguments(found, Items::new(self.alloc), false));
            }
            tokens.expect(Mark::Comma)?;
            if tokens.eat(Mark::CloseRound) {
                return Ok(arguments(found, Items::new(self.alloc), true));
            }
        }
        Err(Fault::Unexpected)
    }

    /// After the `(` of a call.
    #[tactic(auto, unfolding(crate::specs::Readers::arguments))]
    pub fn arguments(&self, tokens: &mut Cursor<'_>) -> Result<Arguments<Expr>, Fault>
        requires { Nests self.now.depth (F.pre self.now.expr) (F.post self.now.expr) }
        ensures { Reads (spec.arguments (spec.expr self.now.depth) tokens.old.rest.now) result tokens.new.rest.now }
    {
        if tokens.eat(Mark::CloseRound) {
            return Ok(arguments(Items::new(self.alloc), Items::new(self.alloc), false));
        }
        self.arguments_from(tokens)
    }
}

fn arguments(positional: Items<Expr>, named: Items<Named<Expr>>, comma: bool) -> Arguments<Expr>
    ensures { result ≡ spec.arguments_of positional named comma }
{
    Arguments {
        positional,
        named,
        comma,
    }
}
