//! The parameters of functions.
ghost use Rattle.std.specs.Prelude.{◌≡◌, [], length};
ghost use Rattle.star_parser.specs.Readers as readers;
ghost use Rattle.star_parser.specs.StatementReaders as spec;
ghost use Rattle.star_parser.specs.Verdict.{Reads};

use crate::cursor::Cursor;
use crate::fault::Fault;
use crate::terms::Terms;
use chex_base::Text;
use sqlite_items::Items;
use star_syntax::{Arguments, Expr, Mark, Named};

impl Terms {
    /// The parameters up to `)`, of which there is at least one.
    #[tactic(auto, unfolding(crate::specs::StatementReaders::parameters_from))]
    fn parameters_from(
        &self,
        tokens: &mut Cursor<'_>,
    ) -> Result<(Items<Text>, Items<Named<Expr>>, bool), Fault>
        ensures { Reads (spec.parameters_from (readers.expr self.now.depth) (length tokens.old.rest.now) [] tokens.old.rest.now) result tokens.new.rest.now }
    {
        let mut found = Items::new(self.alloc);
        for _turn in 0..tokens.left() {
            let name = tokens.expect_name(self.alloc)?;
            if tokens.eat(Mark::Assign) {
                let Arguments { named, comma, .. } = self.named(tokens, name)?;
                return Ok((found, named, comma));
            }
            found.push(name)?;
            if tokens.eat(Mark::CloseRound) {
                return Ok((found, Items::new(self.alloc), false));
            }
            tokens.expect(Mark::Comma)?;
            if tokens.eat(Mark::CloseRound) {
                return Ok((found, Items::new(self.alloc), true));
            }
        }
        Err(Fault::Unexpected)
    }

    /// After `(`: the parameters without a default, those with one, and whether a comma stands at the end.
    #[tactic(auto, unfolding(crate::specs::StatementReaders::parameters))]
    pub fn parameters(
        &self,
        tokens: &mut Cursor<'_>,
    ) -> Result<(Items<Text>, Items<Named<Expr>>, bool), Fault>
        ensures { Reads (spec.parameters (readers.expr self.now.depth) tokens.old.rest.now) result tokens.new.rest.now }
    {
        if tokens.eat(Mark::CloseRound) {
            return Ok((Items::new(self.alloc), Items::new(self.alloc), false));
        }
        self.parameters_from(tokens)
    }
}
