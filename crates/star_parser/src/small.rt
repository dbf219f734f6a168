//! Small statements, and the lines that they stand on.
ghost use Rattle.std.specs.Prelude.{◌≡◌, ◌&&◌};
ghost use Rattle.star_parser.specs.Readers as readers;
ghost use Rattle.star_parser.specs.StatementReaders as spec;
ghost use Rattle.star_parser.specs.Verdict.{Reads};
ghost use Rattle.std.specs.Option.{option_copied};
ghost use Rattle.star_parser.specs.StatementTables as tables;
ghost use Rattle.star_parser.specs.Reading.{next};
ghost use Rattle.star_parser.specs.Tables.{is_mark};
ghost use Rattle.star_syntax.specs.declared.token.Mark.TheVariants as mark;

use crate::cursor::Cursor;
use crate::fault::Fault;
use crate::level::Level;
use crate::target::{are_targets, is_place};
use crate::terms::Terms;
use sqlite_items::Items;
use star_syntax::{BinaryOp, Expr, Keyword, Line, Mark, Small, SmallKind, Token};

impl Terms {
    /// After `return`.
    #[tactic(auto, unfolding(crate::specs::StatementReaders::returned))]
    fn returned(&self, tokens: &mut Cursor<'_>) -> Result<SmallKind, Fault>
        ensures { Reads (spec.returned (readers.expr self.now.depth) tokens.old.rest.now) result tokens.new.rest.now }
    {
        if tokens.ends_small() {
            return Ok(SmallKind::Return(Items::new(self.alloc)));
        }
        Ok(SmallKind::Return(self.tests(tokens)?))
    }

    /// After targets and `=`.
    #[tactic(auto, unfolding(crate::specs::StatementReaders::assigned))]
    fn assigned(&self, tokens: &mut Cursor<'_>, targets: Items<Expr>) -> Result<SmallKind, Fault>
        ensures { Reads (spec.assigned (readers.expr self.now.depth) targets tokens.old.rest.now) result tokens.new.rest.now }
    {
        let values = self.tests(tokens)?;
        Ok(SmallKind::Assign(targets, values))
    }

    /// After a place and a mark such as `+=`.
    #[tactic(auto, unfolding(crate::specs::StatementReaders::augmented))]
    fn augmented(
        &self,
        tokens: &mut Cursor<'_>,
        target: Expr,
        op: BinaryOp,
    ) -> Result<SmallKind, Fault>
        ensures { Reads (spec.augmented (readers.expr self.now.depth) target op tokens.old.rest.now) result tokens.new.rest.now }
    {
        let values = self.tests(tokens)?;
        Ok(SmallKind::Augmented(target, op, values))
    }

    /// After a test: further ones, and where all are targets perhaps `=` and values.
    #[tactic(auto, unfolding(crate::specs::StatementReaders::listed))]
    fn listed(&self, tokens: &mut Cursor<'_>, first: Expr) -> Result<SmallKind, Fault>
        ensures { Reads (spec.listed (readers.expr self.now.depth) first tokens.old.rest.now) result tokens.new.rest.now }
    {
        let mut found = Items::new(self.alloc);
        found.push(first)?;
        let found = self.tests_after(tokens, found)?;
        if assigns(tokens, found.as_slice()) {
            tokens.skip();
            return self.assigned(tokens, found);
        }
        Ok(SmallKind::Tests(found))
    }

    /// A small statement that begins with a test.
    #[tactic(auto, unfolding(crate::specs::StatementReaders::phrase))]
    fn phrase(&self, tokens: &mut Cursor<'_>) -> Result<SmallKind, Fault>
        ensures { Reads (spec.phrase (readers.expr self.now.depth) tokens.old.rest.now) result tokens.new.rest.now }
    {
        let first = self.expr(tokens, Level::Test)?;
        match place_op(&first, tokens.peek()) {
            Some(op) => {
                tokens.skip();
                self.augmented(tokens, first, op)
            }
            None => self.listed(tokens, first),
        }
    }

    /// A small statement but for its line.
    #[tactic(auto, unfolding(crate::specs::StatementReaders::small_kind))]
    fn small_kind(&self, tokens: &mut Cursor<'_>) -> Result<SmallKind, Fault>
        ensures { Reads (spec.small_kind (readers.expr self.now.depth) tokens.old.rest.now) result tokens.new.rest.now }
    {
        if tokens.eat_word(Keyword::Return) {
            self.returned(tokens)
        } else if tokens.eat_word(Keyword::Break) {
            Ok(SmallKind::Break)
        } else if tokens.eat_word(Keyword::Continue) {
            Ok(SmallKind::Continue)
        } else if tokens.eat_word(Keyword::Pass) {
            Ok(SmallKind::Pass)
        } else {
            self.phrase(tokens)
        }
    }

    /// A small statement, with the line of its first token.
    #[tactic(auto, unfolding(crate::specs::StatementReaders::small))]
    fn small(&self, tokens: &mut Cursor<'_>) -> Result<Small, Fault>
        ensures { Reads (spec.small (readers.expr self.now.depth) tokens.old.rest.now) result tokens.new.rest.now }
    {
        let line = tokens.line();
        let kind = self.small_kind(tokens)?;
        Ok(Small { line, kind })
    }

    /// Small statements up to the end of the line.
    #[tactic(auto, unfolding(crate::specs::StatementReaders::line, crate::specs::StatementReaders::smalls_from))]
    pub fn line(&self, tokens: &mut Cursor<'_>) -> Result<Line, Fault>
        ensures { Reads (spec.line (readers.expr self.now.depth) tokens.old.rest.now) result tokens.new.rest.now }
    {
        let mut smalls = Items::new(self.alloc);
        for _turn in 0..tokens.left() {
            smalls.push(self.small(tokens)?)?;
            if !tokens.eat(Mark::Semicolon) {
                tokens.expect_newline()?;
                return Ok(line(smalls, false));
            }
            if tokens.eat_newline() {
                return Ok(line(smalls, true));
            }
        }
        Err(Fault::Unexpected)
    }
}

/// Whether `=` comes next, after tests that are all targets.
#[tactic(auto, using(crate::proofs::TargetLists::are_targets_both))]
fn assigns(tokens: &Cursor<'_>, found: &[Expr]) -> bool
    ensures { result ≡ (is_mark mark.Assign (next tokens.now.rest.now) && spec.are_targets found.now) }
{
    tokens.sees(Mark::Assign) && are_targets(found)
}

fn line(smalls: Items<Small>, semicolon: bool) -> Line
    ensures { result ≡ spec.line_of smalls semicolon }
{
    Line { smalls, semicolon }
}

/// The operator of a mark such as `+=`, where what stands before it is a place.
fn place_op(tree: &Expr, token: Option<&Token>) -> Option<BinaryOp>
    ensures { result ≡ spec.place_op tree.now (option_copied token.entry) }
{
    if is_place(tree) {
        augmented_op(token)
    } else {
        None
    }
}

fn augmented_op(token: Option<&Token>) -> Option<BinaryOp>
    ensures { result ≡ tables.augmented_op (option_copied token.entry) }
{
    match token {
        Some(Token::Mark(Mark::PlusAssign)) => Some(BinaryOp::Add),
        Some(Token::Mark(Mark::MinusAssign)) => Some(BinaryOp::Sub),
        Some(Token::Mark(Mark::StarAssign)) => Some(BinaryOp::Mul),
        Some(Token::Mark(Mark::FloorAssign)) => Some(BinaryOp::Floor),
        Some(Token::Mark(Mark::PercentAssign)) => Some(BinaryOp::Mod),
        Some(Token::Mark(Mark::AmpersandAssign)) => Some(BinaryOp::And),
        Some(Token::Mark(Mark::BarAssign)) => Some(BinaryOp::Or),
        Some(Token::Mark(Mark::CaretAssign)) => Some(BinaryOp::Xor),
        _ => None,
    }
}
