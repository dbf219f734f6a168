//! Statements that hold others, and cells.
//!
//! Each rule takes the reader of nested statements as a value, and gives what the reader of its name
//! in `specs/StatementReaders.antt` gives. The one recursion is [`statement`].
ghost use Rattle.std.specs.Prelude.{◌≡◌, [], length};
ghost use Rattle.star_parser.specs.Readers as readers;
ghost use Rattle.star_parser.specs.StatementReaders as spec;
ghost use Rattle.star_parser.specs.Verdict.{Reads};
ghost use Rattle.star_parser.specs.NestsBlocks.{NestsBlocks};

use crate::cursor::Cursor;
use crate::fault::Fault;
use crate::level::Level;
use crate::terms::Terms;
use sqlite_items::Items;
use star_syntax::{Block, Branch, Definition, Keyword, Mark, Module, Statement, Statements};
use std::alloc::Global;

/// The rules over a reader of nested statements.
#[derive(Clone, Copy)]
pub struct Blocks<G> {
    pub terms: Terms,
    /// How deep blocks may still nest.
    pub depth: usize,
    /// Reads a statement, with expressions and blocks nested no deeper than the numbers.
    pub statement: G,
}

impl<G: Fn(Global, &mut Cursor<'_>, usize, usize) -> Result<Statement, Fault>> Blocks<G> {
    /// A nested statement.
    fn statement(&self, tokens: &mut Cursor<'_>) -> Result<Statement, Fault>
        requires { NestsBlocks self.now.terms.depth self.now.depth (G.pre self.now.statement) (G.post self.now.statement) }
        ensures { Reads ((spec.statement (readers.expr self.now.terms.depth) self.now.depth) tokens.old.rest.now) result tokens.new.rest.now }
    {
        (self.statement)(self.terms.alloc, tokens, self.terms.depth, self.depth)
    }

    /// The statements up to Dedent, of which there is at least one.
    #[tactic(auto, unfolding(crate::specs::StatementReaders::statements_from))]
    fn statements(&self, tokens: &mut Cursor<'_>) -> Result<Items<Statement>, Fault>
        requires { NestsBlocks self.now.terms.depth self.now.depth (G.pre self.now.statement) (G.post self.now.statement) }
        ensures { Reads (spec.statements_from (readers.expr self.now.terms.depth) (spec.statement (readers.expr self.now.terms.depth) self.now.depth) (length tokens.old.rest.now) [] tokens.old.rest.now) result tokens.new.rest.now }
    {
        let mut found = Items::new(self.terms.alloc);
        for _turn in 0..tokens.left() {
            found.push(self.statement(tokens)?)?;
            if tokens.eat_dedent() {
                return Ok(found);
            }
        }
        Err(Fault::Unexpected)
    }

    /// After the colon of a header.
    #[tactic(auto, unfolding(crate::specs::StatementReaders::block))]
    fn block(&self, tokens: &mut Cursor<'_>) -> Result<Block<Statement>, Fault>
        requires { NestsBlocks self.now.terms.depth self.now.depth (G.pre self.now.statement) (G.post self.now.statement) }
        ensures { Reads (spec.block (readers.expr self.now.terms.depth) (spec.statement (readers.expr self.now.terms.depth) self.now.depth) tokens.old.rest.now) result tokens.new.rest.now }
    {
        if tokens.eat_newline() {
            tokens.expect_indent()?;
            return Ok(Block::Indented(self.statements(tokens)?));
        }
        Ok(Block::Inline(self.terms.line(tokens)?))
    }

    /// After `if` or `elif`.
    #[tactic(auto, unfolding(crate::specs::StatementReaders::branch))]
    fn branch(&self, tokens: &mut Cursor<'_>) -> Result<Branch<Statement>, Fault>
        requires { NestsBlocks self.now.terms.depth self.now.depth (G.pre self.now.statement) (G.post self.now.statement) }
        ensures { Reads (spec.branch (readers.expr self.now.terms.depth) (spec.statement (readers.expr self.now.terms.depth) self.now.depth) tokens.old.rest.now) result tokens.new.rest.now }
    {
        let condition = self.terms.expr(tokens, Level::Test)?;
        tokens.expect(Mark::Colon)?;
        let body = self.block(tokens)?;
        Ok(Branch { condition, body })
    }

    /// The branches that begin with `elif`.
    #[tactic(auto, unfolding(crate::specs::StatementReaders::branches_from))]
    fn branches(&self, tokens: &mut Cursor<'_>) -> Result<Items<Branch<Statement>>, Fault>
        requires { NestsBlocks self.now.terms.depth self.now.depth (G.pre self.now.statement) (G.post self.now.statement) }
        ensures { Reads (spec.branches_from (readers.expr self.now.terms.depth) (spec.statement (readers.expr self.now.terms.depth) self.now.depth) (length tokens.old.rest.now) [] tokens.old.rest.now) result tokens.new.rest.now }
    {
        let mut found = Items::new(self.terms.alloc);
        for _turn in 0..tokens.left() {
            if !tokens.eat_word(Keyword::Elif) {
                return Ok(found);
            }
            found.push(self.branch(tokens)?)?;
        }
        Ok(found)
    }

    /// `else` and its block, where it comes next.
    #[tactic(auto, unfolding(crate::specs::StatementReaders::otherwise))]
    fn otherwise(&self, tokens: &mut Cursor<'_>) -> Result<Option<Block<Statement>>, Fault>
        requires { NestsBlocks self.now.terms.depth self.now.depth (G.pre self.now.statement) (G.post self.now.statement) }
        ensures { Reads (spec.otherwise (readers.expr self.now.terms.depth) (spec.statement (readers.expr self.now.terms.depth) self.now.depth) tokens.old.rest.now) result tokens.new.rest.now }
    {
        if !tokens.eat_word(Keyword::Else) {
            return Ok(None);
        }
        tokens.expect(Mark::Colon)?;
        Ok(Some(self.block(tokens)?))
    }

    /// After the `if` of a statement that begins on this line.
    #[tactic(auto, unfolding(crate::specs::StatementReaders::if_after))]
    fn if_after(&self, tokens: &mut Cursor<'_>, line: u32) -> Result<Statement, Fault>
        requires { NestsBlocks self.now.terms.depth self.now.depth (G.pre self.now.statement) (G.post self.now.statement) }
        ensures { Reads (spec.if_after (readers.expr self.now.terms.depth) (spec.statement (readers.expr self.now.terms.depth) self.now.depth) line tokens.old.rest.now) result tokens.new.rest.now }
    {
        let first = self.branch(tokens)?;
        let more = self.branches(tokens)?;
        let other = self.otherwise(tokens)?;
        Ok(Statement::If(line, first, more, other))
    }

    /// After the `for` of a statement that begins on this line.
    #[tactic(auto, unfolding(crate::specs::StatementReaders::for_after))]
    fn for_after(&self, tokens: &mut Cursor<'_>, line: u32) -> Result<Statement, Fault>
        requires { NestsBlocks self.now.terms.depth self.now.depth (G.pre self.now.statement) (G.post self.now.statement) }
        ensures { Reads (spec.for_after (readers.expr self.now.terms.depth) (spec.statement (readers.expr self.now.terms.depth) self.now.depth) line tokens.old.rest.now) result tokens.new.rest.now }
    {
        let targets = self.terms.targets(tokens)?;
        tokens.expect_word(Keyword::In)?;
        let over = self.terms.tests(tokens)?;
        tokens.expect(Mark::Colon)?;
        let body = self.block(tokens)?;
        Ok(Statement::For(line, targets, over, body))
    }

    /// After the `def` of a statement that begins on this line.
    #[tactic(auto, unfolding(crate::specs::StatementReaders::def_after))]
    fn def_after(&self, tokens: &mut Cursor<'_>, line: u32) -> Result<Statement, Fault>
        requires { NestsBlocks self.now.terms.depth self.now.depth (G.pre self.now.statement) (G.post self.now.statement) }
        ensures { Reads (spec.def_after (readers.expr self.now.terms.depth) (spec.statement (readers.expr self.now.terms.depth) self.now.depth) line tokens.old.rest.now) result tokens.new.rest.now }
    {
        let name = tokens.expect_name(self.terms.alloc)?;
        tokens.expect(Mark::OpenRound)?;
        let (required, defaults, comma) = self.terms.parameters(tokens)?;
        tokens.expect(Mark::Colon)?;
        let body = self.block(tokens)?;
        Ok(Statement::Def(
            line,
            Definition {
                name,
                required,
                defaults,
                comma,
                body,
            },
        ))
    }

    /// A statement, with the line of its first token.
    #[tactic(auto, unfolding(crate::specs::StatementReaders::one))]
    fn one(&self, tokens: &mut Cursor<'_>) -> Result<Statement, Fault>
        requires { NestsBlocks self.now.terms.depth self.now.depth (G.pre self.now.statement) (G.post self.now.statement) }
        ensures { Reads (spec.one (readers.expr self.now.terms.depth) (spec.statement (readers.expr self.now.terms.depth) self.now.depth) tokens.old.rest.now) result tokens.new.rest.now }
    {
        let line = tokens.line();
        if tokens.eat_word(Keyword::If) {
            self.if_after(tokens, line)
        } else if tokens.eat_word(Keyword::For) {
            self.for_after(tokens, line)
        } else if tokens.eat_word(Keyword::Def) {
            self.def_after(tokens, line)
        } else {
            Ok(Statement::Line(self.terms.line(tokens)?))
        }
    }

    /// The statements up to End, which is passed.
    #[tactic(auto, unfolding(crate::specs::StatementReaders::cell_from))]
    fn statements_of_cell(&self, tokens: &mut Cursor<'_>) -> Result<Items<Statement>, Fault>
        requires { NestsBlocks self.now.terms.depth self.now.depth (G.pre self.now.statement) (G.post self.now.statement) }
        ensures { Reads (spec.cell_from (readers.expr self.now.terms.depth) (spec.statement (readers.expr self.now.terms.depth) self.now.depth) (length tokens.old.rest.now) [] tokens.old.rest.now) result tokens.new.rest.now }
    {
        let mut found = Items::new(self.terms.alloc);
        for _turn in 0..tokens.left() {
            if tokens.eat_end() {
                return Ok(found);
            }
            found.push(self.statement(tokens)?)?;
        }
        Err(Fault::Unexpected)
    }

    /// All tokens of a cell.
    #[tactic(auto, unfolding(crate::specs::StatementReaders::cell))]
    pub fn cell(&self, tokens: &mut Cursor<'_>) -> Result<Module, Fault>
        requires { NestsBlocks self.now.terms.depth self.now.depth (G.pre self.now.statement) (G.post self.now.statement) }
        ensures { Reads (spec.cell (readers.expr self.now.terms.depth) (spec.statement (readers.expr self.now.terms.depth) self.now.depth) tokens.old.rest.now) result tokens.new.rest.now }
    {
        let statements = self.statements_of_cell(tokens)?;
        tokens.finish()?;
        Ok(Module {
            statements: Statements::new(self.terms.alloc, statements)?,
        })
    }
}

/// A statement, where expressions nest no deeper than `terms` and blocks no deeper than `depth`.
pub fn statement(
    alloc: Global,
    tokens: &mut Cursor<'_>,
    terms: usize,
    depth: usize,
) -> Result<Statement, Fault>
    ensures { Reads (spec.statement (readers.expr terms) depth tokens.old.rest.now) result tokens.new.rest.now }
{
    if depth == 0 {
        return Err(Fault::Unexpected);
    }
    Blocks {
        terms: Terms {
            alloc,
            depth: terms,
        },
        depth: depth - 1,
        statement,
    }
    .one(tokens)
}
