//! The trees of statements.
//!
//! Targets of assignments and loops are expressions too: which expressions may stand there is
//! a rule of the grammar, and no type of its own.

ghost use Rattle.std.specs.Prelude.{◌≡◌, IfOk};

use crate::expression::{Expr, Named};
use crate::operator::BinaryOp;
use chex_base::{NoMemory, Text};
use sqlite_items::Items;
use std::alloc::Global;
use std::marker::Model;
use std::rc::Rc;

/// A cell's statements, in order.
#[derive(Drop)]
pub struct Module {
    pub statements: Statements,
}

/// Statements that are shared and not copied. Contracts see the list.
#[derive(Drop)]
pub struct Statements {
    items: Rc<Items<Statement>>,
}

impl Model for Statements {
    ghost use Rattle.std.specs.Prelude.{List};
    ghost use Rattle.std.specs.Coded.{coded_list};
    ghost use Rattle.star_syntax.specs.declared.statement.Statement.{Statement};
    ghost use Rattle.star_syntax.specs.contracts.statement.Statement as one;

    ghost Value = { List Statement };

    ghost coded = { coded_list one.the_row.coded };

    ghost view = { λ statements. statements.items.value };
}

impl Statements {
    /// These statements, in their order.
    pub fn new(alloc: Global, items: Items<Statement>) -> Result<Statements, NoMemory>
        ensures { IfOk result (λ statements. statements ≡ items) }
    {
        Ok(Statements {
            items: Rc::new(alloc, items)?,
        })
    }

    /// The statements, in their order. Takes no memory.
    pub fn as_slice(&self) -> &[Statement]
        ensures { result.now ≡ self.now }
    {
        self.items.as_slice()
    }

    /// The same statements, held once more: the trees are not copied. Fails where they are held
    /// too often.
    pub fn share(&self) -> Result<Statements, NoMemory>
        ensures { IfOk result (λ shared. shared ≡ self.now) }
    {
        Ok(Statements {
            items: self.items.clone()?,
        })
    }
}

/// A statement. The number in front is the line of its first token.
#[derive(Drop)]
pub enum Statement {
    Line(Line),
    /// The first branch, those after `elif`, and what stands after `else`.
    If(u32, Branch<Statement>, Items<Branch<Statement>>, Option<Block<Statement>>),
    /// The targets, at least one, what is iterated over, at least one, and the body.
    For(u32, Items<Expr>, Items<Expr>, Block<Statement>),
    Def(u32, Definition<Statement>),
}

/// The tree of one `def`.
pub type Def = Definition<Statement>;

/// A condition and the block that it guards.
#[derive(Drop)]
pub struct Branch<S> {
    pub condition: Expr,
    pub body: Block<S>,
}

/// A function: its name, its parameters without and with a default, whether a comma stands
/// after the last of them, and its body.
#[derive(Drop)]
pub struct Definition<S> {
    pub name: Text,
    pub required: Items<Text>,
    pub defaults: Items<Named<Expr>>,
    pub comma: bool,
    pub body: Block<S>,
}

/// What a header such as `if x:` governs.
#[derive(Drop)]
pub enum Block<S> {
    /// On the line of its header.
    Inline(Line),
    /// On lines of its own, further in; at least one statement.
    Indented(Items<S>),
}

/// Small statements that share a line; at least one.
#[derive(Drop)]
pub struct Line {
    pub smalls: Items<Small>,
    /// Whether a semicolon stands at the end.
    pub semicolon: bool,
}

/// A statement that holds no other, with the line of its first token.
#[derive(Drop)]
pub struct Small {
    pub line: u32,
    pub kind: SmallKind,
}

/// Tests and targets are lists: more than one stand with commas between, and are a tuple.
#[derive(Drop)]
pub enum SmallKind {
    /// What is returned; no test where nothing is.
    Return(Items<Expr>),
    Break,
    Continue,
    Pass,
    /// The targets, at least one, and the tests, at least one.
    Assign(Items<Expr>, Items<Expr>),
    /// The target, the operator before `=`, and the tests, at least one.
    Augmented(Expr, BinaryOp, Items<Expr>),
    /// An expression that stands alone; at least one test.
    Tests(Items<Expr>),
}
