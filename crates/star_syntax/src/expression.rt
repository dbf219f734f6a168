//! The trees of expressions.
//!
//! A tree keeps all that its spelling needs, so that the tokens of a cell can be written again
//! from it. The operands of a chain such as `a + b - c` stand in one node, and so do the arms of
//! `a if b else c if d else e`, so trees nest only where brackets do.

use crate::operator::{BinaryOp, CompareOp, UnaryOp};
use chex_base::Text;
use sqlite_items::{Boxed, Items};

/// An expression.
#[derive(Drop)]
pub enum Expr {
    Name(Text),
    Int(i128),
    Text(Text),
    /// The literal `None`.
    None,
    /// The literal `True`.
    True,
    /// The literal `False`.
    False,
    /// `(x)`
    Paren(Boxed<Expr>),
    /// `()`, `(x,)`, `(x, y)`, and whether a comma stands at the end.
    Tuple(Items<Expr>, bool),
    /// `[x, y]`, and whether a comma stands at the end.
    List(Items<Expr>, bool),
    /// `[x for .. in ..]`; the first clause is a `for`.
    ListOver(Boxed<Expr>, Items<Clause<Expr>>),
    /// `{k: v}`, and whether a comma stands at the end.
    Dict(Items<Pair<Expr>>, bool),
    /// `{k: v for .. in ..}`, as key, value and clauses; the first clause is a `for`.
    DictOver(Boxed<Expr>, Boxed<Expr>, Items<Clause<Expr>>),
    /// What is indexed or called, and how; at least one suffix.
    Primary(Boxed<Expr>, Items<Suffix<Expr>>),
    /// At least one sign, and the operand.
    Signed(Items<UnaryOp>, Boxed<Expr>),
    /// The first operand, and each further one after its operator; at least one further.
    Chain(ChainLevel, Boxed<Expr>, Items<Link<Expr>>),
    Compare(Boxed<Expr>, CompareOp, Boxed<Expr>),
    /// How many `not` stand before the operand; at least one.
    Not(usize, Boxed<Expr>),
    /// `value if condition else value if condition else .. last`: the arms, at least one, and what
    /// stands after the last `else`.
    Conditional(Items<Arm<Expr>>, Boxed<Expr>),
}

/// The lines of the grammar that are chains of operators, loosest first.
#[derive(Clone, Copy, Debug, PartialEq, Eq, Drop)]
pub enum ChainLevel {
    /// `or`
    Or,
    /// `and`
    And,
    /// `|`
    BitOr,
    /// `^`
    BitXor,
    /// `&`
    BitAnd,
    /// `+` and `-`
    Sum,
    /// `*`, `//` and `%`
    Product,
}

/// The operators that stand in chains.
#[derive(Clone, Copy, Debug, PartialEq, Eq, Drop)]
pub enum ChainOp {
    /// `or`
    Or,
    /// `and`
    And,
    Binary(BinaryOp),
}

/// A further operand of a chain, and the operator before it.
#[derive(Drop)]
pub struct Link<E> {
    pub op: ChainOp,
    pub operand: E,
}

/// `value if condition else`
#[derive(Drop)]
pub struct Arm<E> {
    pub value: E,
    pub condition: E,
}

/// What follows an operand directly.
#[derive(Drop)]
pub enum Suffix<E> {
    /// `[at]`
    Index(E),
    /// `[start:stop]`, and, where a second colon stands, what stands after it.
    Slice(Option<E>, Option<E>, Option<Option<E>>),
    /// `(..)`
    Call(Arguments<E>),
    /// `.name(..)`
    Method(Text, Arguments<E>),
}

/// The arguments of a call, and whether a comma stands at the end.
#[derive(Drop)]
pub struct Arguments<E> {
    pub positional: Items<E>,
    pub named: Items<Named<E>>,
    pub comma: bool,
}

/// `name = value`, as an argument or as a parameter with its default.
#[derive(Drop)]
pub struct Named<E> {
    pub name: Text,
    pub value: E,
}

/// `key: value`
#[derive(Drop)]
pub struct Pair<E> {
    pub key: E,
    pub value: E,
}

/// A clause of a comprehension.
#[derive(Drop)]
pub enum Clause<E> {
    /// The targets, at least one, and what is iterated over.
    For(Items<E>, E),
    If(E),
}
