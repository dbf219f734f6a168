//! The operators of expressions.

/// The operators with two operands whose results are no truth values.
#[derive(Clone, Copy, Debug, PartialEq, Eq, Drop)]
pub enum BinaryOp {
    /// `+`
    Add,
    /// `-`
    Sub,
    /// `*`
    Mul,
    /// `//`
    Floor,
    /// `%`
    Mod,
    /// `&`
    And,
    /// `|`
    Or,
    /// `^`
    Xor,
}

/// The signs before an operand.
#[derive(Clone, Copy, Debug, PartialEq, Eq, Drop)]
pub enum UnaryOp {
    /// `+`
    Plus,
    /// `-`
    Minus,
    /// `~`
    Invert,
}

/// The comparisons.
#[derive(Clone, Copy, Debug, PartialEq, Eq, Drop)]
pub enum CompareOp {
    /// `==`
    Equal,
    /// `!=`
    NotEqual,
    /// `<`
    Less,
    /// `>`
    Greater,
    /// `<=`
    AtMost,
    /// `>=`
    AtLeast,
    /// `in`
    Within,
    /// `not in`
    NotWithin,
}
