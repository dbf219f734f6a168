//! The levels of expressions.

/// The lines of the grammar from `test` down to `primary`, loosest first; each is named after its operators.
#[derive(Clone, Copy, Debug, PartialEq, Eq)]
pub enum Level {
    Test,
    Or,
    And,
    Not,
    Compare,
    BitOr,
    BitXor,
    BitAnd,
    Sum,
    Product,
    Unary,
    Primary,
}
