//! Tokens and trees of a cell.
//!
//! A cell's source is cut into tokens, and the tokens spell a module: the tree of its
//! statements. The crates that read and run cells all speak of these types.
#![tactic(auto)]

mod cell;
mod expression;
mod names;
mod operator;
mod spelling;
mod statement;
mod token;
mod tokens;

pub use cell::{Cell, Cells, Program};
pub use expression::{
    Arguments, Arm, ChainLevel, ChainOp, Clause, Expr, Link, Named, Pair, Suffix,
};
pub use names::Names;
pub use operator::{BinaryOp, CompareOp, UnaryOp};
pub use spelling::{Tokens, spell};
pub use statement::{
    Block, Branch, Def, Definition, Line, Module, Small, SmallKind, Statement, Statements,
};
pub use token::{Keyword, Mark, Spanned, Token};
pub use tokens::SpannedTokens;
