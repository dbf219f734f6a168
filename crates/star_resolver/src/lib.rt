//! Looks at a cell's tree by the rules of placement, and makes the cell.
//!
//! [`resolve`] answers the cell of a source and its tree, or the first breach of a rule in text
//! order. The rules stand in docs/LANGUAGE.md.
#![tactic(auto)]

mod error;
mod expression;
mod parameters;
mod place;
mod placement;
mod statement;
mod texts;

pub use error::{ResolveFault, ResolveKind};
pub use placement::resolve;
