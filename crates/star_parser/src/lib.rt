//! Reads tokens into trees.
//!
//! The rules of the grammar, one function each, give what the reader of their name in `specs/` gives;
//! a cursor goes over the tokens once, and a rule that refuses leaves it at the refused token.
#![tactic(auto)]

mod compound;
mod cursor;
mod fault;
mod grammar;
mod header;
mod layout;
mod level;
mod parser;
mod small;
mod target;
mod terms;

pub use fault::ParseFault;
pub use parser::{one_tree, parse};
