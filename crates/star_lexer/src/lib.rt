//! Cuts a source into tokens.
//!
//! [`lex`] answers the tokens of a source, each with its line, or the source's first fault. What a token
//! is, and where Newline, Indent, Dedent and End stand, is written in docs/LANGUAGE.md.
#![tactic(auto)]

mod chars;
mod error;
mod keywords;
mod layout;
mod literal;
mod marks;
mod number;
mod pieces;
mod reserved;
mod source;

pub use error::{LexFault, LexKind};
pub use source::{lex, one_answer};
