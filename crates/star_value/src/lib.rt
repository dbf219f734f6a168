//! Values of the language: what a cell computes with, the keys of dicts, what a value costs, and
//! the calls on texts. Nothing here knows objects: a list, a dict or a function is the number of
//! one. Each call is its list function in `specs/`, beside want of memory.
#![tactic(auto)]

mod builtin;
mod cutting;
mod failure;
mod finding;
mod format;
mod hashing;
mod key;
mod key_order;
mod meter;
mod range;
mod stop;
mod value;
mod white;

pub use builtin::Builtin;
pub use cutting::{Texts, join, replace, split};
pub use failure::Failure;
pub use finding::{ends_with, find, starts_with};
pub use format::{Part, Parts, format_parts};
pub use key::{Key, Keys};
pub use meter::Meter;
pub use range::Range;
pub use stop::Stop;
pub use value::{Value, Values, copy_values, greatest_depth, sum_of_weights};
pub use white::{split_white, strip};
