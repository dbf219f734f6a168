//! How a statement ends.

use star_value::Value;

/// How a statement ends where it does not fail.
#[derive(Debug, Drop)]
pub enum Flow {
    /// What follows it is next.
    On,
    Break,
    Continue,
    Return(Value),
}
