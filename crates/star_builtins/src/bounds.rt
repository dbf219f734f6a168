//! The bounds of a slice.

use star_value::Value;

/// The bounds of `x[start:stop:step]`, as far as they are given. A bound that is None counts as
/// absent, and an absent step is 1.
#[derive(Debug, Drop)]
pub struct Bounds {
    pub start: Option<Value>,
    pub stop: Option<Value>,
    pub step: Option<Value>,
}
