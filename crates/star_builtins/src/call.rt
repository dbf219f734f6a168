//! Calls.

use chex_base::{ObjectId, Text};
use sqlite_items::Items;
use star_value::{Value, Values};

/// Arguments that are given by name, in the order in which they stand; contracts see them as a list
/// of names with values.
pub type NamedValues = Items<(Text, Value)>;

/// Numbers of objects, as those that are iterated over; contracts see them as a list of numbers.
pub type Objects = Items<ObjectId>;

/// The arguments of a call.
#[derive(Debug, Drop)]
pub struct Call {
    /// Those that are given by place.
    pub positional: Values,
    /// Those that are given by name.
    pub named: NamedValues,
}
