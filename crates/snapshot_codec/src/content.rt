//! What an object holds, before its references are looked at.
use chex_base::NodeId;
use heap_store::Pairs;
use star_value::Values;

/// What an object holds, before its references are looked at: the items of a list, the pairs of a
/// dict, or a function's cell, its number in the cell, and the values of its defaults.
#[derive(Drop)]
pub enum Content {
    List(Values),
    Dict(Pairs),
    Function(NodeId, u32, Values),
}
