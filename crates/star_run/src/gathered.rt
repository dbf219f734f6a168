//! What a comprehension gathers.

ghost use Rattle.std.specs.Prelude.{◌≡◌, []};

use heap_store::Pairs;
use sqlite_items::Items;
use star_syntax::Expr;
use star_value::Values;
use std::alloc::Global;

/// What the turns of a comprehension have gathered so far: the items of a list, or the pairs of a
/// dict. The other of the two stays empty.
#[derive(Drop)]
pub struct Gathered {
    pub items: Values,
    pub pairs: Pairs,
}

impl Gathered {
    /// Nothing. It takes no memory.
    pub fn new(alloc: Global) -> Gathered
        ensures items { result.items ≡ [] }
        ensures pairs { result.pairs ≡ [] }
    {
        Gathered {
            items: Items::new(alloc),
            pairs: Pairs::new(alloc),
        }
    }
}

/// What a turn of a comprehension gathers: an item, or a key with its value.
#[derive(Clone, Copy)]
pub enum Element<'t> {
    Item(&'t Expr),
    Pair(&'t Expr, &'t Expr),
}
