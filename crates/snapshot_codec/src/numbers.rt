//! The numbers that objects have in a snapshot.
ghost use Rattle.std.specs.Prelude.{◌≡◌, ◌<◌, ◌^◌, length};
ghost use Rattle.snapshot_codec.specs.Writing.{number_in};

use chex_base::ObjectId;
use indexmap::IndexSet;

/// The objects that a snapshot holds, in the order in which they are met. Their places are their
/// numbers there.
#[derive(Drop)]
pub struct Numbers {
    pub order: IndexSet<u32>,
    ghost few: { length order.keys < 2 ^ 32 },
}

impl Numbers {
    pub fn new(order: IndexSet<u32>) -> Numbers
        requires { length order.keys < 2 ^ 32 }
        ensures { result.order.keys ≡ order.keys }
    {
        Numbers { order }
    }

    /// The objects, in order.
    pub fn ids(&self) -> &[u32]
        ensures { result.now ≡ self.now.order.keys }
    {
        self.order.as_slice()
    }

    /// The number of an object that is met; of any other the count of those that are.
    pub fn number(&self, id: ObjectId) -> u32
        ensures { result ≡ number_in self.now.order.keys id }
    {
        match self.order.get_index_of(&id.0) {
            Some(place) => place as u32,
            None => self.order.len() as u32,
        }
    }
}
