//! What the summary of a run counts.
ghost use Rattle.std.specs.Prelude.{◌≡◌, ◌≤◌, ◌-◌, ◌^◌, length, min};
ghost use Rattle.shared_run.specs.Numbers.{reached, steps_along, steps_along_all};

use crate::running::Shared;
use crate::ways::Way;
use plan_type::{Costs, Reach};

impl Shared {
    /// How many nodes the versions come to.
    pub fn reached(&self) -> u32
        requires { length self.now.costs.rows ≤ 512 }
        ensures { result ≡ reached self.now.costs }
    {
        let mut count = 0;
        for row in self.costs.rows.as_slice() {
            if row.end != Reach::Unreached {
                count += 1;
            }
        }
        count
    }

    /// The steps of all versions, each by itself: of each version those of the nodes whose texts it
    /// prints, by their rows. They are the greatest `u64` where they are more.
    pub fn alone(&self) -> u64
        ensures { result ≡ min (steps_along_all self.now.costs self.now.ways) (2 ^ 64 - 1) }
    {
        let mut all: u64 = 0;
        for way in self.ways.as_slice() {
            all = all.saturating_add(steps_along(&self.costs, way));
        }
        all
    }
}

/// The steps of these nodes, by their rows, or the greatest `u64` where they are more.
fn steps_along(costs: &Costs, way: &Way) -> u64
    ensures { result ≡ min (steps_along costs.now way.now) (2 ^ 64 - 1) }
{
    let mut all: u64 = 0;
    for node in way.as_slice() {
        all = all.saturating_add(costs.steps(*node));
    }
    all
}
