//! The plan, read off the table.
ghost use Rattle.std.specs.Prelude.{◌≡◌, ◌≤◌, IfOk};
ghost use Rattle.plan_type.specs.Costs.{IsSound};
ghost use Rattle.plan_optimum.specs.Built.{IsBuilt};
ghost use Rattle.plan_optimum.specs.Entries.{IsReady, IsStanding};

use crate::chooser::choose;
use crate::planner::Planner;
use crate::standing::Standing;
use chex_base::NoMemory;
use plan_type::{Costs, Entry, Plan};
use sqlite_items::Items;
use std::alloc::Global;

impl Planner {
    /// A plan of least cost for the subtree that stands at `at`.
    pub fn build(&self, alloc: Global, costs: &Costs, at: &Standing) -> Result<Plan, NoMemory>
        requires sound { IsSound costs.now }
        requires ready { IsReady costs.now 0 self.now }
        requires stands { IsStanding costs.now self.now at.now }
        ensures { IfOk result (IsBuilt costs.now self.now at.now) }
    {
        let fees = self.fees(costs, at);
        let mut offers = Vec::new(alloc);
        self.offer_all(costs, at, &fees, &mut offers)?;
        let picks = choose(alloc, offers, &fees, self.budget.save > 0)?;
        let mut entries = Items::new(alloc);
        for pick in picks.as_slice() {
            let under = self.under(costs, at, pick.child, pick.hold);
            let rest = self.build(alloc, costs, &under)?;
            entries.push(Entry {
                child: pick.child,
                hold: pick.hold,
                rest,
            })?;
        }
        Ok(Plan::of(entries))
    }
}
