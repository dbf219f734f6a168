//! Plans: an order of the nodes, and which snapshots are held.
ghost use Rattle.std.specs.Prelude.{◌≡◌, ◌≤◌, ◌<◌, ◌*◌, ◌^◌, ◌&&◌, not, if◌then◌else◌};
ghost use Rattle.plan_type.specs.Budget.{IsBudget};
ghost use Rattle.plan_type.specs.Costs.{IsSound, children_of, steps_of, blocks_of, tree_of};
ghost use Rattle.plan_type.specs.Plan.{entries_of, IsPlan, IsPlanOf, IsPlanFrom, IsWithin, work, work_at, peak, peak_at};
ghost use Rattle.plan_type.specs.Prices.{prices_of, cost, cost_at};

use crate::budget::{Budget, price};
use crate::costs::Costs;
use chex_base::NodeId;
use sqlite_items::Items;

/// The entries of a node in order; contracts see a list.
pub type Entries = Items<Entry<Plan>>;

/// What is computed below a node: its children, each once, in the order in which they are computed.
#[derive(Drop)]
pub struct Plan {
    /// The children in order.
    pub entries: Entries,
}

/// A child of a node, with the child's own plan as its rest.
#[derive(Drop)]
pub struct Entry<P> {
    /// The child.
    pub child: NodeId,
    /// Whether the snapshot of the child's parent is in the store while the child's subtree is
    /// computed.
    pub hold: bool,
    /// What is computed below the child.
    pub rest: P,
}

impl Plan {
    /// The plan that has these entries.
    pub fn of(entries: Entries) -> Plan
        ensures { entries_of result ≡ entries }
    {
        Plan { entries }
    }

    /// The steps that carrying out the plan takes: each node's own as often as it is computed.
    pub fn work(&self, costs: &Costs) -> u64
        requires sound { IsSound costs.now }
        requires class { IsPlan costs.now self.now }
        ensures { result ≡ work costs.now self.now }
    {
        self.work_from(costs, 0)
    }

    /// The work of the plan of some node, where making that node again takes `back` steps.
    fn work_from(&self, costs: &Costs, back: u64) -> u64
        requires sound { IsSound costs.now }
        requires class { IsPlanFrom costs.now self.now back }
        requires small { work_at (steps_of costs.now) self.now back < 2 ^ 63 }
        ensures { result ≡ work_at (steps_of costs.now) self.now back }
    {
        let mut total = 0;
        let mut left = self.entries.len();
        for entry in self.entries.as_slice() {
            left -= 1;
            let steps = costs.steps(entry.child);
            total += steps;
            if entry.hold {
                total += entry.rest.work_from(costs, steps);
            } else {
                total += entry.rest.work_from(costs, back + steps);
                if left > 0 {
                    total += back;
                }
            }
        }
        total
    }

    /// What carrying out the plan costs, in steps: its work, and the prices of storing and
    /// restoring snapshots. A run of neighbouring entries that hold costs one save.
    pub fn cost(&self, costs: &Costs, budget: &Budget) -> u64
        requires sound { IsSound costs.now }
        requires class { IsPlan costs.now self.now }
        requires budget { IsBudget budget.now }
        requires fits { peak costs.now budget.now self.now ≤ budget.now.most }
        ensures cost { result ≡ cost costs.now budget.now self.now }

        // Where nothing has a price, the cost is the work.
        ensures free { budget.now.save ≡ 0 → budget.now.load ≡ 0 → result ≡ work costs.now self.now }
    {
        self.cost_from(costs, budget, NodeId(0), 0, 0)
    }

    /// The cost of the plan of the node `of`, where making that node again costs `back` steps and
    /// `again` for what is restored.
    fn cost_from(&self, costs: &Costs, budget: &Budget, of: NodeId, back: u64, again: u64) -> u64
        requires sound { IsSound costs.now }
        requires class { IsPlanOf (children_of costs.now) of self.now }
        requires budget { IsBudget budget.now }
        requires fits { peak_at (blocks_of costs.now budget.now.block) self.now of 0 ≤ budget.now.most }
        requires low { (back ≤ of * 1000000) × (again ≤ 1024000000) }
        requires small { cost_at (tree_of costs.now budget.now.block) (prices_of budget.now) self.now of back again < 2 ^ 63 }
        ensures { result ≡ cost_at (tree_of costs.now budget.now.block) (prices_of budget.now) self.now of back again }
    {
        let blocks = costs.blocks(of, budget.block);
        let mut total = 0;
        let mut held = false;
        let mut left = self.entries.len();
        for entry in self.entries.as_slice() {
            left -= 1;
            let load = price(entry.hold, budget.load, blocks);
            let save = price(begins(entry.hold, held), budget.save, blocks);
            let steps = costs.steps(entry.child);
            let under = chosen(entry.hold, steps, back + steps);
            let loads = chosen(entry.hold, load, again);
            let rest = entry
                .rest
                .cost_from(costs, budget, entry.child, under, loads);
            let next = chosen(entry.hold, load, back + again);
            total += steps + rest + save + chosen(left == 0, 0, next);
            held = entry.hold;
        }
        total
    }

    /// The most blocks that the snapshots in the store have at once while the plan is carried out.
    pub fn peak(&self, costs: &Costs, budget: &Budget) -> u64
        requires sound { IsSound costs.now }
        requires class { IsPlan costs.now self.now }
        requires budget { IsBudget budget.now }
        ensures { result ≡ peak costs.now budget.now self.now }
    {
        self.peak_from(costs, budget.block, NodeId(0), 0)
    }

    /// The most blocks held under the node `of`, where `used` blocks are held above it.
    fn peak_from(&self, costs: &Costs, block: u32, of: NodeId, used: u64) -> u64
        requires sound { IsSound costs.now }
        requires class { IsPlanOf (children_of costs.now) of self.now }
        requires block { 256 ≤ block }
        requires used { IsWithin costs.now of used }
        ensures { result ≡ peak_at (blocks_of costs.now block) self.now of used }
    {
        let held = used + costs.blocks(of, block);
        let mut greatest = used;
        for entry in self.entries.as_slice() {
            let before = chosen(entry.hold, held, used);
            greatest = greatest.max(entry.rest.peak_from(costs, block, entry.child, before));
        }
        greatest
    }
}

/// One number where something is so, and another where it is not.
fn chosen(so: bool, yes: u64, no: u64) -> u64
    ensures { result ≡ (if so then yes else no) }
{
    if so { yes } else { no }
}

/// Whether a run of entries that hold begins here.
fn begins(hold: bool, held: bool) -> bool
    ensures { result ≡ (hold && not held) }
{
    hold && !held
}
