//! The plan of least cost.
ghost use Rattle.std.specs.Prelude.{◌≡◌, IfOk};
ghost use Rattle.plan_type.specs.Budget.{IsBudget};
ghost use Rattle.plan_type.specs.Costs.{IsSound};
ghost use Rattle.plan_type.specs.Prices.{IsLeast};

use crate::planner::Planner;
use crate::standing::Standing;
use chex_base::{NoMemory, NodeId};
use plan_type::{Budget, Costs, Plan};
use std::alloc::Global;

/// A plan of all reached nodes that fits the budget, and than which no plan that fits costs less.
/// Which of the least plans it is, docs/FORMATS.md says. It takes a table of 8 bytes for each
/// node, node of its path and number of blocks up to the most, before it computes the first
/// entry, and time that grows with the entries and their nodes' children.
pub fn least(alloc: Global, costs: &Costs, budget: &Budget) -> Result<Plan, NoMemory>
    requires sound { IsSound costs.now }
    requires budget { IsBudget budget.now }
    ensures { IfOk result (IsLeast costs.now budget.now) }
{
    let root = Standing {
        node: NodeId(0),
        level: 0,
        used: 0,
    };
    let mut planner = Planner::begin(alloc, costs, budget)?;
    planner.fill(alloc, costs)?;
    planner.build(alloc, costs, &root)
}
