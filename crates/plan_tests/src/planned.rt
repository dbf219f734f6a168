//! Least plans.

use crate::costs::{budget_of, sound_costs};
use crate::fault::Fault;
use crate::words::{field, on_one_line};
use plan_optimum::least;
use plan_type::write_plan;
use std::alloc::Global;

/// The costs and the budget of a row: the cost and the peak of the least plan, and its text.
#[tactic(auto, using(plan_type::proofs::Writable::writable))]
pub fn written(alloc: Global, row: &str) -> Result<String, Fault> {
    let (costs, budget) = field(row)?;
    let budget = budget_of(budget)?;
    let costs = sound_costs(alloc, costs)?;
    let plan = least(alloc, &costs, &budget)?;
    let cost = plan.cost(&costs, &budget);
    let peak = plan.peak(&costs, &budget);
    let text = write_plan(alloc, &plan)?;
    let text = on_one_line(alloc, text.as_str())?;
    Ok(format!(in alloc; "cost {cost}, peak {peak}; {text}")?)
}

/// The cost and the peak alone.
pub fn priced(alloc: Global, row: &str) -> Result<String, Fault> {
    let (costs, budget) = field(row)?;
    let budget = budget_of(budget)?;
    let costs = sound_costs(alloc, costs)?;
    let plan = least(alloc, &costs, &budget)?;
    let cost = plan.cost(&costs, &budget);
    let peak = plan.peak(&costs, &budget);
    Ok(format!(in alloc; "cost {cost}, peak {peak}")?)
}
