//! What plans cost, hold and do.
ghost use Rattle.plan_type.specs.Costs.{IsSound};
ghost use Rattle.plan_type.specs.Plan.{IsPlan};

use crate::class::is_plan;
use crate::costs::sound_costs;
use crate::fault::Fault;
use crate::made::plan_of;
use crate::words::{field, on_one_line};
use plan_type::{Budget, Costs, Operation, Plan, write_plan};
use std::alloc::Global;

/// The costs and the plan of a row: with a budget of three blocks of 4,096 bytes its work, its cost
/// where nothing has a price, its cost at 4 steps for saving a block and 3 for loading one, and its
/// peak; then its text, and its operations.
pub fn measured(alloc: Global, row: &str) -> Result<String, Fault> {
    let (costs, plan) = field(row)?;
    let costs = sound_costs(alloc, costs)?;
    let plan = plan_of(alloc, plan)?;
    if !is_plan(alloc, &costs, &plan)? {
        return Err(Fault::Unread);
    }
    told(alloc, &costs, &plan)
}

#[tactic(auto, using(plan_type::proofs::Writable::writable))]
fn told(alloc: Global, costs: &Costs, plan: &Plan) -> Result<String, Fault>
    requires sound { IsSound costs.now }
    requires class { IsPlan costs.now plan.now }
{
    let numbers = in_numbers(alloc, costs, plan)?;
    let text = write_plan(alloc, plan)?;
    let text = on_one_line(alloc, text.as_str())?;
    let operations = in_operations(alloc, costs, plan)?;
    Ok(format!(in alloc; "{numbers}; {text}; {operations}")?)
}

fn in_numbers(alloc: Global, costs: &Costs, plan: &Plan) -> Result<String, Fault>
    requires sound { IsSound costs.now }
    requires class { IsPlan costs.now plan.now }
{
    let budget = Budget {
        block: 4096,
        most: 3,
        save: 0,
        load: 0,
    };
    let priced = Budget {
        save: 4,
        load: 3,
        ..budget
    };
    let peak = plan.peak(costs, &budget);
    if peak > 3 {
        return Err(Fault::Unread);
    }
    let work = plan.work(costs);
    let free = plan.cost(costs, &budget);
    let priced = plan.cost(costs, &priced);
    Ok(format!(in alloc; "work {work}, cost {free} or {priced}, peak {peak}")?)
}

fn in_operations(alloc: Global, costs: &Costs, plan: &Plan) -> Result<String, Fault>
    requires sound { IsSound costs.now }
    requires class { IsPlan costs.now plan.now }
{
    let budget = Budget {
        block: 4096,
        most: 3,
        save: 0,
        load: 0,
    };
    if plan.peak(costs, &budget) > 3 {
        return Err(Fault::Unread);
    }
    let operations = plan.operations(alloc, costs, &budget)?;
    listed(alloc, operations.as_slice())
}

/// The operations, each with its node and its steps or blocks.
fn listed(alloc: Global, operations: &[Operation]) -> Result<String, Fault> {
    let mut all = String::new(alloc);
    for operation in operations {
        let one = written(alloc, *operation)?;
        all.push_str(one.as_str())?;
    }
    Ok(all)
}

fn written(alloc: Global, operation: Operation) -> Result<String, Fault> {
    let text = match operation {
        Operation::Reset => String::from_str(alloc, "reset, "),
        Operation::Compute { node, steps } => format!(in alloc; "compute {} {steps}, ", node.0),
        Operation::Checkpoint { node, blocks } => {
            format!(in alloc; "checkpoint {} {blocks}, ", node.0)
        }
        Operation::Restore { node } => format!(in alloc; "restore {}, ", node.0),
        Operation::Evict { node } => format!(in alloc; "evict {}, ", node.0),
    };
    Ok(text?)
}
