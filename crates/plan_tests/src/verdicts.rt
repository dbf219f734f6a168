//! What texts of plans are judged as.
ghost use Rattle.plan_type.specs.Budget.{IsBudget};
ghost use Rattle.plan_type.specs.Costs.{IsSound};

use crate::costs::{budget_of, sound_costs};
use crate::fault::Fault;
use crate::planned::priced;
use crate::words::{field, with_lines};
use plan_checker::{CheckFault, check};
use plan_type::{Budget, Costs};
use std::alloc::Global;

/// The costs, the budget and the text of a row: the verdict.
pub fn judged(alloc: Global, row: &str) -> Result<String, Fault> {
    let (costs, rest) = field(row)?;
    let (budget, text) = field(rest)?;
    let budget = budget_of(budget)?;
    let costs = sound_costs(alloc, costs)?;
    let text = with_lines(alloc, text)?;
    told(alloc, &costs, &budget, text.as_str())
}

fn told(alloc: Global, costs: &Costs, budget: &Budget, text: &str) -> Result<String, Fault>
    requires sound { IsSound costs.now }
    requires budget { IsBudget budget.now }
{
    if text.len() > 1000 {
        return Err(Fault::Unread);
    }
    match check(alloc, costs, budget, text.as_bytes()) {
        Ok(verdict) => {
            let (cost, peak) = (verdict.cost, verdict.peak);
            Ok(format!(in alloc; "cost {cost}, peak {peak}")?)
        }
        Err(CheckFault::NoMemory) => Err(Fault::NoMemory),
        Err(fault) => Ok(format!(in alloc; "{fault:?}")?),
    }
}

/// The same, and what the least plan costs.
pub fn beside_least(alloc: Global, row: &str) -> Result<String, Fault> {
    let verdict = judged(alloc, row)?;
    let Some((terms, _)) = row.rsplit_once('\t') else {
        return Err(Fault::Unread);
    };
    let best = priced(alloc, terms)?;
    Ok(format!(in alloc; "{verdict}; least {best}")?)
}
