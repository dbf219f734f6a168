//! Checking a plan text.
ghost use Rattle.std.specs.Prelude.{◌≡◌, ◌≢◌, ◌≤◌, ◌⊎◌, length, IfOk, OnOk, IfErr, IsOk, Err};
ghost use Rattle.plan_type.specs.declared.plan.Plan.{Plan};
ghost use Rattle.plan_type.specs.Budget.{IsBudget};
ghost use Rattle.plan_type.specs.Costs.{IsSound};
ghost use Rattle.plan_type.specs.Plan.{Serves};
ghost use Rattle.plan_type.specs.PlanText.{text_of};
ghost use Rattle.plan_checker.specs.declared.fault.CheckFault.{CheckFault};
ghost use Rattle.plan_checker.specs.declared.fault.CheckFault.TheVariants.{NoMemory};
ghost use Rattle.plan_checker.specs.Verdicts.{IsVerdict, IsDue, Clean};

use crate::build::build;
use crate::fault::CheckFault;
use crate::over::over_budget;
use crate::read::read;
use crate::wrong::wrong_child;
use plan_type::{Budget, Costs, Plan};
use std::alloc::Global;

/// A plan that fits, with what it costs.
#[derive(Drop)]
pub struct Verdict {
    /// The plan.
    pub plan: Plan,
    /// What carrying out the plan costs, in steps, the prices of saving and restoring included.
    pub cost: u64,
    /// The most blocks that its snapshots have in the store at once.
    pub peak: u64,
}

#[tactic(auto, using(crate::proofs::OneReading::all_due))]
/// The plan that a text tells, with its cost and its peak, or the first fault; the rules stand in
/// docs/FORMATS.md. It takes one pass over the bytes and a few over the lines.
pub fn check(
    alloc: Global,
    costs: &Costs,
    budget: &Budget,
    text: &[u8],
) -> Result<Verdict, CheckFault>
    requires sound { IsSound costs.now }
    requires budget { IsBudget budget.now }
    requires size { length text.now ≤ 16777216 }
    ensures ok { IfOk result (IsVerdict costs.now budget.now text.now) }

    // A fault comes only where it is due.
    ensures err { IfErr result (IsDue costs.now budget.now text.now) }

    // A fault that is due is answered, unless memory is wanting.
    ensures due { (fault : CheckFault) → IsDue costs.now budget.now text.now fault → fault ≢ NoMemory
        → (result ≡ Err fault) ⊎ (result ≡ Err NoMemory) }
{
    judged(alloc, costs, budget, text)
}

/// The verdict, and that an accepted text has no fault.
fn judged(alloc: Global, costs: &Costs, budget: &Budget, text: &[u8]) -> Result<Verdict, CheckFault>
    requires sound { IsSound costs.now }
    requires budget { IsBudget budget.now }
    requires size { length text.now ≤ 16777216 }
    ensures ok { IfOk result (IsVerdict costs.now budget.now text.now) }
    ensures clean { OnOk result (Clean costs.now budget.now text.now) }
    ensures err { IfErr result (IsDue costs.now budget.now text.now) }
{
    let lines = read(alloc, text)?;
    if let Some(node) = wrong_child(alloc, costs, &lines)? {
        return Err(CheckFault::WrongChild { node });
    }
    if let Some((node, blocks)) = over_budget(alloc, costs, budget, &lines)? {
        return Err(CheckFault::OverBudget { node, blocks });
    }
    let (plan, _) = build(alloc, &lines, 0)?;
    let cost = plan.cost(costs, budget);
    let peak = plan.peak(costs, budget);
    Ok(Verdict { plan, cost, peak })
}
