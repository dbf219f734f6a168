//! Whether the held blocks stay within the budget.
ghost use Rattle.std.specs.Prelude.{ℕ, ◌≡◌, ◌≤◌, ◌+◌, ◌^◌, [], length, get_or, ◌&&◌, nat_lt, IfOk, if◌then◌else◌};
ghost use Rattle.plan_type.specs.Budget.{IsBudget};
ghost use Rattle.plan_type.specs.Costs.{blocks_of};
ghost use Rattle.plan_checker.specs.Lines.{AllFollow};
ghost use Rattle.plan_checker.specs.Verdicts.{over_budget};

use crate::line::Line;
use crate::wrong::{PLACES, nodes};
use chex_base::{NoMemory, NodeId};
use plan_type::{Budget, Costs};
use std::alloc::Global;

/// Blocks by depth, none at each depth as yet.
fn sums(alloc: Global, places: usize) -> Result<Vec<u64>, NoMemory>
    ensures places { IfOk result (λ sums. length sums.items ≡ places) }
    ensures none { IfOk result (λ sums. (at : ℕ) → get_or sums.items at 0 ≡ 0) }
{
    Ok(vec![in alloc; 0u64; places]?)
}

#[tactic(auto, using(crate::proofs::Tables::over_begin, crate::proofs::Tables::over_at, crate::proofs::Tables::over_next, crate::proofs::Tables::over_all, crate::proofs::Tables::follows_at), unfolding(crate::specs::Verdicts::over_budget))]
/// The first held node with which the held blocks pass the budget, and their sum.
pub fn over_budget(
    alloc: Global,
    costs: &Costs,
    budget: &Budget,
    lines: &[Line],
) -> Result<Option<(NodeId, u64)>, NoMemory>
    requires budget { IsBudget budget.now }
    requires follow { AllFollow 0 lines.now }
    ensures { IfOk result (λ over. over ≡ over_budget costs.now budget.now lines.now) }
{
    let mut last = nodes(alloc, PLACES)?;
    let mut held = sums(alloc, PLACES)?;
    for line in lines {
        let depth = line.level();
        let parent = NodeId(last[depth - 1]);
        let blocks = held[depth - 1] + own(costs, budget.block, parent, line.hold);
        if is_over(line.hold, blocks, budget.most) {
            return Ok(Some((parent, blocks)));
        }
        last[depth] = line.number();
        held[depth] = blocks;
    }
    Ok(None)
}

/// Whether an entry that holds comes to more blocks than the most.
fn is_over(hold: bool, blocks: u64, most: u32) -> bool
    ensures { result ≡ (hold && nat_lt most blocks) }
{
    hold && blocks > u64::from(most)
}

/// The blocks of a node where it is held.
fn own(costs: &Costs, block: u32, node: NodeId, hold: bool) -> u64
    requires { 256 ≤ block }
    ensures value { result ≡ (if hold then blocks_of costs.now block node else 0) }
    ensures most { result ≤ 2 ^ 56 }
{
    if hold { costs.blocks(node, block) } else { 0 }
}
