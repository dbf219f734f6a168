//! Whether the entries are a plan of the reached nodes.
ghost use Rattle.std.specs.Prelude.{ℕ, ◌≡◌, ◌≤◌, ◌<◌, ◌+◌, ◌&&◌, not, false, true, [], length, get_or, replicate, IfOk, vec_len, Option};
ghost use Rattle.std.specs.List.{find, range_with_len};
ghost use Rattle.plan_type.specs.Costs.{row_of, is_reached_in};
ghost use Rattle.plan_checker.specs.Lines.{AllFollow};
ghost use Rattle.plan_checker.specs.Refusals.{wrong_child};

use crate::line::Line;
use chex_base::{NoMemory, NodeId};
use plan_type::Costs;
use std::alloc::Global;

/// One more than the greatest number of a line.
pub(crate) const PLACES: usize = 10_000;

/// Nodes by depth, 0 at each depth as yet.
pub(crate) fn nodes(alloc: Global, places: usize) -> Result<Vec<u32>, NoMemory>
    ensures places { IfOk result (λ nodes. length nodes.items ≡ places) }
    ensures none { IfOk result (λ nodes. (at : ℕ) → get_or nodes.items at 0 ≡ 0) }
{
    Ok(vec![in alloc; 0u32; places]?)
}

/// A mark for each node, not set as yet.
fn marks(alloc: Global, places: usize) -> Result<Vec<bool>, NoMemory>
    ensures places { IfOk result (λ marks. length marks.items ≡ places) }
    ensures none { IfOk result (λ marks. (at : ℕ) → get_or marks.items at false ≡ false) }
{
    Ok(vec![in alloc; false; places]?)
}

#[tactic(auto, using(crate::proofs::Tables::wrong_begin, crate::proofs::Tables::wrong_at, crate::proofs::Tables::wrong_next, crate::proofs::Tables::follows_at))]
/// The node of the first entry that is no reached child of the last entry one level up or whose
/// node stood before; where there is none, the least reached node that stands nowhere.
pub fn wrong_child(alloc: Global, costs: &Costs, lines: &[Line]) -> Result<Option<NodeId>, NoMemory>
    requires few { length costs.now.rows ≤ 512 }
    requires follow { AllFollow 0 lines.now }
    ensures { IfOk result (λ node. node ≡ wrong_child costs.now lines.now) }
{
    let mut last = nodes(alloc, PLACES)?;
    let mut stood = marks(alloc, PLACES)?;
    for line in lines {
        let depth = line.level();
        let number = line.number();
        let parent = NodeId(last[depth - 1]);
        if !costs.is_child(parent, NodeId(number)) || stood[number as usize] {
            return Ok(Some(NodeId(number)));
        }
        last[depth] = number;
        stood[number as usize] = true;
    }
    Ok(missing(costs, &stood))
}

#[tactic(auto, using(crate::proofs::Missing::missing_begin, crate::proofs::Missing::missing_found, crate::proofs::Missing::missing_more, crate::proofs::Missing::missing_none))]
/// The least reached node without a mark.
fn missing(costs: &Costs, stood: &[bool]) -> Option<NodeId>
    requires few { length costs.now.rows ≤ 512 }
    requires room { length costs.now.rows < length stood.now }
    ensures { result ≡ find (λ v. is_reached_in (row_of costs.now v) && not (get_or stood.now v false)) (range_with_len 1 (length costs.now.rows)) }
{
    let end = costs.rows.len() as u32 + 1;
    for number in 1..end {
        if costs.is_reached(NodeId(number)) && !stood[number as usize] {
            return Some(NodeId(number));
        }
    }
    None
}
