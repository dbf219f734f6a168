//! Least plans against all plans of small trees, whose costs are added up here by the rules anew.
ghost use Rattle.plan_type.specs.Costs.{IsSound};

use crate::costs::sound_costs;
use crate::fault::Fault;
use crate::words::{field, number};
use plan_optimum::least;
use plan_type::{Budget, Costs, Row};
use std::alloc::Global;

/// One plan of a small tree: who comes later among siblings, and which entries hold.
#[derive(Clone, Copy)]
struct Choice {
    /// How many ranks there are.
    base: u32,
    /// The rank of node v is digit v - 1 in this base, which gives each order of as many siblings;
    /// among equal ranks the greater number is later.
    ranks: u32,
    /// Bit v - 1 says whether the entry of node v holds.
    held: u32,
}

impl Choice {
    fn rank(self, node: u32) -> u32 {
        let mut left = self.ranks;
        for _ in 1..node {
            left /= self.base.max(1);
        }
        left % self.base.max(1)
    }

    fn holds(self, node: u32) -> bool {
        let mut left = self.held;
        for _ in 1..node {
            left /= 2;
        }
        left % 2 == 1
    }

    fn is_before(self, first: u32, second: u32) -> bool {
        let (one, other) = (self.rank(first), self.rank(second));
        one < other || (one == other && first < second)
    }

    /// Whether no sibling of the node comes after it.
    fn is_last(self, rows: &[Row], node: u32, parent: u32) -> bool {
        let mut other = 0u32;
        let mut last = true;
        for row in rows {
            other = other.saturating_add(1);
            if row.parent.0 == parent && self.is_before(node, other) {
                last = false;
            }
        }
        last
    }

    /// The sibling that comes just before the node, 0 where none does.
    fn one_before(self, rows: &[Row], node: u32, parent: u32) -> u32 {
        let mut other = 0u32;
        let mut found = 0u32;
        for row in rows {
            other = other.saturating_add(1);
            let before = row.parent.0 == parent && self.is_before(other, node);
            if before && (found == 0 || self.is_before(found, other)) {
                found = other;
            }
        }
        found
    }

    /// Whether the parent is stored before the node is computed.
    fn is_saved(self, rows: &[Row], node: u32, parent: u32) -> bool {
        let before = self.one_before(rows, node, parent);
        self.holds(node) && (before == 0 || !self.holds(before))
    }
}

fn at(numbers: &[u64], place: u32) -> u64 {
    match numbers.get(place as usize) {
        Some(number) => *number,
        None => 0,
    }
}

/// The blocks of a node's snapshot, of 4,096 bytes each.
fn blocks(rows: &[Row], node: u32) -> u64 {
    match rows.get((node as usize).saturating_sub(1)) {
        Some(row) => row.bytes.saturating_add(4095) / 4096,
        None => 0,
    }
}

fn price(rate: u32, blocks: u64) -> u64 {
    u64::from(rate).saturating_mul(blocks)
}

/// What the plan costs, or None where it holds number 0 or does not fit. For each node, `back` and
/// `again` are what making it again costs in steps and in loads, and `used` the blocks that are
/// held while its subtree is computed.
fn cost_of(
    alloc: Global,
    rows: &[Row],
    budget: &Budget,
    choice: Choice,
) -> Result<Option<u64>, Fault> {
    let mut back = vec![in alloc; 0u64; 1]?;
    let mut again = vec![in alloc; 0u64; 1]?;
    let mut used = vec![in alloc; 0u64; 1]?;
    let mut total = 0u64;
    let mut node = 0u32;
    for row in rows {
        node = node.saturating_add(1);
        let parent = row.parent.0;
        let holds = choice.holds(node);
        if holds && parent == 0 {
            return Ok(None);
        }
        let own = blocks(rows, parent);
        let filled = at(&used, parent).saturating_add(if holds { own } else { 0 });
        if filled > u64::from(budget.most) {
            return Ok(None);
        }
        let load = price(budget.load, own);
        let return_free = at(&back, parent).saturating_add(at(&again, parent));
        total = total.saturating_add(row.steps);
        if choice.is_saved(rows, node, parent) {
            total = total.saturating_add(price(budget.save, own));
        }
        if !choice.is_last(rows, node, parent) {
            total = total.saturating_add(if holds { load } else { return_free });
        }
        let start = if holds { 0 } else { at(&back, parent) };
        back.push(start.saturating_add(row.steps))?;
        again.push(if holds { load } else { at(&again, parent) })?;
        used.push(filled)?;
    }
    Ok(Some(total))
}

/// The least cost of all plans of the tree that fit, no node of which has more children than `base`.
fn cheapest(alloc: Global, rows: &[Row], budget: &Budget, base: u32) -> Result<u64, Fault> {
    let mut all_ranks = 1u32;
    let mut all_held = 1u32;
    for _ in rows {
        all_ranks = all_ranks.saturating_mul(base);
        all_held = all_held.saturating_mul(2);
    }
    let mut best = u64::MAX;
    for ranks in 0..all_ranks {
        for held in 0..all_held {
            let choice = Choice { base, ranks, held };
            if let Some(cost) = cost_of(alloc, rows, budget, choice)? {
                best = best.min(cost);
            }
        }
    }
    Ok(best)
}

/// Prices of saving and of loading a block.
const PRICES: [(u32, u32); 5] = [(0, 0), (1, 0), (0, 2), (2, 1), (9, 3)];

/// The costs of a row, no node of which has more children than the number behind them says: with
/// how many of 20 budgets the least plan costs what the cheapest of all plans does.
pub fn against_all(alloc: Global, row: &str) -> Result<String, Fault> {
    let (costs, base) = field(row)?;
    let base = number(base)?;
    let costs = sound_costs(alloc, costs)?;
    let agree = agreeing(alloc, &costs, base)?;
    Ok(format!(in alloc; "{agree} budgets agree")?)
}

fn agreeing(alloc: Global, costs: &Costs, base: u32) -> Result<u32, Fault>
    requires { IsSound costs.now }
{
    let mut agree: u32 = 0;
    for most in 0..4u32 {
        for (save, load) in PRICES {
            if agrees(alloc, costs, base, most, (save, load))? {
                agree = agree.saturating_add(1);
            }
        }
    }
    Ok(agree)
}

fn agrees(
    alloc: Global,
    costs: &Costs,
    base: u32,
    most: u32,
    prices: (u32, u32),
) -> Result<bool, Fault>
    requires { IsSound costs.now }
{
    let (save, load) = prices;
    if most > 1024 || save > 1_000_000 || load > 1_000_000 {
        return Err(Fault::Unread);
    }
    let budget = Budget {
        block: 4096,
        most,
        save,
        load,
    };
    let plan = least(alloc, costs, &budget)?;
    let best = cheapest(alloc, costs.rows.as_slice(), &budget, base)?;
    Ok(plan.cost(costs, &budget) == best)
}
