//! What the plan is computed from.
ghost use Rattle.std.specs.Prelude.{◌≡◌, ◌≤◌, ◌<◌, ◌+◌, ◌*◌, ◌∷◌, ◌++◌, [], length, map, nat_le, true, Some, sum_by, OnOk, IfOk};
ghost use Rattle.plan_type.specs.Budget.{IsBudget};
ghost use Rattle.plan_type.specs.Costs.{IsSound, parent_of, children_of};
ghost use Rattle.plan_optimum.specs.Sites.{site_at};
ghost use Rattle.plan_optimum.specs.Entries.{IsReady, IsStanding, under, standing_way, entry_at, value_at, may_hold, offer_of, fees_of};

use crate::site::{Site, Way};
use crate::standing::Standing;
use crate::survey::survey;
use chex_base::{NoMemory, NodeId};
use plan_type::{Budget, Costs, Fees, Offer, local, price};
use sqlite_items::Items;
use std::alloc::Global;

/// The least costs of a node's subtree: for each of its ways in order, one for each number of
/// used blocks from 0 to the most.
pub type Row = Items<u64>;

/// The budget, what is known of all nodes, and the table of least costs.
#[derive(Debug, Drop)]
pub struct Planner {
    /// The budget.
    pub budget: Budget,
    /// Number 0 and all nodes.
    pub sites: Items<Site>,
    /// The rows of the nodes that are computed, the greatest number first.
    pub table: Items<Row>,
}

impl Planner {
    /// A planner with no row as yet, and room for one for each node.
    pub fn begin(alloc: Global, costs: &Costs, budget: &Budget) -> Result<Planner, NoMemory>
        requires sound { IsSound costs.now }
        requires budget { IsBudget budget.now }
        ensures budget { IfOk result (λ planner. planner.budget ≡ budget.now) }
        ensures ready { IfOk result (IsReady costs.now (length costs.now.rows + 1)) }
        ensures empty { IfOk result (λ planner. planner.table ≡ []) }
    {
        let sites = survey(alloc, costs, budget)?;
        let table = Items::from_vec(Vec::with_capacity(alloc, sites.len())?);
        Ok(Planner {
            budget: *budget,
            sites,
            table,
        })
    }

    /// How the node is made again.
    fn way(&self, at: &Standing) -> Way
        ensures { result ≡ standing_way self.now at.now }
    {
        match self.sites.get(at.node.0 as usize) {
            Some(site) => match site.ways.get(at.level) {
                Some(way) => *way,
                None => Way { back: 0, again: 0 },
            },
            None => Way { back: 0, again: 0 },
        }
    }

    /// The number of the node's ways.
    pub fn levels(&self, node: NodeId) -> usize
        ensures { result ≡ length (site_at self.now.sites node).ways }
    {
        match self.sites.get(node.0 as usize) {
            Some(site) => site.ways.len(),
            None => 0,
        }
    }

    /// The blocks of the node's snapshot.
    fn blocks(&self, node: NodeId) -> u64
        ensures { result ≡ (site_at self.now.sites node).blocks }
    {
        match self.sites.get(node.0 as usize) {
            Some(site) => site.blocks,
            None => 0,
        }
    }

    /// The node's children.
    fn children(&self, node: NodeId) -> &[NodeId]
        ensures { result.now ≡ (site_at self.now.sites node).children }
    {
        match self.sites.get(node.0 as usize) {
            Some(site) => site.children.as_slice(),
            None => &[],
        }
    }

    /// Whether the node's snapshot may be held beside what is used.
    fn may_hold(&self, costs: &Costs, at: &Standing) -> bool
        requires sound { IsSound costs.now }
        requires ready { IsReady costs.now (at.now.node + 1) self.now }
        requires stands { IsStanding costs.now self.now at.now }
        ensures { result ≡ may_hold costs.now self.now at.now }
    {
        at.node.0 > 0 && fits(at.used, self.blocks(at.node), self.budget.most)
    }

    /// Where a child stands, for whether the node is held for it.
    pub fn under(&self, costs: &Costs, at: &Standing, child: NodeId, hold: bool) -> Standing
        requires sound { IsSound costs.now }
        requires ready { IsReady costs.now (at.now.node + 1) self.now }
        requires stands { IsStanding costs.now self.now at.now }
        requires child { parent_of costs.now child ≡ Some at.now.node }
        requires hold { hold ≡ true → may_hold costs.now self.now at.now ≡ true }
        ensures value { result ≡ under self.now at.now child hold }
        ensures stands { IsStanding costs.now self.now result }
    {
        if hold {
            Standing {
                node: child,
                level: self.levels(at.node),
                used: at.used + self.blocks(at.node),
            }
        } else {
            Standing {
                node: child,
                level: at.level,
                used: at.used,
            }
        }
    }

    /// The entry of the table for this standing.
    fn entry(&self, costs: &Costs, at: &Standing) -> u64
        requires sound { IsSound costs.now }
        requires ready { IsReady costs.now at.now.node self.now }
        requires stands { IsStanding costs.now self.now at.now }
        ensures { result ≡ value_at costs.now self.now at.now }
    {
        match self.table.get(costs.rows.len() - at.node.0 as usize) {
            Some(row) => {
                let place = at.level * (self.budget.most as usize + 1) + at.used as usize;
                match row.get(place) {
                    Some(number) => *number,
                    None => 0,
                }
            }
            None => 0,
        }
    }

    /// The node's fees there.
    pub fn fees(&self, costs: &Costs, at: &Standing) -> Fees
        requires sound { IsSound costs.now }
        requires ready { IsReady costs.now (at.now.node + 1) self.now }
        requires stands { IsStanding costs.now self.now at.now }
        ensures { result ≡ fees_of costs.now self.now at.now }
    {
        let can = self.may_hold(costs, at);
        let way = self.way(at);
        let blocks = self.blocks(at.node);
        Fees {
            back: way.back + way.again,
            load: price(can, self.budget.load, blocks),
            save: price(can, self.budget.save, blocks),
        }
    }

    /// What a child offers there, by the entries of the table.
    fn offer(&self, costs: &Costs, at: &Standing, fees: &Fees, can: bool, child: NodeId) -> Offer
        requires sound { IsSound costs.now }
        requires ready { IsReady costs.now (at.now.node + 1) self.now }
        requires stands { IsStanding costs.now self.now at.now }
        requires child { parent_of costs.now child ≡ Some at.now.node }
        requires fees { fees.now ≡ fees_of costs.now self.now at.now }
        requires can { can ≡ may_hold costs.now self.now at.now }
        ensures { result ≡ offer_of costs.now self.now at.now child }
    {
        let steps = costs.steps(child);
        let free = steps + self.entry(costs, &self.under(costs, at, child, false));
        let held = if can {
            steps + self.entry(costs, &self.under(costs, at, child, true))
        } else {
            free + fees.back
        };
        Offer { child, free, held }
    }

    /// What the children offer there, in rising order, in place of what `offers` has.
    pub fn offer_all(
        &self,
        costs: &Costs,
        at: &Standing,
        fees: &Fees,
        offers: &mut Vec<Offer>,
    ) -> Result<(), NoMemory>
        requires sound { IsSound costs.now }
        requires ready { IsReady costs.now (at.now.node + 1) self.now }
        requires stands { IsStanding costs.now self.now at.now }
        requires fees { fees.now ≡ fees_of costs.now self.now at.now }
        ensures { OnOk result (offers.new.items ≡ map (offer_of costs.now self.now at.now) (children_of costs.now at.now.node)) }
    {
        let can = self.may_hold(costs, at);
        offers.clear();
        for child in self.children(at.node) {
            offers.push(self.offer(costs, at, fees, can, *child))?;
        }
        Ok(())
    }

    /// The least cost of the subtree that stands there, over the rows of the nodes past it.
    pub fn value(
        &self,
        costs: &Costs,
        at: &Standing,
        offers: &mut Vec<Offer>,
    ) -> Result<u64, NoMemory>
        requires sound { IsSound costs.now }
        requires ready { IsReady costs.now (at.now.node + 1) self.now }
        requires stands { IsStanding costs.now self.now at.now }
        ensures { IfOk result (λ n. n ≡ value_at costs.now self.now at.now) }
    {
        let fees = self.fees(costs, at);
        self.offer_all(costs, at, &fees, offers)?;
        Ok(local(offers.as_slice(), &fees))
    }
}

/// Whether these blocks fit beside what is used.
fn fits(used: u64, blocks: u64, most: u32) -> bool
    ensures { result ≡ nat_le (used + blocks) most }
{
    let most = u64::from(most);
    used <= most && blocks <= most - used
}
