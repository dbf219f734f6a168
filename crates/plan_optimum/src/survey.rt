//! One look at each node: its children, its blocks and its ways.
ghost use Rattle.std.specs.Prelude.{◌≡◌, ◌≤◌, ◌<◌, ◌+◌, [], ◌∷◌, length, Some, IfOk};
ghost use Rattle.std.specs.List.{AllByRecursion};
ghost use Rattle.plan_type.specs.Budget.{IsBudget};
ghost use Rattle.plan_type.specs.Costs.{IsSound, parent_of, children_of, blocks_of};
ghost use Rattle.plan_optimum.specs.Sites.{no_way, ways_under, site_at, IsSmallWay, AreSites};

use crate::site::{Site, Way, Ways};
use chex_base::{NoMemory, NodeId};
use plan_type::{Budget, Costs, price};
use sqlite_items::Items;
use std::alloc::Global;

/// The sites of number 0 and of all nodes. A node is looked at after its parent, whose ways it
/// takes on, so no ancestor is looked up.
pub fn survey(alloc: Global, costs: &Costs, budget: &Budget) -> Result<Items<Site>, NoMemory>
    requires sound { IsSound costs.now }
    requires budget { IsBudget budget.now }
    ensures { IfOk result (AreSites costs.now budget.now (length costs.now.rows + 1)) }
{
    let mut sites = Items::new(alloc);
    let root = ways_of_root(alloc)?;
    sites.push(site(alloc, costs, budget, NodeId(0), root)?)?;
    let end = costs.rows.len() as u32 + 1;
    for number in 1..end {
        let node = NodeId(number);
        let parent = parent(costs, node);
        let ways = ways_under(alloc, costs, budget, parent, node, ways(&sites, parent))?;
        sites.push(site(alloc, costs, budget, node, ways)?)?;
    }
    Ok(sites)
}

/// Number 0 is there from the start.
fn ways_of_root(alloc: Global) -> Result<Ways, NoMemory>
    ensures { IfOk result (λ ways. ways ≡ no_way ∷ []) }
{
    let mut ways = Items::new(alloc);
    ways.push(Way { back: 0, again: 0 })?;
    Ok(ways)
}

/// The site of a node with these ways.
fn site(
    alloc: Global,
    costs: &Costs,
    budget: &Budget,
    node: NodeId,
    ways: Ways,
) -> Result<Site, NoMemory>
    requires sound { IsSound costs.now }
    requires budget { IsBudget budget.now }
    ensures { IfOk result (λ site. site ≡ record { children = children_of costs.now node; ways = ways; blocks = blocks_of costs.now budget.now.block node }) }
{
    let children = Items::from_vec(costs.children(alloc, node)?);
    let blocks = costs.blocks(node, budget.block);
    Ok(Site {
        children,
        ways,
        blocks,
    })
}

/// The number above a node.
fn parent(costs: &Costs, node: NodeId) -> NodeId
    requires { (1 ≤ node) × (node ≤ length costs.now.rows) }
    ensures { parent_of costs.now node ≡ Some result }
{
    match costs.row(node) {
        Some(row) => row.parent,
        None => NodeId(0),
    }
}

/// The ways of a site that is known.
fn ways(sites: &Items<Site>, node: NodeId) -> &[Way]
    ensures { result.now ≡ (site_at sites.now node).ways }
{
    match sites.get(node.0 as usize) {
        Some(site) => site.ways.as_slice(),
        None => &[],
    }
}

/// The ways to a child from those to its parent.
fn ways_under(
    alloc: Global,
    costs: &Costs,
    budget: &Budget,
    parent: NodeId,
    child: NodeId,
    above: &[Way],
) -> Result<Ways, NoMemory>
    requires sound { IsSound costs.now }
    requires budget { IsBudget budget.now }
    requires small { AllByRecursion (IsSmallWay parent) above.now }
    ensures { IfOk result (λ ways. ways ≡ ways_under costs.now budget.now parent child above.now) }
{
    let steps = costs.steps(child);
    let blocks = costs.blocks(parent, budget.block);
    let mut ways = Items::new(alloc);
    for way in above {
        ways.push(Way {
            back: way.back + steps,
            again: way.again,
        })?;
    }
    ways.push(Way {
        back: steps,
        again: price(blocks <= u64::from(budget.most), budget.load, blocks),
    })?;
    Ok(ways)
}
