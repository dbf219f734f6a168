//! What carries a plan out, one operation after another.
ghost use Rattle.std.specs.Prelude.{◌≡◌, ◌≤◌, ◌<◌, ◌^◌, ◌++◌, [], ◌∷◌, true, drop, length, if◌then◌else◌, IfOk, OnOk};
ghost use Rattle.plan_type.specs.Budget.{IsBudget};
ghost use Rattle.plan_type.specs.Costs.{IsSound, tree_of, steps_of, blocks_of};
ghost use Rattle.plan_type.specs.Operations.{before, remake, way_back, ops_at, operations_of, CarriesOut};
ghost use Rattle.plan_type.specs.Plan.{IsPlan, peak, peak_at};

use crate::budget::Budget;
use crate::costs::Costs;
use crate::plan::Plan;
use chex_base::{NoMemory, NodeId};
use sqlite_items::Items;
use std::alloc::Global;

/// The operations in the order in which they are done; contracts see a list.
pub type Operations = Items<Operation>;

/// One operation of a replay.
#[derive(Clone, Copy, Debug, PartialEq, Eq)]
pub enum Operation {
    /// Go to the empty state, which is node 0.
    Reset,
    /// Run a node's cell on the state of its parent; it takes this many steps.
    Compute { node: NodeId, steps: u64 },
    /// Store the snapshot of the live node; it takes this many blocks.
    Checkpoint { node: NodeId, blocks: u32 },
    /// Go to the state of a stored node.
    Restore { node: NodeId },
    /// Give up the snapshot of a stored node.
    Evict { node: NodeId },
}

impl Plan {
    /// The operations that carry the plan out, from the empty state. Each child is computed after
    /// its parent was stored or given up, as the entry asks; where another entry follows, the
    /// parent is made live again: restored if it is stored, and else computed from the nearest
    /// stored node above it, or from the empty state. The list is as long as the operations are
    /// many.
    pub fn operations(
        &self,
        alloc: Global,
        costs: &Costs,
        budget: &Budget,
    ) -> Result<Operations, NoMemory>
        requires sound { IsSound costs.now }
        requires class { IsPlan costs.now self.now }
        requires budget { IsBudget budget.now }
        requires fits { peak costs.now budget.now self.now ≤ budget.now.most }
        ensures list { IfOk result (λ os. os ≡ operations_of costs.now budget.now self.now) }
        ensures carries_out { IfOk result (λ os. CarriesOut costs.now budget.now self.now os) }
    {
        let mut operations = Items::new(alloc);
        operations.push(Operation::Reset)?;
        let mut listing = Listing {
            operations,
            path: Items::new(alloc),
        };
        listing.plan(costs, budget.block, self, NodeId(0), NodeId(0), 0)?;
        Ok(listing.operations)
    }
}

/// A list that is being written.
#[derive(Drop)]
struct Listing {
    /// The operations so far.
    operations: Operations,
    /// The nodes on the way from 0 to the live node, without 0.
    path: Items<NodeId>,
}

impl Listing {
    /// Adds the operations of the plan of the node `of`, which is live and not stored. The nearest
    /// stored node above it is `anchor`, 0 for none, and the path from there begins at `from`.
    fn plan(
        &mut self,
        costs: &Costs,
        block: u32,
        plan: &Plan,
        of: NodeId,
        anchor: NodeId,
        from: usize,
    ) -> Result<(), NoMemory>
        requires block { 1 ≤ block }
        requires from { from ≤ length self.old.path }
        requires fits { peak_at (blocks_of costs.now block) plan.now of 0 < 2 ^ 32 }
        ensures { OnOk result (self.new ≡ record self.old { operations = self.old.operations ++ ops_at (tree_of costs.now block) plan.now of anchor (drop from self.old.path) }) }
    {
        let blocks = costs.blocks(of, block);
        let mut stored = false;
        let mut left = plan.entries.len();
        for entry in plan.entries.as_slice() {
            left -= 1;
            self.change(of, blocks, stored, entry.hold)?;
            stored = entry.hold;
            self.go_down(costs, entry.child)?;
            let begin = chosen(entry.hold, self.path.len() - 1, from);
            let nearest = nearest(entry.hold, of, anchor);
            self.plan(costs, block, &entry.rest, entry.child, nearest, begin)?;
            self.path.pop();
            self.go_back(costs, of, anchor, from, entry.hold, left == 0)?;
        }
        self.change(of, blocks, stored, false)
    }

    /// Stores the live node, or gives it up, as the next entry asks.
    fn change(
        &mut self,
        node: NodeId,
        blocks: u64,
        stored: bool,
        hold: bool,
    ) -> Result<(), NoMemory>
        requires { hold ≡ true → blocks < 2 ^ 32 }
        ensures { OnOk result (self.new ≡ record self.old { operations = self.old.operations ++ before node blocks stored hold }) }
    {
        if hold && !stored {
            self.operations.push(Operation::Checkpoint {
                node,
                blocks: blocks as u32,
            })?;
        }
        if stored && !hold {
            self.operations.push(Operation::Evict { node })?;
        }
        Ok(())
    }

    /// Computes a child of the live node.
    fn go_down(&mut self, costs: &Costs, child: NodeId) -> Result<(), NoMemory>
        ensures { OnOk result (self.new ≡ record { operations = self.old.operations ++ Operation.Compute child (steps_of costs.now child) ∷ []; path = self.old.path ++ child ∷ [] }) }
    {
        let steps = costs.steps(child);
        self.operations
            .push(Operation::Compute { node: child, steps })?;
        self.path.push(child)?;
        Ok(())
    }

    /// Makes the node of an entry live again, unless the entry was the last.
    fn go_back(
        &mut self,
        costs: &Costs,
        node: NodeId,
        anchor: NodeId,
        from: usize,
        hold: bool,
        last: bool,
    ) -> Result<(), NoMemory>
        requires { from ≤ length self.old.path }
        ensures { OnOk result (self.new ≡ record self.old { operations = self.old.operations ++ (if last then [] else way_back (steps_of costs.now) node anchor (drop from self.old.path) hold) }) }
    {
        if last {
            return Ok(());
        }
        if hold {
            self.operations.push(Operation::Restore { node })?;
            return Ok(());
        }
        remake(
            &mut self.operations,
            costs,
            anchor,
            &self.path.as_slice()[from..],
        )
    }
}

/// Makes a node again from the anchor, 0 for the empty state, down this way.
fn remake(
    operations: &mut Operations,
    costs: &Costs,
    anchor: NodeId,
    way: &[NodeId],
) -> Result<(), NoMemory>
    ensures { OnOk result (operations.new ≡ operations.old ++ remake (steps_of costs.now) anchor way.now) }
{
    if anchor.0 == 0 {
        operations.push(Operation::Reset)?;
    } else {
        operations.push(Operation::Restore { node: anchor })?;
    }
    for node in way {
        let steps = costs.steps(*node);
        operations.push(Operation::Compute { node: *node, steps })?;
    }
    Ok(())
}

/// Where the path from the nearest stored node begins under an entry.
fn chosen(hold: bool, held: usize, free: usize) -> usize
    ensures { result ≡ (if hold then held else free) }
{
    if hold { held } else { free }
}

/// The nearest stored node above a child.
fn nearest(hold: bool, node: NodeId, anchor: NodeId) -> NodeId
    ensures { result ≡ (if hold then node else anchor) }
{
    if hold { node } else { anchor }
}
