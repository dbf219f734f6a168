//! Which plans are plans of a tree.
ghost use Rattle.std.specs.Prelude.{◌≡◌, ◌≤◌, length, true, IfOk};
ghost use Rattle.plan_type.specs.Costs.{children_of};
ghost use Rattle.plan_type.specs.Plan.{entries_of, HoldsNone, IsPlan, IsPlanOf};

use chex_base::{NoMemory, NodeId};
use plan_type::{Costs, Plan};
use std::alloc::Global;

/// Whether the entries are the node's children, and each rest is a plan of its child.
fn is_plan_of(alloc: Global, costs: &Costs, plan: &Plan, of: NodeId) -> Result<bool, NoMemory>
    requires { length costs.now.rows ≤ 512 }
    ensures { IfOk result (λ b. b ≡ true → IsPlanOf (children_of costs.now) of plan.now) }
{
    let mut named = Vec::new(alloc);
    for entry in plan.entries.as_slice() {
        if !is_plan_of(alloc, costs, &entry.rest, entry.child)? {
            return Ok(false);
        }
        named.push(entry.child)?;
    }
    named.sort()?;
    Ok(same(&named, &costs.children(alloc, of)?))
}

fn same(left: &[NodeId], right: &[NodeId]) -> bool
    ensures { result ≡ true → left.now ≡ right.now }
{
    if left.len() != right.len() {
        return false;
    }
    for at in 0..left.len() {
        if left[at] != right[at] {
            return false;
        }
    }
    true
}

/// Whether none of the plan's own entries holds.
fn holds_none(plan: &Plan) -> bool
    ensures { result ≡ true → HoldsNone (entries_of plan.now) }
{
    for entry in plan.entries.as_slice() {
        if entry.hold {
            return false;
        }
    }
    true
}

/// Whether the plan is one of the class: it has the children of each node, and none under 0 is held.
pub fn is_plan(alloc: Global, costs: &Costs, plan: &Plan) -> Result<bool, NoMemory>
    requires { length costs.now.rows ≤ 512 }
    ensures { IfOk result (λ b. b ≡ true → IsPlan costs.now plan.now) }
{
    Ok(holds_none(plan) && is_plan_of(alloc, costs, plan, NodeId(0))?)
}
