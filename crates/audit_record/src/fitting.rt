//! Whether a record is one of a forest.
ghost use Rattle.std.specs.Prelude.{◌≡◌, ◌≤◌, ◌<◌, ◌+◌, ℕ, IfErr, IfOk, IfSome, MatchOption, OnOk, Some, length, take};
ghost use Rattle.std.specs.List.{slice_get};
ghost use Rattle.plan_type.specs.Costs.{row_of};
ghost use Rattle.plan_type.specs.declared.row.Row.{Row};
ghost use Rattle.exec_tree.specs.Forests.{parent_of};
ghost use Rattle.audit_record.specs.Digests.{digests_of};
ghost use Rattle.audit_record.specs.Fitting.{DifferFirst, Fits, HasTree, HasWrongParent, IsUnfit};

use crate::digesting::digests_of;
use crate::fault::RecordFault;
use crate::recorded::Recorded;
use chex_base::NodeId;
use exec_tree::Forest;
use plan_type::Costs;
use sqlite_items::at;
use std::alloc::Global;

/// Whether a record is one of this forest: it has the forest's digests and, where these agree,
/// its parents. `Stale` names the first node at which the digests differ, and `WrongParent` the
/// first whose parent differs. A record that was read has as many rows as digests.
///
/// It takes time linear in the sources and the inputs of the nodes.
pub fn fits(alloc: Global, recorded: &Recorded, forest: &Forest) -> Result<(), RecordFault>
    requires { length recorded.now.costs.rows ≡ length recorded.now.keys }
    ensures ok { OnOk result (Fits recorded.now forest.now) }
    ensures err { IfErr result (IsUnfit recorded.now forest.now) }
{
    let found = digests_of(alloc, forest)?;
    match first_difference(recorded.keys.as_slice(), found.as_slice()) {
        Some(difference) => Err(RecordFault::Stale {
            node: NodeId(difference.place as u32 + 1),
            recorded: difference.left,
            found: difference.right,
        }),
        None => match wrong_parent(&recorded.costs, forest) {
            Some(wrong) => Err(RecordFault::WrongParent {
                node: wrong.node,
                recorded: wrong.recorded,
                found: wrong.found,
            }),
            None => Ok(()),
        },
    }
}

/// Where two lists differ, and what they have there.
#[derive(Drop)]
struct Difference {
    place: usize,
    left: Option<[u8; 32]>,
    right: Option<[u8; 32]>,
}

/// The first place at which two lists of digests differ, from 0.
fn first_difference(lefts: &[[u8; 32]], rights: &[[u8; 32]]) -> Option<Difference>
    ensures found { MatchOption result (lefts.now ≡ rights.now) (λ d. DifferFirst lefts.now rights.now d.place d.left d.right) }
    ensures within { IfSome result (λ d. d.place ≤ length rights.now) }
{
    for (place, left) in lefts.iter().enumerate() {
        match at(rights, place) {
            None => {
                return Some(Difference {
                    place,
                    left: Some(*left),
                    right: None,
                });
            }
            Some(right) => {
                if *left != *right {
                    return Some(Difference {
                        place,
                        left: Some(*left),
                        right: Some(*right),
                    });
                }
            }
        }
    }
    match at(rights, lefts.len()) {
        None => None,
        Some(right) => Some(Difference {
            place: lefts.len(),
            left: None,
            right: Some(*right),
        }),
    }
}

/// A node whose recorded parent is another than its own.
#[derive(Drop)]
struct Wrong {
    node: NodeId,
    recorded: NodeId,
    found: NodeId,
}

/// The first node whose row has another parent than the forest.
fn wrong_parent(costs: &Costs, forest: &Forest) -> Option<Wrong>
    requires { length costs.now.rows ≡ length forest.now.nodes }
    ensures { MatchOption result (HasTree forest.now costs.now) (λ w. HasWrongParent forest.now costs.now w.node w.recorded w.found) }
{
    let count = forest.count();
    for place in 0..count {
        let node = NodeId(place + 1);
        let found = forest.parent(node);
        let recorded = parent_at(costs, place);
        if recorded != found {
            return Some(Wrong {
                node,
                recorded,
                found,
            });
        }
    }
    None
}

/// The parent in the row at a place, from 0.
fn parent_at(costs: &Costs, place: u32) -> NodeId
    requires { place < length costs.now.rows }
    ensures { (row : Row) × (row_of costs.now (place + 1) ≡ Some row) × (row.parent ≡ result) }
{
    costs.rows.as_slice()[place as usize].parent
}
