//! The order of a node's children, and for which of them it is held.
ghost use Rattle.std.specs.Prelude.{◌≡◌, ◌⊎◌, ◌<◌, ◌^◌, ◌++◌, [], ◌∷◌, map, sum_by, cond, length, if◌then◌else◌, not, true, IfOk, OnOk};
ghost use Rattle.std.specs.List.{filter};
ghost use Rattle.plan_type.specs.declared.plan.Entry.{Entry};
ghost use Rattle.plan_type.specs.Choices.{Choice};
ghost use Rattle.plan_type.specs.Offers.{offer_at, fees_at, offer_free, offer_held};
ghost use Rattle.plan_optimum.specs.Chosen.{Pick, free_pick, other_pick, flagged, IsChosen};

use chex_base::{NoMemory, NodeId};
use plan_type::{Entry, Fees, Offer, is_worth_holding, place_of_last};
use std::alloc::Global;

/// An entry without its rest.
pub type Pick = Entry<()>;

/// The entries that cost least. The node is held only where that is strictly cheaper than never;
/// then the greatest-numbered child of those that save most by standing last does, and an entry
/// holds only where that is strictly cheaper. The others stand in rising order; where saving has a
/// price, those that hold stand next to each other: after the free ones if the last entry holds,
/// and before them otherwise.
pub fn choose(
    alloc: Global,
    offers: Vec<Offer>,
    fees: &Fees,
    priced: bool,
) -> Result<Vec<Pick>, NoMemory>
    requires frees { sum_by (offer_free fees.now) offers.items < 2 ^ 63 }
    requires helds { sum_by (offer_held fees.now) offers.items < 2 ^ 63 }
    requires save { fees.now.save < 2 ^ 62 }
    requires priced { (priced ≡ true) ⊎ (fees.now.save ≡ 0) }
    ensures { (c : Choice) (can : _) (vs : _) → offers.items ≡ map (offer_at c can) vs → fees.now ≡ fees_at c can → IfOk result (λ picks. IsChosen c can vs picks.items) }
{
    if !is_worth_holding(&offers, fees) {
        return free(alloc, &offers);
    }
    let mut offers = offers;
    let place = place_of_last(&offers, fees);
    let last = offers.remove(place);
    let hold = last.holds_last();
    let others = others(alloc, &offers, fees)?;
    let mut picks = arranged(alloc, others, priced, hold)?;
    picks.push(pick(last.child, hold))?;
    Ok(picks)
}

fn pick(child: NodeId, hold: bool) -> Pick
    ensures { result ≡ record { child = child; hold = hold; rest = tt } }
{
    Entry {
        child,
        hold,
        rest: (),
    }
}

/// The children in rising order, with the node never held.
fn free(alloc: Global, offers: &[Offer]) -> Result<Vec<Pick>, NoMemory>
    ensures { IfOk result (λ picks. picks.items ≡ map free_pick offers.now) }
{
    let mut picks = Vec::new(alloc);
    for offer in offers {
        picks.push(pick(offer.child, false))?;
    }
    Ok(picks)
}

/// The children in rising order, each followed by another.
fn others(alloc: Global, offers: &[Offer], fees: &Fees) -> Result<Vec<Pick>, NoMemory>
    requires frees { sum_by (offer_free fees.now) offers.now < 2 ^ 63 }
    requires helds { sum_by (offer_held fees.now) offers.now < 2 ^ 63 }
    ensures { IfOk result (λ picks. picks.items ≡ map (other_pick fees.now) offers.now) }
{
    let mut picks = Vec::new(alloc);
    for offer in offers {
        picks.push(pick(offer.child, offer.holds_other(fees)))?;
    }
    Ok(picks)
}

/// The entries before the last: as they are, or those that hold beside the last one if it holds,
/// and at the front if it does not.
fn arranged(
    alloc: Global,
    others: Vec<Pick>,
    priced: bool,
    hold: bool,
) -> Result<Vec<Pick>, NoMemory>
    ensures { IfOk result (λ picks. picks.items ≡ (if priced then filter (flagged (not hold)) others.items ++ filter (flagged hold) others.items else others.items)) }
{
    if !priced {
        return Ok(others);
    }
    let mut picks = Vec::new(alloc);
    push_flagged(&mut picks, &others, !hold)?;
    push_flagged(&mut picks, &others, hold)?;
    Ok(picks)
}

/// Adds the entries that have this flag.
fn push_flagged(picks: &mut Vec<Pick>, others: &[Pick], hold: bool) -> Result<(), NoMemory>
    ensures { OnOk result (picks.new.items ≡ picks.old.items ++ filter (flagged hold) others.now) }
{
    for other in others {
        push_if(
            picks,
            pick(other.child, other.hold),
            is_flagged(other, hold),
        )?;
    }
    Ok(())
}

fn is_flagged(pick: &Pick, hold: bool) -> bool
    ensures { result ≡ flagged hold pick.now }
{
    pick.hold == hold
}

fn push_if(picks: &mut Vec<Pick>, pick: Pick, wanted: bool) -> Result<(), NoMemory>
    ensures { OnOk result (picks.new.items ≡ picks.old.items ++ cond wanted (pick ∷ []) []) }
{
    if wanted {
        picks.push(pick)?;
    }
    Ok(())
}
