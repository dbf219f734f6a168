//! One node's choice: which child stands last, and for which children the node is held.
ghost use Rattle.std.specs.Prelude.{◌≡◌, ◌≤◌, ◌<◌, ◌+◌, ◌-◌, ◌^◌, length, sum_by, get_or, nat_lt};
ghost use Rattle.plan_type.specs.Offers.{offer_free, offer_held, offer_other, offer_last, offer_saving, most_saved, offers_free, offers_held, offers_local, no_offer};

use chex_base::NodeId;

/// What a child costs, its subtree included.
#[derive(Clone, Copy, Debug)]
pub struct Offer {
    /// The child.
    pub child: NodeId,
    /// Without its parent held.
    pub free: u64,
    /// With its parent held; where that may not be, what it costs without, and the return.
    pub held: u64,
}

/// What a node's returns and its snapshot cost, in steps.
#[derive(Clone, Copy, Debug)]
pub struct Fees {
    /// Making the node again where it is not held.
    pub back: u64,
    /// Restoring it where it is held; 0 where it may not be.
    pub load: u64,
    /// Storing it; 0 where it may not be held.
    pub save: u64,
}

impl Offer {
    /// The child's cost where it stands last.
    pub fn last(&self) -> u64
        ensures { result ≡ offer_last self.now }
    {
        self.free.min(self.held)
    }

    /// The child's cost where another follows: with it comes a return.
    pub fn other(&self, fees: &Fees) -> u64
        requires free { offer_free fees.now self.now < 2 ^ 64 }
        requires held { offer_held fees.now self.now < 2 ^ 64 }
        ensures { result ≡ offer_other fees.now self.now }
    {
        (self.free + fees.back).min(self.held + fees.load)
    }

    /// What standing last saves.
    pub fn saving(&self, fees: &Fees) -> u64
        requires free { offer_free fees.now self.now < 2 ^ 64 }
        requires held { offer_held fees.now self.now < 2 ^ 64 }
        ensures { result ≡ offer_saving fees.now self.now }
    {
        self.other(fees) - self.last()
    }

    /// Whether its parent is held for the child where it stands last: only where that is cheaper.
    pub fn holds_last(&self) -> bool
        ensures { result ≡ nat_lt self.now.held self.now.free }
    {
        self.held < self.free
    }

    /// Whether its parent is held for the child where another follows: only where that is cheaper.
    pub fn holds_other(&self, fees: &Fees) -> bool
        requires free { offer_free fees.now self.now < 2 ^ 64 }
        requires held { offer_held fees.now self.now < 2 ^ 64 }
        ensures { result ≡ nat_lt (offer_held fees.now self.now) (offer_free fees.now self.now) }
    {
        self.held + fees.load < self.free + fees.back
    }
}

/// The sum of the children's costs where each is followed by another.
fn others(offers: &[Offer], fees: &Fees) -> u64
    requires frees { sum_by (offer_free fees.now) offers.now < 2 ^ 63 }
    requires helds { sum_by (offer_held fees.now) offers.now < 2 ^ 63 }
    ensures { result ≡ sum_by (offer_other fees.now) offers.now }
{
    let mut total = 0;
    for offer in offers {
        total += offer.other(fees);
    }
    total
}

/// The sum of the children's costs where the node is held for none and returns after each.
fn frees(offers: &[Offer], fees: &Fees) -> u64
    requires { sum_by (offer_free fees.now) offers.now < 2 ^ 63 }
    ensures { result ≡ sum_by (offer_free fees.now) offers.now }
{
    let mut total = 0;
    for offer in offers {
        total += offer.free + fees.back;
    }
    total
}

/// The child that stands last: the one with the greatest number among those that save most.
pub fn place_of_last(offers: &[Offer], fees: &Fees) -> usize
    requires some { 0 < length offers.now }
    requires frees { sum_by (offer_free fees.now) offers.now < 2 ^ 63 }
    requires helds { sum_by (offer_held fees.now) offers.now < 2 ^ 63 }
    ensures within { result < length offers.now }
    ensures most { offer_saving fees.now (get_or offers.now result no_offer) ≡ most_saved fees.now offers.now }
{
    let mut place = 0;
    let mut most = 0;
    for at in 0..offers.len() {
        let saving = offers[at].saving(fees);
        if saving >= most {
            most = saving;
            place = at;
        }
    }
    place
}

/// What the node's subtree costs where the node is held for none of its children.
fn never_held(offers: &[Offer], fees: &Fees) -> u64
    requires { sum_by (offer_free fees.now) offers.now < 2 ^ 63 }
    ensures { result ≡ offers_free fees.now offers.now }
{
    frees(offers, fees).saturating_sub(fees.back)
}

/// The least that the node's subtree costs where the node is stored for some of its children.
fn somewhere_held(offers: &[Offer], fees: &Fees) -> u64
    requires frees { sum_by (offer_free fees.now) offers.now < 2 ^ 63 }
    requires helds { sum_by (offer_held fees.now) offers.now < 2 ^ 63 }
    requires save { fees.now.save < 2 ^ 62 }
    ensures { result ≡ offers_held fees.now offers.now }
{
    if offers.is_empty() {
        return fees.save;
    }
    let last = place_of_last(offers, fees);
    fees.save + (others(offers, fees) - offers[last].saving(fees))
}

/// Whether storing the node for some of its children is strictly cheaper than for none.
pub fn is_worth_holding(offers: &[Offer], fees: &Fees) -> bool
    requires frees { sum_by (offer_free fees.now) offers.now < 2 ^ 63 }
    requires helds { sum_by (offer_held fees.now) offers.now < 2 ^ 63 }
    requires save { fees.now.save < 2 ^ 62 }
    ensures { result ≡ nat_lt (offers_held fees.now offers.now) (offers_free fees.now offers.now) }
{
    somewhere_held(offers, fees) < never_held(offers, fees)
}

/// The least cost of the node's subtree. It takes a few passes over the offers.
pub fn local(offers: &[Offer], fees: &Fees) -> u64
    requires frees { sum_by (offer_free fees.now) offers.now < 2 ^ 63 }
    requires helds { sum_by (offer_held fees.now) offers.now < 2 ^ 63 }
    requires save { fees.now.save < 2 ^ 62 }
    ensures { result ≡ offers_local fees.now offers.now }
{
    never_held(offers, fees).min(somewhere_held(offers, fees))
}
