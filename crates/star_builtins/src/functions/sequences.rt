//! `list`, `tuple` and `reversed`. What is collected is charged first, so that a range of any
//! length stops by its charge.
ghost use Rattle.std.specs.Prelude.{◌≡◌, ℕ, IfOk, IfSome, IsTrue, length};
ghost use Rattle.star_builtins.specs.Reached.{Fits, Follows, HasRoom, store};
ghost use Rattle.star_builtins.specs.Rows.{listed as listed_of, tupled as tupled_of, walked_given};
ghost use Rattle.star_builtins.specs.Walks.{given};
ghost use Rattle.star_meaning.specs.Builtins as spec;
ghost use Rattle.star_meaning.specs.Steps.{Gives};
ghost use Rattle.star_meaning.specs.Validity.{all_in, is_proper};
ghost use Rattle.star_value.specs.declared.value.Value.TheVariants as value;

use crate::lists::new_list;
use crate::tuples::nests_around;
use crate::walks::{charge_iterated, charged_item, collected, count_of};
use heap_store::Machine;
use sqlite_items::Items;
use star_value::{Failure, Meter, Stop, Value, Values};
use std::alloc::Global;

/// `list([x])`: a new list of what a value gives, once the weights of these items are charged, or
/// an empty one. A value that gives nothing is WrongType.
pub fn list_of(
    alloc: Global,
    of: Option<Value>,
    machine: &mut Machine,
    meter: &mut Meter,
) -> Result<Value, Stop>
    requires of { IfSome of (λ v. Fits machine.old v) }
    requires held { IsTrue (all_in is_proper machine.old.state) }
    requires room { HasRoom machine.old }
    ensures gives { Gives (spec.list_of of (store machine.old meter.old.left)) result (store machine.new meter.new.left) }
    ensures fits { IfOk result (λ v. Fits machine.new v) }
    ensures follows { Follows machine.old machine.new }
{
    match of {
        Some(of) => listed(alloc, &of, machine, meter),
        None => new_list(Items::new(alloc), machine),
    }
}

#[tactic(auto, unfolding(star_meaning::specs::Steps::charge, star_meaning::specs::Values::items_of), using(crate::proofs::FollowLemmas::follows_equal, crate::proofs::WalkLemmas::given_fit))]
fn listed(
    alloc: Global,
    of: &Value,
    machine: &mut Machine,
    meter: &mut Meter,
) -> Result<Value, Stop>
    requires of { Fits machine.old of.now }
    requires held { IsTrue (all_in is_proper machine.old.state) }
    requires room { HasRoom machine.old }
    ensures gives { Gives (listed_of of.now (store machine.old meter.old.left)) result (store machine.new meter.new.left) }
    ensures fits { IfOk result (λ v. Fits machine.new v) }
    ensures follows { Follows machine.old machine.new }
{
    let _nodes = machine.ran();
    let count = count_of(of, machine)?;
    charge_iterated(of, count, machine, meter)?;
    let items = collected(alloc, of, count, machine)?;
    new_list(Items::from_vec(items), machine)
}

/// `reversed(x)`: a new list of what a value gives, the last item first, once the weights of these
/// items are charged. A value that gives nothing is WrongType.
#[tactic(auto, unfolding(star_meaning::specs::Steps::charge, star_meaning::specs::Values::items_of), using(crate::proofs::FollowLemmas::follows_equal, crate::proofs::WalkLemmas::given_fit))]
pub fn reversed(
    alloc: Global,
    of: &Value,
    machine: &mut Machine,
    meter: &mut Meter,
) -> Result<Value, Stop>
    requires of { Fits machine.old of.now }
    requires held { IsTrue (all_in is_proper machine.old.state) }
    requires room { HasRoom machine.old }
    ensures gives { Gives (spec.reversed of.now (store machine.old meter.old.left)) result (store machine.new meter.new.left) }
    ensures fits { IfOk result (λ v. Fits machine.new v) }
    ensures follows { Follows machine.old machine.new }
{
    let _nodes = machine.ran();
    let count = count_of(of, machine)?;
    charge_iterated(of, count, machine, meter)?;
    let mut items = collected(alloc, of, count, machine)?;
    items.reverse();
    new_list(Items::from_vec(items), machine)
}

/// `tuple([x])`: a tuple of what a value gives, or the empty one. Each item's weight is charged,
/// and then an item around which a tuple nests too deep is TooDeep. A value that gives nothing is
/// WrongType.
pub fn tuple_of(
    alloc: Global,
    of: Option<Value>,
    machine: &Machine,
    meter: &mut Meter,
) -> Result<Value, Stop>
    requires of { IfSome of (λ v. Fits machine.now v) }
    requires held { IsTrue (all_in is_proper machine.now.state) }
    ensures gives { Gives (spec.tuple_of of (store machine.now meter.old.left)) result (store machine.now meter.new.left) }
    ensures fits { IfOk result (λ v. Fits machine.now v) }
{
    match of {
        Some(of) => tupled(alloc, &of, machine, meter),
        None => Ok(Value::Tuple(Items::new(alloc))),
    }
}

fn tupled(alloc: Global, of: &Value, machine: &Machine, meter: &mut Meter) -> Result<Value, Stop>
    requires of { Fits machine.now of.now }
    requires held { IsTrue (all_in is_proper machine.now.state) }
    ensures gives { Gives (tupled_of of.now (store machine.now meter.old.left)) result (store machine.now meter.new.left) }
    ensures fits { IfOk result (λ v. Fits machine.now v) }
{
    let count = count_of(of, machine)?;
    let items = walked(alloc, of, count, machine, meter)?;
    Ok(Value::Tuple(items))
}

/// The items that a value gives, of which there are so many, once each is charged and found to nest
/// in a tuple.
fn walked(
    alloc: Global,
    of: &Value,
    count: u128,
    machine: &Machine,
    meter: &mut Meter,
) -> Result<Values, Stop>
    requires of { Fits machine.now of.now }
    requires held { IsTrue (all_in is_proper machine.now.state) }
    requires count { length (given machine.now.state of.now) ≡ count }
    ensures gives { Gives (walked_given (given machine.now.state of.now) (store machine.now meter.old.left)) result (store machine.now meter.new.left) }
    ensures fits { IfOk result (λ items. Fits machine.now (value.Tuple items)) }
{
    let mut items = Vec::new(alloc);
    for place in 0..count {
        let item = charged_item(alloc, of, place, machine, meter)?;
        if nests_around(&item) {
            return Err(Stop::Failure(Failure::TooDeep));
        }
        items.push(item)?;
    }
    Ok(Items::from_vec(items))
}
