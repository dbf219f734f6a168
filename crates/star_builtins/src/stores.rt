//! What stores in a list or a dict: `x[i] = v`, `+=` on a list, and the values that several targets
//! get.
ghost use Rattle.std.specs.Prelude.{◌≡◌, ℕ, IfOk, IsTrue, length, slice_get};
ghost use Rattle.star_builtins.specs.Reached.{AllFit, Answers, Fits, Follows, GivesWeighed, HasRoom, names, store as met};
ghost use Rattle.star_builtins.specs.Storing.{counted, unpacked_items};
ghost use Rattle.star_meaning.specs.Operators as spec;
ghost use Rattle.star_meaning.specs.State.{list};
ghost use Rattle.star_meaning.specs.Steps.{Gives};
ghost use Rattle.star_meaning.specs.Validity.{all_in, is_dict, is_list, is_proper};
ghost use Rattle.star_value.specs.declared.value.Value.{out-Value};
ghost use Rattle.star_value.specs.declared.value.Value.TheOpen.{Value-F};

use crate::changes::{check_unlocked, extend_items, put_pair, set_item};
use crate::charges::{charge_items, charge_key};
use crate::operators::binary;
use crate::places::place_of;
use crate::walks::{charge_iterated, collected, count_of};
use chex_base::ObjectId;
use heap_store::Machine;
use sqlite_items::Items;
use star_syntax::{BinaryOp, Program};
use star_value::{Failure, Key, Meter, Stop, Value, Values, copy_values};
use std::alloc::Global;

/// Stores a value in a list at the place that an integer names, or in a dict at a key, which
/// charges the weight of the key. A list or dict that is among the locked ones is
/// ChangedWhileIterated, a place that is not there is BadIndex, a key that is none is Unhashable,
/// and every other pair of types is WrongType. A store that fails changes nothing.
#[tactic(auto, unfolding(star_meaning::specs::Operators::store), using(crate::proofs::FitLemmas::held))]
pub fn store(
    alloc: Global,
    locked: &[ObjectId],
    of: &Value,
    at: Value,
    value: Value,
    machine: &mut Machine,
    meter: &mut Meter,
) -> Result<(), Stop>
    requires of { Fits machine.old of.now }
    requires at { Fits machine.old at }
    requires value { Fits machine.old value }
    requires held { IsTrue (all_in is_proper machine.old.state) }
    ensures gives { Gives (spec.store locked.now of.now at value (met machine.old meter.old.left)) result (met machine.new meter.new.left) }
    ensures follows { Follows machine.old machine.new }
    ensures count { length machine.new.state.objects ≡ length machine.old.state.objects }
{
    match of {
        Value::Dict(id) => store_key(alloc, locked, *id, at, value, machine, meter),
        Value::List(id) => store_place(locked, *id, &at, value, machine, meter),
        _ => Err(Stop::Failure(Failure::WrongType)),
    }
}

/// The place of a list is an integer.
fn store_place(
    locked: &[ObjectId],
    id: ObjectId,
    at: &Value,
    value: Value,
    machine: &mut Machine,
    meter: &Meter,
) -> Result<(), Stop>
    requires kind { IsTrue (is_list (slice_get machine.old.state.objects id)) }
    requires value { Fits machine.old value }
    requires held { IsTrue (all_in is_proper machine.old.state) }
    ensures gives { Gives (spec.store_at locked.now (Value-F.List id) at.now (out-Value at.now) value (met machine.old meter.now.left)) result (met machine.new meter.now.left) }
    ensures follows { Follows machine.old machine.new }
    ensures count { length machine.new.state.objects ≡ length machine.old.state.objects }
{
    match at {
        Value::Int(number) => store_item(locked, id, *number, value, machine, meter),
        _ => Err(Stop::Failure(Failure::WrongType)),
    }
}

#[tactic(auto, using(crate::proofs::FollowLemmas::follows_equal, crate::proofs::CountLemmas::counts))]
fn store_item(
    locked: &[ObjectId],
    id: ObjectId,
    number: i128,
    value: Value,
    machine: &mut Machine,
    meter: &Meter,
) -> Result<(), Stop>
    requires kind { IsTrue (is_list (slice_get machine.old.state.objects id)) }
    requires value { Fits machine.old value }
    requires held { IsTrue (all_in is_proper machine.old.state) }
    ensures gives { Gives (spec.store_item locked.now id number value (met machine.old meter.now.left)) result (met machine.new meter.now.left) }
    ensures follows { Follows machine.old machine.new }
    ensures count { length machine.new.state.objects ≡ length machine.old.state.objects }
{
    check_unlocked(locked, id)?;
    let Some(place) = place_of(number, machine.list(id).len() as u128) else {
        return Err(Stop::Failure(Failure::BadIndex));
    };
    set_item(id, place as usize, value, machine);
    Ok(())
}

#[tactic(auto, unfolding(star_meaning::specs::Steps::charge), using(crate::proofs::FollowLemmas::follows_equal, crate::proofs::KeyLemmas::keys))]
fn store_key(
    alloc: Global,
    locked: &[ObjectId],
    id: ObjectId,
    at: Value,
    value: Value,
    machine: &mut Machine,
    meter: &mut Meter,
) -> Result<(), Stop>
    requires kind { IsTrue (is_dict (slice_get machine.old.state.objects id)) }
    requires at { Fits machine.old at }
    requires value { Fits machine.old value }
    requires held { IsTrue (all_in is_proper machine.old.state) }
    ensures gives { Gives (spec.store_key locked.now id at value (met machine.old meter.old.left)) result (met machine.new meter.new.left) }
    ensures follows { Follows machine.old machine.new }
    ensures count { length machine.new.state.objects ≡ length machine.old.state.objects }
{
    let key = Key::from_value(alloc, at)?;
    check_unlocked(locked, id)?;
    charge_key(&key, meter)?;
    put_pair(id, key, value, machine)?;
    Ok(())
}

/// Puts what a value gives at the end of a list, once the weights of these items are charged. A
/// value that gives nothing is WrongType, and a locked list is ChangedWhileIterated. A call that
/// fails changes nothing.
#[tactic(auto, unfolding(star_meaning::specs::Operators::extend, star_meaning::specs::Steps::charge, star_meaning::specs::Values::items_of), using(crate::proofs::FollowLemmas::follows_equal, crate::proofs::WalkLemmas::given_fit))]
pub fn extend(
    alloc: Global,
    locked: &[ObjectId],
    id: ObjectId,
    of: &Value,
    machine: &mut Machine,
    meter: &mut Meter,
) -> Result<(), Stop>
    requires kind { IsTrue (is_list (slice_get machine.old.state.objects id)) }
    requires of { Fits machine.old of.now }
    requires held { IsTrue (all_in is_proper machine.old.state) }
    ensures gives { Gives (spec.extend locked.now id of.now (met machine.old meter.old.left)) result (met machine.new meter.new.left) }
    ensures follows { Follows machine.old machine.new }
{
    let _nodes = machine.ran();
    let count = count_of(of, machine)?;
    check_unlocked(locked, id)?;
    charge_iterated(of, count, machine, meter)?;
    let more = collected(alloc, of, count, machine)?;
    extend_items(id, Items::from_vec(more), machine)?;
    Ok(())
}

/// What the operator of `p op= t` makes of the two operands: `+=` extends a list in its place by
/// what any value gives, and answers the list; everything else is the operator itself.
#[tactic(auto, unfolding(star_meaning::specs::Operators::augmented), using(crate::proofs::FitLemmas::held, crate::proofs::WeighedLemmas::weighing))]
pub fn augmented(
    alloc: Global,
    locked: &[ObjectId],
    op: BinaryOp,
    left: Value,
    right: Value,
    program: &Program,
    machine: &mut Machine,
    meter: &mut Meter,
) -> Result<Value, Stop>
    requires left { Fits machine.old left }
    requires right { Fits machine.old right }
    requires held { IsTrue (all_in is_proper machine.old.state) }
    requires room { HasRoom machine.old }
    ensures gives { GivesWeighed (spec.augmented (names program.now) locked.now op left right (met machine.old meter.old.left)) result (met machine.new meter.new.left) }
    ensures fits { IfOk result (λ v. Fits machine.new v) }
    ensures follows { Follows machine.old machine.new }
{
    match (op, &left) {
        (BinaryOp::Add, Value::List(id)) => {
            extend(alloc, locked, *id, &right, machine, meter)?;
            Ok(left)
        }
        _ => binary(alloc, op, left, right, program, machine, meter),
    }
}

/// The items of a list or tuple for so many targets: their weights are charged, and then another
/// count is BadUnpack. Any other value is WrongType. The items of a tuple are moved.
#[tactic(auto, unfolding(star_meaning::specs::Operators::unpacked), using(crate::proofs::FitLemmas::held))]
pub fn unpacked(
    alloc: Global,
    count: usize,
    of: Value,
    machine: &Machine,
    meter: &mut Meter,
) -> Result<Values, Stop>
    requires of { Fits machine.now of }
    requires held { IsTrue (all_in is_proper machine.now.state) }
    ensures gives { Gives (spec.unpacked count of (met machine.now meter.old.left)) result (met machine.now meter.new.left) }
    ensures fits { IfOk result (λ items. AllFit machine.now items) }
{
    match of {
        Value::List(id) => unpacked_list(alloc, count, id, machine, meter),
        Value::Tuple(items) => unpacked_tuple(count, items, machine, meter),
        _ => Err(Stop::Failure(Failure::WrongType)),
    }
}

fn unpacked_list(
    alloc: Global,
    count: usize,
    id: ObjectId,
    machine: &Machine,
    meter: &mut Meter,
) -> Result<Values, Stop>
    requires kind { IsTrue (is_list (slice_get machine.now.state.objects id)) }
    requires held { IsTrue (all_in is_proper machine.now.state) }
    ensures gives { Gives (unpacked_items count (list machine.now.state id) (met machine.now meter.old.left)) result (met machine.now meter.new.left) }
    ensures fits { IfOk result (λ items. AllFit machine.now items) }
{
    let items = machine.list(id);
    check_count(count, items, machine, meter)?;
    let copies = copy_values(alloc, items)?;
    Ok(copies)
}

fn unpacked_tuple(
    count: usize,
    items: Values,
    machine: &Machine,
    meter: &mut Meter,
) -> Result<Values, Stop>
    ensures gives { Gives (unpacked_items count items (met machine.now meter.old.left)) result (met machine.now meter.new.left) }
    ensures same { IfOk result (λ taken. taken ≡ items) }
{
    check_count(count, items.as_slice(), machine, meter)?;
    Ok(items)
}

/// Charges the weights of items, and then looks whether there are so many.
#[tactic(auto, unfolding(star_meaning::specs::Steps::charge))]
fn check_count(
    count: usize,
    items: &[Value],
    machine: &Machine,
    meter: &mut Meter,
) -> Result<(), Failure>
    ensures { Answers (counted count items.now (met machine.now meter.old.left)) result (met machine.now meter.new.left) }
{
    charge_items(items, meter)?;
    if items.len() != count {
        return Err(Failure::BadUnpack);
    }
    Ok(())
}
