//! Walks over the pairs of a dict: what is charged for them, what is copied, and pairs that are put
//! into a dict.
ghost use Rattle.std.specs.Prelude.{◌≡◌, ◌+◌, ◌<◌, [], ◌∷◌, ℕ, reverse, length, IfOk, IsTrue, OnOk, slice_get};
ghost use Rattle.star_builtins.specs.Changes.{PairsFit};
ghost use Rattle.star_builtins.specs.MethodRows as rows;
ghost use Rattle.star_builtins.specs.Reached.{AllFit, Answers, Fits, Follows};
ghost use Rattle.star_builtins.specs.Taken.{GivesCharged};
ghost use Rattle.star_meaning.specs.Builtins as builtins;
ghost use Rattle.star_meaning.specs.Methods as spec;
ghost use Rattle.star_meaning.specs.State as state;
ghost use Rattle.star_meaning.specs.State.{State};
ghost use Rattle.star_meaning.specs.Steps.{Gives, Store};
ghost use Rattle.star_meaning.specs.Validity.{MachineState, all_in, is_dict, is_proper};
ghost use Rattle.star_meaning.specs.Values as values;
ghost use Rattle.star_value.specs.Charge.{charged};
ghost use Rattle.star_value.specs.Keys.{value_of};
ghost use Rattle.star_value.specs.Weight.{weight, sum_of_weights};
ghost use Rattle.star_value.specs.declared.value.Value.TheVariants as value;

use crate::changes::put_pair;
use crate::charges::{charge_key, charge_weight};
use crate::tuples::new_tuple;
use chex_base::{NoMemory, ObjectId};
use heap_store::{Machine, Pairs};
use sqlite_items::Items;
use star_value::{Failure, Key, Meter, Stop, Value, Values};
use std::alloc::Global;

/// Equal values to those of a dict, once their weights are charged.
pub fn charged_values(alloc: Global, pairs: &Pairs, meter: &mut Meter) -> Result<Values, Stop>
    ensures { GivesCharged (charged meter.old.left (sum_of_weights (spec.pair_values pairs.now))) (spec.pair_values pairs.now) result meter.new.left }
{
    charge_values(pairs, meter)?;
    let values = copied_values(alloc, pairs)?;
    Ok(values)
}

#[tactic(auto, using(crate::proofs::WalkLemmas::walked, crate::proofs::PairWalks::values))]
fn charge_values(pairs: &Pairs, meter: &mut Meter) -> Result<(), Failure>
    ensures { charged meter.old.left (sum_of_weights (spec.pair_values pairs.now)) ≡ (result, meter.new.left) }
{
    for place in 0..pairs.len() {
        charge_weight(pairs.at(place).1, meter)?;
    }
    Ok(())
}

#[tactic(auto, using(crate::proofs::WalkLemmas::walked, crate::proofs::PairWalks::values))]
fn copied_values(alloc: Global, pairs: &Pairs) -> Result<Values, NoMemory>
    ensures { IfOk result (λ copies. copies ≡ spec.pair_values pairs.now) }
{
    let mut copies = Items::new(alloc);
    for place in 0..pairs.len() {
        copies.push(pairs.at(place).1.copy(alloc)?)?;
    }
    Ok(copies)
}

/// The pairs of a dict as tuples, each of which is charged before it is made. Where tuples then
/// nest too deep it is TooDeep.
pub fn item_tuples(alloc: Global, pairs: &Pairs, meter: &mut Meter) -> Result<Values, Stop>
    ensures gives { (s : State ℕ) → Gives (builtins.tuples (spec.pair_rows pairs.now) (record { state = s; left = meter.old.left })) result (record { state = s; left = meter.new.left }) }
    ensures fits { (m : MachineState) → PairsFit m pairs.now → IfOk result (λ tuples. AllFit m tuples) }
{
    let mut tuples = Items::new(alloc);
    for place in 0..pairs.len() {
        let (key, held) = pairs.at(place);
        charge_tuple(key, held, meter)?;
        let tuple = item_tuple(alloc, key, held)?;
        tuples.push(tuple)?;
    }
    Ok(tuples)
}

/// Charges the weight of the tuple of a key and its value.
#[tactic(auto, using(crate::proofs::PairWalks::tuple))]
fn charge_tuple(key: &Key, held: &Value, meter: &mut Meter) -> Result<(), Failure>
    ensures { charged meter.old.left (weight (value.Tuple (value_of key.now ∷ held.now ∷ []))) ≡ (result, meter.new.left) }
{
    meter.charge(1)?;
    charge_pair(key, held, meter)
}

/// Charges the weights of a key and of its value.
#[tactic(auto, using(crate::proofs::PairWalks::both))]
fn charge_pair(key: &Key, held: &Value, meter: &mut Meter) -> Result<(), Failure>
    ensures { charged meter.old.left (weight (value_of key.now) + weight held.now) ≡ (result, meter.new.left) }
{
    charge_key(key, meter)?;
    charge_weight(held, meter)
}

/// The tuple of a key and its value.
fn item_tuple(alloc: Global, key: &Key, held: &Value) -> Result<Value, Stop>
    ensures gives { (s : Store ℕ) → Gives (values.new_tuple (value_of key.now ∷ held.now ∷ []) s) result s }
    ensures fits { (m : MachineState) → Fits m (value_of key.now) → Fits m held.now → IfOk result (λ v. Fits m v) }
{
    let mut items = Items::new(alloc);
    items.push(key.value(alloc)?)?;
    items.push(held.copy(alloc)?)?;
    let tuple = new_tuple(items)?;
    Ok(tuple)
}

/// Charges the weights of the keys and values of a dict.
#[tactic(auto, using(crate::proofs::PairWalks::flat))]
pub fn charge_pairs(pairs: &Pairs, meter: &mut Meter) -> Result<(), Failure>
    ensures { charged meter.old.left (sum_of_weights (rows.flat_pairs pairs.now)) ≡ (result, meter.new.left) }
{
    for place in 0..pairs.len() {
        let (key, held) = pairs.at(place);
        charge_pair(key, held, meter)?;
    }
    Ok(())
}

/// Equal pairs to those of a dict, the last one first.
pub fn reversed_pairs(alloc: Global, pairs: &Pairs) -> Result<Vec<(Key, Value)>, NoMemory>
    ensures { IfOk result (λ copies. reverse copies.items ≡ pairs.now) }
{
    let mut copies = copied_pairs(alloc, pairs)?;
    copies.as_mut_slice().reverse();
    Ok(copies)
}

#[tactic(auto, using(crate::proofs::WalkLemmas::walked))]
fn copied_pairs(alloc: Global, pairs: &Pairs) -> Result<Vec<(Key, Value)>, NoMemory>
    ensures { IfOk result (λ copies. copies.items ≡ pairs.now) }
{
    let mut copies = Vec::new(alloc);
    for place in 0..pairs.len() {
        let (key, held) = pairs.at(place);
        let key = key.copy(alloc)?;
        let held = held.copy(alloc)?;
        copies.push((key, held))?;
    }
    Ok(copies)
}

/// Puts pairs into a dict, the last one first.
pub fn put_pairs(
    id: ObjectId,
    mut more: Vec<(Key, Value)>,
    machine: &mut Machine,
) -> Result<(), NoMemory>
    requires kind { IsTrue (is_dict (slice_get machine.old.state.objects id)) }
    requires more { PairsFit machine.old (reverse more.items) }
    requires held { IsTrue (all_in is_proper machine.old.state) }
    ensures ok { OnOk result (machine.new ≡ record machine.old { state = state.with_dict machine.old.state id (spec.put_all (state.dict machine.old.state id) (reverse more.items)) }) }
    ensures follows { Follows machine.old machine.new }
{
    while let Some((key, held)) = more.pop() {
        put_pair(id, key, held, machine)?;
    }
    Ok(())
}
