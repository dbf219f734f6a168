//! New objects of a machine, as far as it has room.
ghost use Rattle.std.specs.Prelude.{IfOk, OnOk};
ghost use Rattle.call_tests.specs.Growth.{Grows};
ghost use Rattle.star_builtins.specs.Reached.{AllFit, Fits, HasRoom};
ghost use Rattle.star_meaning.specs.Validity.{MachineState};

use crate::fault::Fault;
use heap_store::{Machine, Pairs};
use sqlite_items::Items;
use star_builtins::{new_dict, new_list, new_tuple};
use star_value::{Value, Values};
use std::alloc::Global;

/// One more object may be made.
pub fn check_room(machine: &Machine) -> Result<(), Fault>
    ensures { OnOk result (HasRoom machine.now) }
{
    if machine.ran().len() == 1 && machine.objects() < 1_000_000 {
        Ok(())
    } else {
        Err(Fault::Unread)
    }
}

/// A new list of these items.
#[tactic(auto, using(crate::proofs::Growing::grows_follows))]
pub fn list_of(items: Values, machine: &mut Machine) -> Result<Value, Fault>
    requires { AllFit machine.old items }
    ensures fits { IfOk result (λ v. Fits machine.new v) }
    ensures grows { OnOk result (Grows machine.old machine.new) }
{
    check_room(machine)?;
    Ok(new_list(items, machine)?)
}

/// A new empty dict.
#[tactic(auto, using(crate::proofs::Growing::grows_follows, crate::proofs::Growing::no_pairs))]
pub fn empty_dict(alloc: Global, machine: &mut Machine) -> Result<Value, Fault>
    ensures fits { IfOk result (λ v. Fits machine.new v) }
    ensures grows { OnOk result (Grows machine.old machine.new) }
{
    check_room(machine)?;
    Ok(new_dict(Pairs::new(alloc), machine)?)
}

/// A tuple of one item.
#[tactic(auto, using(crate::proofs::Growing::one_fits))]
fn tuple_around(alloc: Global, item: Value) -> Result<Value, Fault>
    ensures { (m : MachineState) → Fits m item → IfOk result (λ v. Fits m v) }
{
    let mut items = Items::new(alloc);
    items.push(item)?;
    Ok(new_tuple(items)?)
}

/// A tuple in which so many others nest.
#[tactic(auto, using(crate::proofs::Growing::none_fit))]
pub fn nested_tuple(alloc: Global, depth: u32) -> Result<Value, Fault>
    ensures { (m : MachineState) → IfOk result (λ v. Fits m v) }
{
    let mut tuple = new_tuple(Items::new(alloc))?;
    for _time in 0..depth {
        tuple = tuple_around(alloc, tuple)?;
    }
    Ok(tuple)
}

/// A new list of one item.
#[tactic(auto, using(crate::proofs::Growing::one_fits))]
fn list_around(alloc: Global, item: Value, machine: &mut Machine) -> Result<Value, Fault>
    requires { Fits machine.old item }
    ensures fits { IfOk result (λ v. Fits machine.new v) }
    ensures grows { OnOk result (Grows machine.old machine.new) }
{
    let mut items = Items::new(alloc);
    items.push(item)?;
    list_of(items, machine)
}

/// A list in which so many others nest.
#[tactic(auto, using(crate::proofs::Growing::none_fit, crate::proofs::Growing::grows_then))]
pub fn nested_list(alloc: Global, depth: u32, machine: &mut Machine) -> Result<Value, Fault>
    ensures fits { IfOk result (λ v. Fits machine.new v) }
    ensures grows { OnOk result (Grows machine.old machine.new) }
{
    let mut list = list_of(Items::new(alloc), machine)?;
    for _time in 0..depth {
        list = list_around(alloc, list, machine)?;
    }
    Ok(list)
}
