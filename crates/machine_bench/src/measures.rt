//! What is measured.
ghost use Rattle.std.specs.Prelude.{IfOk, IsTrue, OnOk};
ghost use Rattle.star_builtins.specs.Reached.{AllFit, Fits, HasRoom};
ghost use Rattle.star_meaning.specs.Validity.{MachineState, all_in, is_proper};

use chex_base::{NodeId, Text};
use heap_store::{Machine, Pairs, iterated};
use sqlite_items::Items;
use star_builtins::{Call, call_builtin, new_dict, new_list, store};
use star_syntax::{Cells, Program};
use star_value::{Builtin, Failure, Meter, Stop, Value, Values};
use std::alloc::Global;

/// Stores integers at so many keys of a dict, and answers how many pairs it then has.
pub fn puts(alloc: Global, count: u32) -> Result<u128, Stop> {
    let mut machine = entered(alloc)?;
    check_room(&machine)?;
    let dict = new_dict(Pairs::new(alloc), &mut machine)?;
    let mut meter = Meter { left: u64::MAX };
    for number in 0..count {
        let key = integer(i128::from(number));
        let value = integer(i128::from(number));
        store(alloc, &[], &dict, key, value, &mut machine, &mut meter)?;
    }
    Ok(iterated::count(&dict, &machine).unwrap_or(0))
}

/// Sorts so many integers in no order, and answers how many the sorted list has.
pub fn sort(alloc: Global, count: u32) -> Result<u128, Stop> {
    let mut machine = entered(alloc)?;
    check_room(&machine)?;
    let list = new_list(integers(alloc, count)?, &mut machine)?;
    let mut positional = Items::new(alloc);
    positional.push(list)?;
    let call = Call {
        positional,
        named: Items::new(alloc),
    };
    let program = Program {
        cells: Cells::from_vec(Vec::new(alloc)),
    };
    let mut meter = Meter { left: u64::MAX };
    let mut out = Text::new(alloc);
    check_room(&machine)?;
    let sorted = call_builtin(
        alloc,
        Builtin::Sorted,
        call,
        &program,
        &mut machine,
        &mut meter,
        &mut out,
    )?;
    Ok(iterated::count(&sorted, &machine).unwrap_or(0))
}

/// A machine in which the cell of node 1 runs.
fn entered(alloc: Global) -> Result<Machine, Stop>
    ensures { IfOk result (λ m. IsTrue (all_in is_proper m.state)) }
{
    let mut machine = Machine::new(alloc);
    machine.enter(NodeId(1))?;
    Ok(machine)
}

/// One more object may be made.
fn check_room(machine: &Machine) -> Result<(), Stop>
    ensures { OnOk result (HasRoom machine.now) }
{
    if machine.ran().len() == 1 && machine.objects() < 1_000_000 {
        Ok(())
    } else {
        Err(Stop::Failure(Failure::StepLimit))
    }
}

/// An integer may stand in any machine.
fn integer(number: i128) -> Value
    ensures { (m : MachineState) → Fits m result }
{
    Value::Int(number)
}

/// So many integers, far from sorted.
#[tactic(auto, using(crate::proofs::Fitting::none_fit, crate::proofs::Fitting::push_fits))]
fn integers(alloc: Global, count: u32) -> Result<Values, Stop>
    ensures { IfOk result (λ values. (m : MachineState) → AllFit m values) }
{
    let mut values = Items::new(alloc);
    let mut next: u32 = 1;
    for _number in 0..count {
        next = next.wrapping_mul(1_664_525).wrapping_add(1_013_904_223);
        values.push(integer(i128::from(next)))?;
    }
    Ok(values)
}
