//! The eight operators that compare two values.
ghost use Rattle.star_builtins.specs.Reached.{Fits, store};
ghost use Rattle.star_meaning.specs.Comparing as spec;
ghost use Rattle.star_meaning.specs.Steps.{Gives};

use crate::membership::within;
use crate::order::{Holds, equal, in_order};
use heap_store::Machine;
use star_syntax::CompareOp;
use star_value::{Meter, Stop, Value};
use std::alloc::Global;

const LESS: Holds = Holds {
    before: true,
    same: false,
    after: false,
};

const GREATER: Holds = Holds {
    before: false,
    same: false,
    after: true,
};

const AT_MOST: Holds = Holds {
    before: true,
    same: true,
    after: false,
};

const AT_LEAST: Holds = Holds {
    before: false,
    same: true,
    after: true,
};

/// Whether an operator that compares holds of two values. `docs/LANGUAGE.md` says which values each
/// operator takes and what is charged.
///
/// Each pair of values that is looked at takes a step, and a pair of texts also the shorter length;
/// a key that is looked up takes its weight. The call fails with StepLimit where too few steps are
/// left, with TooDeep where containers are walked inside 64 others, with WrongType where the
/// operator does not take the values, and with Unhashable where a value that is no key is looked up
/// in a dict. It takes memory only for the key that is looked up.
#[tactic(auto, using(crate::proofs::Ordered::operators))]
pub fn compare(
    alloc: Global,
    op: CompareOp,
    left: &Value,
    right: &Value,
    machine: &Machine,
    meter: &mut Meter,
) -> Result<bool, Stop>
    requires left { Fits machine.now left.now }
    requires right { Fits machine.now right.now }
    ensures gives { Gives (spec.compare op left.now right.now (store machine.now meter.old.left)) result (store machine.now meter.new.left) }
{
    match op {
        CompareOp::Equal => Ok(equal(left, right, machine, meter)?),
        CompareOp::NotEqual => Ok(!equal(left, right, machine, meter)?),
        CompareOp::Less => Ok(in_order(LESS, left, right, machine, meter)?),
        CompareOp::Greater => Ok(in_order(GREATER, left, right, machine, meter)?),
        CompareOp::AtMost => Ok(in_order(AT_MOST, left, right, machine, meter)?),
        CompareOp::AtLeast => Ok(in_order(AT_LEAST, left, right, machine, meter)?),
        CompareOp::Within => within(alloc, left, right, machine, meter),
        CompareOp::NotWithin => Ok(!within(alloc, left, right, machine, meter)?),
    }
}
