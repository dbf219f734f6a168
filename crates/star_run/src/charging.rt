//! Charges of results, of which 1 is paid already.
ghost use Rattle.std.specs.Prelude.{◌≡◌, ◌≤◌, ◌-◌};
ghost use Rattle.star_builtins.specs.Taken.{GivesCharged};
ghost use Rattle.star_value.specs.Charge.{charged};
ghost use Rattle.star_value.specs.Weight.{weight};

use star_builtins::charge_items;
use star_value::{Failure, Meter, Stop, Value};
use std::alloc::Global;

/// Takes the weight of a result less 1.
#[tactic(auto, using(crate::proofs::ChargeLemmas::rests))]
pub fn rest_charged(value: &Value, meter: &mut Meter) -> Result<(), Failure>
    ensures { charged meter.old.left (weight value.now - 1) ≡ (result, meter.new.left) }
{
    match value {
        Value::Text(text) => meter.charge(text.len() as u64),
        Value::Tuple(items) => charge_items(items.as_slice(), meter),
        Value::None => Ok(()),
        Value::Bool(_) => Ok(()),
        Value::Int(_) => Ok(()),
        Value::Range(_) => Ok(()),
        Value::List(_) => Ok(()),
        Value::Dict(_) => Ok(()),
        Value::Function(_) => Ok(()),
        Value::Builtin(_) => Ok(()),
    }
}

/// An equal value, of whose weight all but 1 is taken before it is copied.
#[tactic(auto, using(crate::proofs::ChargeLemmas::charged_spends))]
pub fn paid_copy(alloc: Global, value: &Value, meter: &mut Meter) -> Result<Value, Stop>
    ensures gives { GivesCharged (charged meter.old.left (weight value.now - 1)) value.now result meter.new.left }
    ensures spent { meter.new.left ≤ meter.old.left }
{
    rest_charged(value, meter)?;
    Ok(value.copy(alloc)?)
}
