//! Charges of what values weigh, part by part, so that a sum never has to be made.
ghost use Rattle.std.specs.Prelude.{◌≡◌, map};
ghost use Rattle.star_value.specs.Charge.{charged};
ghost use Rattle.star_value.specs.Keys.{value_of};
ghost use Rattle.star_value.specs.Weight.{weight, sum_of_weights};

use star_value::{Failure, Key, Meter, Value};

/// Charges the weight of a value. It takes no memory, and stops where no steps are left.
#[cycle(charges)]
#[tactic(auto, using(crate::proofs::ChargeLemmas::parts))]
pub fn charge_weight(value: &Value, meter: &mut Meter) -> Result<(), Failure>
    ensures { charged meter.old.left (weight value.now) ≡ (result, meter.new.left) }
{
    match value {
        Value::Text(text) => meter.charge(text.len() as u64 + 1),
        Value::Tuple(items) => {
            meter.charge(1)?;
            charge_items(items.as_slice(), meter)
        }
        Value::None => meter.charge(1),
        Value::Bool(_) => meter.charge(1),
        Value::Int(_) => meter.charge(1),
        Value::Range(_) => meter.charge(1),
        Value::List(_) => meter.charge(1),
        Value::Dict(_) => meter.charge(1),
        Value::Function(_) => meter.charge(1),
        Value::Builtin(_) => meter.charge(1),
    }
}

/// Charges the weights of these values.
#[cycle(charges)]
#[tactic(auto, using(crate::proofs::ChargeLemmas::parts))]
pub fn charge_items(values: &[Value], meter: &mut Meter) -> Result<(), Failure>
    ensures { charged meter.old.left (sum_of_weights values.now) ≡ (result, meter.new.left) }
{
    for value in values {
        charge_weight(value, meter)?;
    }
    Ok(())
}

/// Charges the weight of the value that a key is. It takes no memory, and stops where no steps are
/// left.
#[cycle(key)]
#[tactic(auto, using(crate::proofs::Charged::weights))]
pub fn charge_key(key: &Key, meter: &mut Meter) -> Result<(), Failure>
    ensures { charged meter.old.left (weight (value_of key.now)) ≡ (result, meter.new.left) }
{
    match key {
        Key::Tuple(parts) => {
            meter.charge(1)?;
            charge_keys(parts.as_slice(), meter)
        }
        Key::Text(text) => meter.charge(text.len() as u64 + 1),
        Key::None => meter.charge(1),
        Key::Bool(_) => meter.charge(1),
        Key::Int(_) => meter.charge(1),
    }
}

/// Charges the weights of the values that these keys are.
#[cycle(key)]
#[tactic(auto, using(crate::proofs::Charged::charges))]
fn charge_keys(keys: &[Key], meter: &mut Meter) -> Result<(), Failure>
    ensures { charged meter.old.left (sum_of_weights (map value_of keys.now)) ≡ (result, meter.new.left) }
{
    for key in keys {
        charge_key(key, meter)?;
    }
    Ok(())
}
