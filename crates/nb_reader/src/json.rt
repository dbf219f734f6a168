//! The JSON value that bytes are.
ghost use Rattle.std.specs.Prelude.{◌≡◌, ◌⊎◌, Some, None, IfOk, IfErr};
ghost use Rattle.serde_json.specs.View.{view};
ghost use Rattle.nb_reader.specs.Reading.{value_of};

use crate::NbFault;
use serde_json::Value;
use std::alloc::Global;

/// Reads a value. `NotJson` comes exactly where the bytes are not UTF-8 or `serde_json` states no
/// value for them, which includes values that stand in more than 127 others.
pub fn read_value(alloc: Global, bytes: &[u8]) -> Result<Value, NbFault>
    ensures value { IfOk result (λ v. value_of bytes.now ≡ Some (view v)) }
    ensures refused { IfErr result (λ e. (e ≡ NbFault.NoMemory) ⊎ ((e ≡ NbFault.NotJson) × (value_of bytes.now ≡ None))) }
{
    match Value::from_slice(alloc, bytes) {
        Ok(value) => Ok(value),
        Err(error) => {
            if error.is_memory() {
                Err(NbFault::NoMemory)
            } else {
                Err(NbFault::NotJson)
            }
        }
    }
}
