//! Inputs that many nodes share.
ghost use Rattle.std.specs.Prelude.{◌≡◌, IfOk};

use chex_base::{Inputs, NoMemory};
use std::alloc::Global;
use std::marker::Model;
use std::rc::Rc;

/// The inputs of a version, held by each node that the version was the first to reach. Contracts
/// see the inputs.
#[derive(Drop)]
pub struct SharedInputs {
    inputs: Rc<Inputs>,
}

impl Model for SharedInputs {
    ghost use Rattle.std.specs.Prelude.{ℕ, List};
    ghost use Rattle.chex_base.specs.declared.input.Input.{Input};

    ghost Value = { List (List ℕ × Input) };

    ghost view = { λ shared. shared.inputs.value };
}

impl SharedInputs {
    /// Inputs equal to these.
    pub fn of(alloc: Global, inputs: &Inputs) -> Result<SharedInputs, NoMemory>
        ensures { IfOk result (λ shared. shared ≡ inputs.now) }
    {
        Ok(SharedInputs {
            inputs: Rc::new(alloc, inputs.copy(alloc)?)?,
        })
    }

    /// The same inputs, held once more: they are not copied. Fails where they are held too often.
    pub fn share(&self) -> Result<SharedInputs, NoMemory>
        ensures { IfOk result (λ shared. shared ≡ self.now) }
    {
        Ok(SharedInputs {
            inputs: self.inputs.clone()?,
        })
    }

    /// The inputs. It takes no memory.
    pub fn get(&self) -> &Inputs
        ensures { result.now ≡ self.now }
    {
        &self.inputs
    }
}
