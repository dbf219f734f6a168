//! The steps that are left.
ghost use Rattle.std.specs.Prelude.{◌≡◌};
ghost use Rattle.star_value.specs.Charge as spec;

use crate::Failure;

/// How many steps the cell may still take.
#[derive(Debug, Drop)]
pub struct Meter {
    pub left: u64,
}

impl Meter {
    /// Takes so many steps from those that are left. Where fewer are left it answers StepLimit, and
    /// none are left then. It takes no memory.
    pub fn charge(&mut self, count: u64) -> Result<(), Failure>
        ensures { spec.charged self.old.left count ≡ (result, self.new.left) }
    {
        if self.left < count {
            self.left = 0;
            return Err(Failure::StepLimit);
        }
        self.left -= count;
        Ok(())
    }
}
