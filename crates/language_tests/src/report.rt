//! What is found by the checks that stand in the code.

use crate::fault::Fault;
use std::alloc::Global;

/// How many checks agree, and a line for each that does not.
#[derive(Drop)]
pub struct Report {
    pub agree: u64,
    pub differ: String,
}

impl Report {
    pub fn new(alloc: Global) -> Report {
        Report {
            agree: 0,
            differ: String::new(alloc),
        }
    }

    /// Takes in one check by its name.
    pub fn note(&mut self, name: &str, agrees: bool) -> Result<(), Fault> {
        if agrees {
            self.agree = self.agree.saturating_add(1);
        } else {
            self.differ.push_str(name)?;
            self.differ.push_str(" differs\n")?;
        }
        Ok(())
    }
}
