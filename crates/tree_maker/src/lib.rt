//! Versions that a number makes, to try a replay on: a few texts of cells and many shared
//! prefixes, the same at each run and on each machine.
//!
//! The rule is in docs/FORMATS.md. `specs/Generator.antt` states it over the generator's words.
#![tactic(auto)]

mod cells;
mod draws;
mod maker;
mod sources;
mod version;

pub use maker::make;
pub use sources::Sources;
pub use version::{Version, Versions};
