//! The files that a user hands in, read from JSON: a notebook, an inputs file and a manifest of
//! versions.
//!
//! Each reading is a function of the JSON value that `serde_json` states for the bytes, and each
//! refusal comes exactly where docs/FORMATS.md names it first. Beside that, only want of memory
//! is answered.
#![tactic(auto)]

mod entries;
mod fault;
mod inputs;
mod json;
mod manifest;
mod notebook;
mod sources;

pub use entries::Entries;
pub use fault::{Counted, NbFault};
pub use inputs::read_inputs;
pub use manifest::{Entry, Manifest, read_manifest};
pub use notebook::read_notebook;
pub use sources::Sources;
