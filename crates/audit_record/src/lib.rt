//! The record that an audit leaves: the digest and the row of each node, and the step bound, as
//! one JSON text.
//!
//! `write_record` gives the text, `read_record` reads it back, and `fits` says whether a record is
//! one of these versions. `read_old` reads the version before. docs/FORMATS.md has the format.
#![tactic(auto)]

mod digesting;
mod fault;
mod fields;
mod fitting;
mod key_bytes;
mod reading;
mod recorded;
mod writing;

pub use fault::RecordFault;
pub use fitting::fits;
pub use reading::{read_old, read_record};
pub use recorded::{Digests, Recorded};
pub use writing::write_record;
