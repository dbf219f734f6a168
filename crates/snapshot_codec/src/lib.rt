//! Machines as bytes and back. A snapshot holds what the globals of a machine reach, numbered in the
//! order in which objects are met, so alike machines have the same bytes. The format stands in
//! docs/FORMATS.md, "Snapshots".
#![tactic(auto)]

mod build;
mod content;
mod encoding;
mod fault;
mod fields;
mod measures;
mod meeting;
mod numbers;
mod objects;
mod parts;
mod reading;
mod refers;
mod snapshot;
mod stop;
mod tag;
mod values;
mod writing;

pub use encoding::encode;
pub use fault::SnapFault;
pub use measures::size;
pub use snapshot::decode;
