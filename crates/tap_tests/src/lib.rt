//! Listeners, made versions and the summary, with texts that were worked out by hand or by another
//! program.
//!
//! They stand apart, since a crate that has tests is proved twice, once without them and once with
//! them.
#![tactic(auto)]

#[cfg(test)]
mod listeners;
#[cfg(test)]
mod summaries;
#[cfg(test)]
mod versions;
