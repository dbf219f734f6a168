//! Listeners to a replay. Each operation is told to every listener after it was done; one that
//! refuses it is told no more, and the replay goes on without it.
//!
//! `Taps` holds the listeners. `Transcript` reports the lines of the operations, `Tally` how many
//! there were, and `Chain` a digest of them; `FailingTap` is for tests.
#![tactic(auto)]

mod chain;
mod failing_tap;
mod lines;
mod tally;
mod tap;
mod taps;
mod transcript;

pub use chain::Chain;
pub use failing_tap::FailingTap;
pub use tally::Tally;
pub use tap::{Tap, TapFault};
pub use taps::Taps;
pub use transcript::Transcript;
