//! Kernels that run cells.
//!
//! `StarKernel` runs the cells of its program over a machine and never fails. `FailingKernel` is
//! one that fails at listed calls, for tests. `specs/Kernels.antt` says what a `StarKernel` has
//! loaded and which state is live, and `specs/Failing.antt` which calls of a `FailingKernel` fail.
#![tactic(auto)]

mod failing_kernel;
mod laws;
mod restoring;
mod saving;
mod star_kernel;

pub use failing_kernel::FailingKernel;
pub use laws::restored_states_are_alike;
pub use star_kernel::StarKernel;
