//! The call that does what the words of the program ask for, over any files, any output, any kernel
//! and any store.
//!
//! [`chex`] reads the words, the files, the cells and the tree of versions, one stage after the
//! other, carries out what they call for, and writes what is due. `specs/Tasks.antt` says what is
//! carried out, and `specs/Ends.antt` how a call ends.
#![tactic(auto)]

mod alone;
mod asked;
mod bad_cell;
mod budget;
mod calling;
mod carrying;
mod checking;
mod decide;
mod decision;
mod files;
mod known;
mod nodes;
mod refusal;
mod saying;
mod stopped;
mod task;
mod version;

pub use calling::{Finish, chex};
