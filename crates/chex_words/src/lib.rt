//! The words of the command line, as clap takes them.
#![tactic(auto)]

mod clap_commands;
mod command;
mod fault;
mod matched;
mod number;
mod read;

pub use command::{
    AuditWords, CheckWords, Command, MakeWords, PlanWords, ReplayWords, RunWords, SoloWords,
    StoreWords, TapWords,
};
pub use fault::WordsFault;
pub use read::read_words;
