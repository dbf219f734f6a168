//! Shared runs of small versions over the kernel that runs the language and a store in memory. Their
//! texts and numbers were worked out by hand from docs/LANGUAGE.md and docs/FORMATS.md. The program
//! writes for each case what each version prints, a line for each node of the merged tree, and then
//! the steps and the blocks.
#![tactic(auto)]

mod cases;
mod fault;
mod playing;
mod versions;

use crate::cases::CASES;
use crate::playing::play;
use std::io;

fn main(rt: HostRuntime) -> io::Result<()> {
    for case in &CASES {
        match play(rt.alloc(), case) {
            Ok(shown) => print!(rt; "{}", shown.as_str())?,
            Err(fault) => println!(rt; "{}: {fault:?}", case.name)?,
        }
    }
    Ok(())
}
