//! Measures snapshots: `codec_bench TASK COUNT`. Each task makes the bytes of a state of so many
//! lists, which hold a text of 470 code points each, and of one list of them all. The task `make`
//! does no more; `read` reads the machine of these bytes; `write` reads it, counts its bytes and
//! writes them again. docs/PERFORMANCE.md has the commands.
#![tactic(auto)]

mod bytes;
mod fault;
mod measures;

use measures::{Task, measured};
use std::{env, io};

fn main(rt: HostRuntime) -> io::Result<()> {
    let alloc = rt.alloc();
    let mut words = Vec::new(alloc);
    for word in env::args(&rt)?.skip(1) {
        words.push(word)?;
    }
    match measured(alloc, task(&words), number(&words, 1)) {
        Ok(answer) => println!(rt; "{answer}")?,
        Err(_) => println!(rt; "no memory, or no snapshot")?,
    }
    Ok(())
}

/// The task of the first word; all but `read` and `write` is `make`.
fn task(words: &[String]) -> Task {
    match words.first() {
        Some(word) if word.as_str() == "read" => Task::Read,
        Some(word) if word.as_str() == "write" => Task::Write,
        _ => Task::Make,
    }
}

/// The number that a word is; a word that is missing or no number counts as 0.
fn number(words: &[String], at: usize) -> u32 {
    match words.get(at) {
        Some(word) => word.parse::<u32>().unwrap_or(0),
        None => 0,
    }
}
