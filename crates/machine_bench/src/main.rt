//! Measures the machine: `machine_bench TASK COUNT`. Of the task `puts` it stores so many integers in
//! a dict, each at a key of its own; of the task `sort` it sorts a list of so many.
//! docs/PERFORMANCE.md has the commands.
#![tactic(auto)]

mod measures;

use measures::{puts, sort};
use star_value::Stop;
use std::{env, io};

fn main(rt: HostRuntime) -> io::Result<()> {
    let alloc = rt.alloc();
    let mut words = Vec::new(alloc);
    for word in env::args(&rt)?.skip(1) {
        words.push(word)?;
    }
    let count = number(&words, 1);
    let answer = if is_sort(&words) {
        sort(alloc, count)
    } else {
        puts(alloc, count)
    };
    match answer {
        Ok(kept) => println!(rt; "{kept} kept")?,
        Err(Stop::NoMemory) => println!(rt; "no memory")?,
        Err(Stop::Failure(_)) => println!(rt; "failed")?,
    }
    Ok(())
}

fn is_sort(words: &[String]) -> bool {
    match words.first() {
        Some(task) => task.as_str() == "sort",
        None => false,
    }
}

/// The number that a word is; a word that is missing or no number counts as 0.
fn number(words: &[String], at: usize) -> u32 {
    match words.get(at) {
        Some(word) => word.parse::<u32>().unwrap_or(0),
        None => 0,
    }
}
