//! Calls to machines, to the pairs of dicts, and to operators over values: the rows in `data` say
//! what each call answers. They were worked out by hand from docs/LANGUAGE.md. The rows of machines
//! and of pairs are played one after the other over what the rows before them left, up to a line
//! without a tab, at which a new machine begins. The program writes a line for each row that
//! differs, and how many rows agree.
#![tactic(auto)]

mod dicts;
mod fault;
mod functions;
mod globals;
mod iteration;
mod keys;
mod kinds;
mod lists;
mod operators;
mod reads;
mod rows;
mod showing;
mod values;
mod words;
mod writes;

use crate::fault::Fault;
use crate::rows::{Played, play_machine, play_operators, play_pairs};
use std::{fs, io};

/// Writes the rows that differ, and answers how many agree.
fn shown(rt: &HostRuntime, name: &str, played: Result<Played, Fault>) -> io::Result<u64> {
    match played {
        Ok(played) => {
            for line in played.differing.as_str().lines() {
                println!(rt; "{name}: {line}")?;
            }
            Ok(played.agree)
        }
        Err(fault) => {
            println!(rt; "{name}: {fault:?}")?;
            Ok(0)
        }
    }
}

fn main(rt: HostRuntime) -> io::Result<()> {
    let mut agree: u64 = 0;
    for name in ["machines.txt", "gaps.txt"] {
        let table = fs::read_to_string(&rt, name)?;
        let more = shown(&rt, name, play_machine(rt.alloc(), table.as_str()))?;
        agree = agree.saturating_add(more);
    }
    let table = fs::read_to_string(&rt, "keys.txt")?;
    let more = shown(&rt, "keys.txt", play_pairs(rt.alloc(), table.as_str()))?;
    agree = agree.saturating_add(more);
    let table = fs::read_to_string(&rt, "operators.txt")?;
    let more = shown(
        &rt,
        "operators.txt",
        play_operators(rt.alloc(), table.as_str()),
    )?;
    agree = agree.saturating_add(more);
    println!(rt; "{agree} rows agree")
}
