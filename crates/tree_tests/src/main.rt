//! Merged versions and cut trees: the rows in `data` say what a tree looks like. They were worked
//! out by hand from docs/FORMATS.md. The rows are played one after the other over the tree of the
//! last versions that were merged. The program writes a line for each row that differs, and how many
//! rows agree.
#![tactic(auto)]

mod cells;
mod fault;
mod looks;
mod rows;
mod versions;

use crate::rows::play;
use std::{fs, io};

fn main(rt: HostRuntime) -> io::Result<()> {
    let table = fs::read_to_string(&rt, "trees.txt")?;
    match play(rt.alloc(), table.as_str()) {
        Ok(played) => {
            print!(rt; "{}", played.differing.as_str())?;
            println!(rt; "{} rows agree", played.agree)
        }
        Err(fault) => println!(rt; "{fault:?}"),
    }
}
