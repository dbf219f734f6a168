//! Calls of built-in functions and methods, and stores: the rows in `data` say what each answers,
//! charges and leaves. They were worked out by hand from docs/LANGUAGE.md. The program writes a line
//! for each row that differs, and how many rows agree.
#![tactic(auto)]

mod calls;
mod fault;
mod names;
mod objects;
mod rows;
mod trees;

use crate::rows::difference;
use std::alloc::Global;
use std::{fs, io};

/// The tables, and whether what a call is over is locked.
const TABLES: [(&str, bool); 6] = [
    ("builtins.txt", false),
    ("texts.txt", false),
    ("lists.txt", false),
    ("dicts.txt", false),
    ("stores.txt", false),
    ("locked.txt", true),
];

fn main(rt: HostRuntime) -> io::Result<()> {
    let mut agree: u64 = 0;
    for (name, locked) in TABLES {
        let table = fs::read_to_string(&rt, name)?;
        for line in table.as_str().lines() {
            match difference(rt.alloc(), line, locked) {
                Ok(None) => agree = agree.saturating_add(1),
                Ok(Some(what)) => println!(rt; "{name}: {line}: {what}")?,
                Err(fault) => println!(rt; "{name}: {line}: {fault:?}")?,
            }
        }
    }
    println!(rt; "{agree} rows agree")
}
