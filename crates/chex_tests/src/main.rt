//! Calls of `chex`: the rows in `data` say how each ends, what it writes, and what the kernel, the
//! store and the listeners tell after it, over files that a table holds and devices that fail where
//! the row says so. They were worked out by hand from docs/FORMATS.md and docs/LANGUAGE.md. The
//! program writes a line for each row that differs, and how many rows agree.
#![tactic(auto)]

mod called;
mod cuts;
mod facts;
mod fault;
mod files;
mod rows;

use crate::cuts::difference_of_cuts;
use crate::files::files_of;
use crate::rows::difference;
use chex_base::{Calls, MemoryLibrary};
use std::{fs, io};

/// The tables of rows.
const TABLES: [&str; 6] = [
    "words.txt",
    "solo.txt",
    "run.txt",
    "devices.txt",
    "files_refused.txt",
    "cells_refused.txt",
];

fn main(rt: HostRuntime) -> io::Result<()> {
    let alloc = rt.alloc();
    let table = fs::read_to_string(&rt, "files.txt")?;
    let files = match files_of(alloc, table.as_str()) {
        Ok(files) => files,
        Err(fault) => return println!(rt; "files.txt: {fault:?}"),
    };
    let mut library = MemoryLibrary::new(files, Calls::new(alloc));
    match difference_of_cuts(alloc, &library) {
        Ok(None) => {}
        Ok(Some(what)) => println!(rt; "cuts: {what}")?,
        Err(fault) => println!(rt; "cuts: {fault:?}")?,
    }
    let mut agree: u64 = 0;
    for name in TABLES {
        let table = fs::read_to_string(&rt, name)?;
        for line in table.as_str().lines() {
            match difference(alloc, line, &mut library) {
                Ok(None) => agree = agree.saturating_add(1),
                Ok(Some(what)) => println!(rt; "{name}: {line}: {what}")?,
                Err(fault) => println!(rt; "{name}: {line}: {fault:?}")?,
            }
        }
    }
    println!(rt; "{agree} rows agree")
}
