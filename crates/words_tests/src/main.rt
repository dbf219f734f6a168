//! Words of the command line: the rows in `data` say what each list of words is read as. They were
//! written by hand from the rules of the commands and from clap's documentation. The program writes
//! a line for each row that differs, and how many rows agree.
#![tactic(auto)]

mod rows;
mod shown;

use crate::rows::difference;
use std::{fs, io};

fn main(rt: HostRuntime) -> io::Result<()> {
    let mut agree: u64 = 0;
    let table = fs::read_to_string(&rt, "words.txt")?;
    for line in table.as_str().lines() {
        match difference(rt.alloc(), line) {
            Ok(None) => agree = agree.saturating_add(1),
            Ok(Some(what)) => println!(rt; "{line}: {what}")?,
            Err(_) => println!(rt; "{line}: no memory")?,
        }
    }
    println!(rt; "{agree} rows agree")
}
