//! Records: the rows in `data` say what is read of a record and whether it is one of the versions,
//! or why it is refused. They were worked out from docs/FORMATS.md apart from this program, with
//! another program's SHA-256. The program writes a line for each row that differs, and how many
//! rows agree; and it writes a record again, and cuts it after each of its bytes.
#![tactic(auto)]

mod cells;
mod fault;
mod forests;
mod rows;
mod shown;

use crate::fault::Fault;
use crate::forests::{pair, reader};
use crate::rows::{difference, whole};
use exec_tree::Forest;
use std::{fs, io};

fn main(rt: HostRuntime) -> io::Result<()> {
    let alloc = rt.alloc();
    let inputs = fs::read_to_string(&rt, "inputs.json")?;
    let table = fs::read_to_string(&rt, "records.txt")?;
    let record = fs::read_to_string(&rt, "record.txt")?;
    let (Ok(pair), Ok(reader)) = (pair(alloc), reader(alloc, inputs.as_str().as_bytes())) else {
        return println!(rt; "no versions");
    };
    match whole(alloc, record.as_str().as_bytes(), &pair) {
        Ok(None) => println!(rt; "the record is written so")?,
        Ok(Some(found)) => println!(rt; "record.txt: {found}")?,
        Err(fault) => println!(rt; "record.txt: {fault:?}")?,
    }
    let mut agree: u64 = 0;
    for line in table.as_str().lines() {
        match difference(alloc, line, &pair, &reader) {
            Ok(None) => agree = agree.saturating_add(1),
            Ok(Some(found)) => println!(rt; "{line}: {found}")?,
            Err(fault) => println!(rt; "{line}: {fault:?}")?,
        }
    }
    println!(rt; "{agree} rows agree")
}
