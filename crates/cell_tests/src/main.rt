//! Cells that run: the rows in `data` say what versions write, and how many steps each of their
//! cells takes. They were worked out by hand from docs/LANGUAGE.md. The program writes a line for
//! each row that differs, and how many rows agree.
#![tactic(auto)]

mod fault;
mod inputs;
mod rows;
mod sources;
mod versions;

use crate::rows::{Table, difference};
use std::{fs, io};

/// The tables, and what their rows say.
const TABLES: [(&str, Table); 10] = [
    ("operators.txt", Table::Versions),
    ("builtins.txt", Table::Versions),
    ("methods.txt", Table::Versions),
    ("tables.txt", Table::Versions),
    ("statements.txt", Table::Versions),
    ("calls.txt", Table::Versions),
    ("comprehensions.txt", Table::Versions),
    ("versions.txt", Table::Versions),
    ("allowed.txt", Table::Allowed),
    ("long.txt", Table::Versions),
];

fn main(rt: HostRuntime) -> io::Result<()> {
    let mut agree: u64 = 0;
    for (name, kind) in TABLES {
        let table = fs::read_to_string(&rt, name)?;
        for line in table.as_str().lines() {
            match difference(rt.alloc(), line, kind) {
                Ok(None) => agree = agree.saturating_add(1),
                Ok(Some(what)) => println!(rt; "{name}: {line}: {what}")?,
                Err(fault) => println!(rt; "{name}: {line}: {fault:?}")?,
            }
        }
    }
    println!(rt; "{agree} rows agree")
}
