//! Snapshots: the rows in `data` say which machine bytes are read as over a program of three cells,
//! or which fault they have. They were worked out by hand from docs/FORMATS.md. The program writes
//! a line for each row that differs, and how many rows agree.
#![tactic(auto)]

mod cells;
mod fault;
mod rows;
mod shown;
mod spelled;

use crate::cells::cell;
use crate::rows::difference;
use star_syntax::{Cells, Program};
use std::{fs, io};

/// The sources of the program's cells, in order of their nodes.
const SOURCES: [&str; 3] = ["cell_1.txt", "cell_2.txt", "cell_3.txt"];

fn main(rt: HostRuntime) -> io::Result<()> {
    let mut cells = Vec::new(rt.alloc());
    for name in SOURCES {
        let source = fs::read_to_string(&rt, name)?;
        match cell(rt.alloc(), source.as_str()) {
            Ok(cell) => cells.push(cell)?,
            Err(fault) => println!(rt; "{name}: {fault:?}")?,
        }
    }
    let program = Program {
        cells: Cells::from_vec(cells),
    };
    let mut agree: u64 = 0;
    let table = fs::read_to_string(&rt, "snapshots.txt")?;
    for line in table.as_str().lines() {
        match difference(rt.alloc(), line, &program) {
            Ok(None) => agree = agree.saturating_add(1),
            Ok(Some(found)) => println!(rt; "{line}: {found}")?,
            Err(fault) => println!(rt; "{line}: {fault:?}")?,
        }
    }
    println!(rt; "{agree} rows agree")
}
