//! Rows of the outside and of the readers of files: real files in the folder `data`, whose lengths
//! and counts are written, and rows of readers and writers that give or take little at once, of
//! notebooks, manifests and inputs, and of the limits of files. The program writes a line for each
//! of these rows that differs, and how many agree.
#![tactic(auto)]

mod fault;
mod inputs;
mod readers;
mod rows;
mod streams;
mod words;

use crate::fault::Fault;
use crate::rows::{Played, Table, play, shown};
use chex_base::{FolderLibrary, Found, Library};
use std::{fs, io};

/// Names of files, and how many bytes of each are asked for.
const ROWS: [(&str, usize); 15] = [
    ("ten_thousand.txt", 16_777_217),
    ("ten_thousand.txt", 10_001),
    ("ten_thousand.txt", 10_000),
    ("ten_thousand.txt", 9_999),
    ("ten_thousand.txt", 4_096),
    ("ten_thousand.txt", 4_097),
    ("ten_thousand.txt", 0),
    ("empty.txt", 10),
    ("folder/inner.txt", 16_777_217),
    ("./folder/../folder/inner.txt", 3),
    ("folder", 10),
    ("missing.txt", 10),
    ("ten_thousand.txt/b", 10),
    ("missing/b.txt", 10),
    ("folder/missing.txt", 0),
];

/// The tables, and what their rows ask.
const TABLES: [(&str, Table); 8] = [
    ("notebooks.txt", Table::Notebooks),
    ("manifests.txt", Table::Manifests),
    ("inputs.txt", Table::Inputs),
    ("limits.txt", Table::Limits),
    ("prefixes.txt", Table::Prefixes),
    ("pieces.txt", Table::Pieces),
    ("copies.txt", Table::Copies),
    ("lines.txt", Table::Lines),
];

/// Notebooks as tools write them. Their sources are written in brackets.
const NOTEBOOKS: [&str; 3] = ["jupyter.ipynb", "code.ipynb", "colab.ipynb"];

fn main(rt: HostRuntime) -> io::Result<()> {
    read_files(&rt)?;
    read_notebooks(&rt)?;
    let mut agree: u64 = 0;
    for (name, table) in TABLES {
        let text = fs::read_to_string(&rt, name)?;
        let more = told(&rt, name, play(rt.alloc(), table, text.as_str()))?;
        agree = agree.saturating_add(more);
    }
    println!(rt; "{agree} rows agree")
}

/// Writes the rows that differ, and answers how many agree.
fn told(rt: &HostRuntime, name: &str, played: Result<Played, Fault>) -> io::Result<u64> {
    match played {
        Ok(played) => {
            for line in played.differing.as_str().lines() {
                println!(rt; "{name}: {line}")?;
            }
            Ok(played.agree)
        }
        Err(fault) => {
            println!(rt; "{name}: {fault:?}")?;
            Ok(0)
        }
    }
}

/// Writes the sources of each notebook.
fn read_notebooks(rt: &HostRuntime) -> io::Result<()> {
    for name in NOTEBOOKS {
        let text = fs::read_to_string(rt, name)?;
        match shown(rt.alloc(), Table::Notebooks, text.as_str()) {
            Ok(sources) => println!(rt; "{name}: {}", sources.as_str())?,
            Err(fault) => println!(rt; "{name}: {fault:?}")?,
        }
    }
    Ok(())
}

/// Reads each row from the current folder, and writes what was found and the counts after it.
fn read_files(rt: &HostRuntime) -> io::Result<()> {
    let alloc = rt.alloc();
    let mut library = FolderLibrary::new(rt);
    for (name, most) in ROWS {
        let found = library.read(alloc, name, most);
        let (faults, absences) = (library.faults(), library.absences());
        match found {
            Found::Bytes(bytes) => {
                let (count, sum) = (bytes.len(), sum_of(bytes.as_slice()));
                println!(rt;
                    "{name} up to {most}: {count} bytes of sum {sum}; faults {faults}, absences {absences}"
                )?;
            }
            Found::Absent => {
                println!(rt; "{name} up to {most}: absent; faults {faults}, absences {absences}")?
            }
            Found::Failed => {
                println!(rt; "{name} up to {most}: failed; faults {faults}, absences {absences}")?
            }
            Found::NoMemory => println!(rt; "{name} up to {most}: no memory")?,
        }
    }
    Ok(())
}

/// The sum of bytes, as far as 2^64.
fn sum_of(bytes: &[u8]) -> u64 {
    let mut sum: u64 = 0;
    for byte in bytes {
        sum = sum.wrapping_add(u64::from(*byte));
    }
    sum
}
