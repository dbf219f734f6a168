//! The language: the rows in `data` say which tokens a source has, which tree tokens spell, what is
//! misplaced in a cell, and what texts and values answer. They were worked out by hand from
//! docs/LANGUAGE.md. The program writes a line for each row that differs, and how many rows agree.
//!
//! It is a program, and its rows are data, since a crate that has tests is proved twice, once
//! without them and once with them.
#![tactic(auto)]

mod fault;
mod long_sources;
mod parser;
mod placement;
mod ranges;
mod report;
mod rows;
mod texts;
mod tokens;
mod trees;
mod values;

use crate::fault::Fault;
use crate::report::Report;
use crate::rows::{Table, difference};
use std::alloc::Global;
use std::{fs, io};

/// The tables, and what their rows ask.
const TABLES: [(&str, Table); 9] = [
    ("tokens.txt", Table::Tokens),
    ("counts.txt", Table::Counts),
    ("trees.txt", Table::Trees),
    ("shapes.txt", Table::Shapes),
    ("spelling.txt", Table::Spelling),
    ("placement.txt", Table::Placement),
    ("texts.txt", Table::Texts),
    ("ranges.txt", Table::Ranges),
    ("values.txt", Table::Values),
];

/// The rows that no table can hold: long sources, parts of cells, the order of keys, and charges.
fn check(alloc: Global, report: &mut Report) -> Result<(), Fault> {
    long_sources::check(alloc, report)?;
    placement::check(alloc, report)?;
    trees::check(alloc, report)?;
    values::check(alloc, report)
}

fn main(rt: HostRuntime) -> io::Result<()> {
    let mut report = Report::new(rt.alloc());
    for (name, table) in TABLES {
        let text = fs::read_to_string(&rt, name)?;
        for line in text.as_str().lines() {
            if !line.contains('\t') {
                continue;
            }
            match difference(rt.alloc(), table, line) {
                Ok(None) => report.agree = report.agree.saturating_add(1),
                Ok(Some(found)) => println!(rt; "{name}: {line}: {found}")?,
                Err(fault) => println!(rt; "{name}: {line}: {fault:?}")?,
            }
        }
    }
    if let Err(fault) = check(rt.alloc(), &mut report) {
        println!(rt; "{fault:?}")?;
    }
    print!(rt; "{}", report.differ.as_str())?;
    let agree = report.agree;
    println!(rt; "{agree} rows agree")
}
