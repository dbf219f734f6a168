//! Plans: the rows in `data` say which costs are sound, what plans cost and how they are carried out
//! and written, which plans are least, and what texts of plans are judged as. They were worked out
//! by hand from docs/FORMATS.md. Least plans of small trees are compared with all plans of them, and
//! those of wrong planners with the least ones. The program writes a line for each row that
//! differs, and how many rows agree.
#![tactic(auto)]

mod all_plans;
mod class;
mod costs;
mod fault;
mod made;
mod measures;
mod planned;
mod rows;
mod verdicts;
mod words;

use crate::fault::Fault;
use crate::rows::{Played, Table, play};
use std::{fs, io};

/// The tables, and what their rows ask.
const TABLES: [(&str, Table); 7] = [
    ("sound.txt", Table::Sound),
    ("plans.txt", Table::Plans),
    ("least.txt", Table::Least),
    ("long.txt", Table::Long),
    ("texts.txt", Table::Texts),
    ("wrong.txt", Table::Wrong),
    ("all_plans.txt", Table::AllPlans),
];

/// Writes the rows that differ, and answers how many agree.
fn shown(rt: &HostRuntime, name: &str, played: Result<Played, Fault>) -> io::Result<u64> {
    match played {
        Ok(played) => {
            for line in played.differing.as_str().lines() {
                println!(rt; "{name}: {line}")?;
            }
            Ok(played.agree)
        }
        Err(fault) => {
            println!(rt; "{name}: {fault:?}")?;
            Ok(0)
        }
    }
}

fn main(rt: HostRuntime) -> io::Result<()> {
    let mut agree: u64 = 0;
    for (name, table) in TABLES {
        let text = fs::read_to_string(&rt, name)?;
        let more = shown(&rt, name, play(rt.alloc(), table, text.as_str()))?;
        agree = agree.saturating_add(more);
    }
    println!(rt; "{agree} rows agree")
}
