//! Calls to kernels and their stores: the rows in `data` say what each call answers, and what the
//! kernel and the store tell after it. They were worked out by hand from docs/LANGUAGE.md and
//! docs/FORMATS.md. The rows of a table are played one after the other over one kernel and one
//! store. The program writes a line for each row that differs, and how many rows agree.
#![tactic(auto)]

mod calls;
mod fault;
mod programs;
mod rows;
mod told;

use crate::fault::Fault;
use crate::rows::{Played, play};
use chex_base::{Calls, NoMemory};
use snap_store::{BlockStore, FailingStore};
use star_kernel::{FailingKernel, StarKernel};
use std::alloc::Global;
use std::{fs, io};

/// A table that is played over a kernel and a store that fail at these calls.
struct Failing {
    table: &'static str,
    kernel: &'static [u64],
    store: &'static [u64],
}

const FAILING: [Failing; 4] = [
    Failing {
        table: "none_fails.txt",
        kernel: &[],
        store: &[],
    },
    Failing {
        table: "load_fails.txt",
        kernel: &[1],
        store: &[],
    },
    Failing {
        table: "each_fails.txt",
        kernel: &[2, 4, 6],
        store: &[],
    },
    Failing {
        table: "store_fails.txt",
        kernel: &[],
        store: &[2],
    },
];

fn listed(alloc: Global, numbers: &[u64]) -> Result<Calls, NoMemory> {
    let mut calls = Calls::new(alloc);
    for number in numbers {
        calls.add(*number)?;
    }
    Ok(calls)
}

/// Plays a table over a kernel and a store in memory that never fail.
fn without_failures(alloc: Global, table: &str) -> Result<Played, Fault> {
    let mut kernel = StarKernel::new(alloc);
    let mut store = BlockStore::new(alloc);
    play(alloc, &mut kernel, &mut store, table)
}

fn with_failures(alloc: Global, case: &Failing, table: &str) -> Result<Played, Fault> {
    let mut kernel = FailingKernel::new(alloc, listed(alloc, case.kernel)?);
    let mut store = FailingStore::new(alloc, listed(alloc, case.store)?);
    play(alloc, &mut kernel, &mut store, table)
}

/// Writes the rows that differ, and answers how many agree.
fn shown(rt: &HostRuntime, name: &str, played: Result<Played, Fault>) -> io::Result<u64> {
    match played {
        Ok(played) => {
            for line in played.differing.as_str().lines() {
                println!(rt; "{name}: {line}")?;
            }
            Ok(played.agree)
        }
        Err(fault) => {
            println!(rt; "{name}: {fault:?}")?;
            Ok(0)
        }
    }
}

fn main(rt: HostRuntime) -> io::Result<()> {
    let table = fs::read_to_string(&rt, "kernels.txt")?;
    let mut agree = shown(
        &rt,
        "kernels.txt",
        without_failures(rt.alloc(), table.as_str()),
    )?;
    for case in &FAILING {
        let table = fs::read_to_string(&rt, case.table)?;
        let more = shown(
            &rt,
            case.table,
            with_failures(rt.alloc(), case, table.as_str()),
        )?;
        agree = agree.saturating_add(more);
    }
    println!(rt; "{agree} rows agree")
}
