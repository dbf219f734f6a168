//! A call of `chex` over the files of the table.
use crate::facts::{failing, number_after};
use crate::fault::Fault;
use chex_base::{Calls, MemoryLibrary, MemorySink};
use chex_top::chex;
use kernel_api::{Kernel, Store};
use snap_store::FailingStore;
use star_kernel::FailingKernel;
use std::alloc::Global;
use tap_list::{Chain, FailingTap, Tally, Tap, Taps, Transcript};

/// The bytes that the sink has room for.
const ROOM: usize = 20_000;

/// How a call ended, and what the devices tell after it.
#[derive(Clone, Copy)]
pub struct Told {
    /// The number of its status.
    pub status: u8,
    /// How many reads were made.
    pub reads: u64,
    pub writes: u64,
    /// How many calls that can fail were made of the kernel.
    pub kernel_calls: u64,
    pub store_calls: u64,
    /// The steps that the kernel has taken.
    pub steps: u64,
    /// The most blocks that the store held.
    pub peak: u64,
    /// The blocks that it holds.
    pub used: u64,
    /// The children of the node that no version has, in the plan.
    pub planned: u64,
}

/// How a call ended, what it wrote, and what is told after it.
#[derive(Drop)]
pub struct Ended {
    pub told: Told,
    pub written: String,
    /// What the live listeners report, with bars between.
    pub live: String,
    pub retired: String,
}

/// The words and the devices of a call.
#[derive(Drop)]
struct Devices {
    words: Vec<String>,
    out: MemorySink,
    kernel_fails: Calls,
    store_fails: Calls,
}

/// The words and the devices, of which those fail that the facts name. The library fails so too.
fn made_devices(
    alloc: Global,
    words: &str,
    facts: &[&str],
    library: &mut MemoryLibrary,
) -> Result<Devices, Fault> {
    library.failing = failing(alloc, facts, "fails library ")?;
    library.calls = 0;
    Ok(Devices {
        words: words_of(alloc, words)?,
        out: MemorySink::new(alloc, ROOM, failing(alloc, facts, "fails sink ")?)?,
        kernel_fails: failing(alloc, facts, "fails kernel ")?,
        store_fails: failing(alloc, facts, "fails store ")?,
    })
}

/// Calls `chex` with these words, where the devices fail at the calls and the listeners are there
/// that the facts name.
pub fn called(
    alloc: Global,
    words: &str,
    facts: &[&str],
    library: &mut MemoryLibrary,
) -> Result<Ended, Fault> {
    let mut live: Vec<Box<dyn Tap>> = Vec::new(alloc);
    for fact in facts {
        match *fact {
            "tap transcript" => live.push(Box::new(alloc, Transcript::new(alloc))?)?,
            "tap tally" => live.push(Box::new(alloc, Tally::new(alloc))?)?,
            "tap chain" => live.push(Box::new(alloc, Chain::new(alloc))?)?,
            other => {
                if let Some(event) = number_after(other, "tap failing ") {
                    live.push(Box::new(alloc, FailingTap::new(alloc, event))?)?;
                }
            }
        }
    }
    let mut taps = Taps::new(alloc, live)?;
    let Devices {
        words,
        mut out,
        kernel_fails,
        store_fails,
    } = made_devices(alloc, words, facts, library)?;
    let told = told_after(
        alloc,
        &words,
        library,
        &mut out,
        kernel_fails,
        store_fails,
        &mut taps,
    );
    Ok(Ended {
        told,
        written: text_of(alloc, out.bytes.as_slice())?,
        live: reports(alloc, taps.live())?,
        retired: reports(alloc, taps.retired())?,
    })
}

/// Calls `chex` over a kernel and a store that fail at these calls.
fn told_after(
    alloc: Global,
    words: &[String],
    library: &mut MemoryLibrary,
    out: &mut MemorySink,
    kernel_fails: Calls,
    store_fails: Calls,
    taps: &mut Taps,
) -> Told {
    let mut kernel = FailingKernel::new(alloc, kernel_fails);
    let mut store = FailingStore::new(alloc, store_fails);
    let finish = chex(alloc, words, library, out, &mut kernel, &mut store, taps);
    Told {
        status: finish.status.number(),
        reads: library.calls,
        writes: out.calls,
        kernel_calls: kernel.calls,
        store_calls: store.calls,
        steps: kernel.steps(),
        peak: u64::from(store.peak()),
        used: u64::from(store.used()),
        planned: finish.plan.entries.len() as u64,
    }
}

fn words_of(alloc: Global, line: &str) -> Result<Vec<String>, Fault> {
    let mut words = Vec::new(alloc);
    if line.is_empty() {
        return Ok(words);
    }
    for word in line.split(' ') {
        words.push(String::from_str(alloc, word)?)?;
    }
    Ok(words)
}

fn text_of(alloc: Global, bytes: &[u8]) -> Result<String, Fault> {
    match std::str::from_utf8(bytes) {
        Ok(text) => Ok(String::from_str(alloc, text)?),
        Err(_) => Err(Fault::Unread),
    }
}

/// The reports of listeners, with bars between.
fn reports(alloc: Global, taps: &[Box<dyn Tap>]) -> Result<String, Fault> {
    let mut all = String::new(alloc);
    for (place, tap) in taps.iter().enumerate() {
        if place > 0 {
            all.push_str("|")?;
        }
        let report = tap.report(alloc)?;
        all.push_str(report.as_str())?;
    }
    Ok(all)
}
