//! Plays a case.
ghost use Rattle.std.specs.Prelude.{◌≤◌, length, All};
ghost use Rattle.plan_type.specs.Costs.{IsSound};
ghost use Rattle.plan_type.specs.Plan.{IsPlan};
ghost use Rattle.shared_tests.specs.Versions.{IsFit};

use crate::cases::Case;
use crate::fault::Fault;
use crate::versions::checked_versions;
use exec_tree::Checked;
use kernel_api::{Kernel, Store};
use plan_type::{Budget, Reach, Row};
use shared_run::{RunFault, Shared, run_versions};
use snap_store::BlockStore;
use star_kernel::StarKernel;
use std::alloc::Global;
use tap_list::Taps;

/// The most blocks.
const MOST_BLOCKS: u32 = 1_024;

/// The most steps of a cell.
const MOST_STEPS: u64 = 1_000_000;

/// What each version prints, and then the nodes, the steps and the blocks.
pub fn play(alloc: Global, case: &Case) -> Result<String, Fault> {
    if case.most > MOST_BLOCKS || case.allowance < 1 || case.allowance > MOST_STEPS {
        return Err(Fault::PastLimit);
    }
    let versions = checked_versions(alloc, case.versions)?;
    run(alloc, case, versions.as_slice())
}

#[tactic(auto, using(crate::proofs::FitLemmas::few_cells, crate::proofs::FitLemmas::have_names))]
fn run(alloc: Global, case: &Case, versions: &[Checked]) -> Result<String, Fault>
    requires few { length versions.now ≤ 64 }
    requires fit { All IsFit versions.now }
    requires blocks { case.now.most ≤ 1024 }
    requires least { 1 ≤ case.now.allowance }
    requires most { case.now.allowance ≤ 1000000 }
{
    let budget = Budget {
        block: 4096,
        most: case.most,
        save: 0,
        load: 0,
    };
    let mut kernel = StarKernel::new(alloc);
    let mut store = BlockStore::new(alloc);
    let mut taps = Taps::new(alloc, Vec::new(alloc))?;
    match run_versions(
        alloc,
        versions,
        &budget,
        case.allowance,
        &mut kernel,
        &mut store,
        &mut taps,
    ) {
        Ok(shared) => shown(alloc, case, &shared, &kernel, &store),
        Err(RunFault::NoMemory) => Err(Fault::NoMemory),
        Err(_) => Err(Fault::Refused),
    }
}

fn shown(
    alloc: Global,
    case: &Case,
    shared: &Shared,
    kernel: &StarKernel,
    store: &BlockStore,
) -> Result<String, Fault>
    requires sound { IsSound shared.now.costs }
    requires class { IsPlan shared.now.costs shared.now.plan }
{
    let mut text = format!(in alloc; "{}:\n", case.name)?;
    add_texts(&mut text, shared)?;
    add_rows(alloc, &mut text, shared.costs.rows.as_slice())?;
    let rest = format!(in alloc;
        "nodes {}, alone {} steps, replayed {} steps, kernel {} steps, peak {} of {} blocks, {} held at the end\n",
        shared.reached(),
        shared.alone(),
        shared.plan.work(&shared.costs),
        kernel.steps(),
        store.peak(),
        case.most,
        store.used()
    )?;
    text.push_str(rest.as_str())?;
    Ok(text)
}

/// Adds what each version prints.
fn add_texts(text: &mut String, shared: &Shared) -> Result<(), Fault> {
    for way in shared.ways.as_slice() {
        text.push_str("-\n")?;
        for node in way.as_slice() {
            if let Some(at) = node.0.checked_sub(1) {
                if let Some(own) = shared.texts.get(at as usize) {
                    text.push_str(own.as_str())?;
                }
            }
        }
    }
    Ok(())
}

/// Adds a line for each node.
fn add_rows(alloc: Global, text: &mut String, rows: &[Row]) -> Result<(), Fault> {
    for (place, row) in rows.iter().enumerate() {
        let line = format!(in alloc;
            "node {} under {}: {}, {} steps, {} bytes\n",
            place + 1,
            row.parent.0,
            end_name(row.end),
            row.steps,
            row.bytes
        )?;
        text.push_str(line.as_str())?;
    }
    Ok(())
}

fn end_name(end: Reach) -> &'static str {
    match end {
        Reach::Done => "done",
        Reach::Failed => "failed",
        Reach::Unreached => "unreached",
    }
}
