//! A command as one line: its name, its files or numbers, and its options.
use chex_base::NoMemory;
use chex_words::{Command, StoreWords, TapWords};
use std::alloc::Global;

/// The line of a command.
pub fn shown(alloc: Global, command: &Command) -> Result<String, NoMemory> {
    match command {
        Command::Solo(solo) => Ok(format!(in alloc;
            "solo {} steps {}",
            solo.notebook.as_str(),
            solo.steps
        )?),
        Command::Run(run) => Ok(format!(in alloc;
            "run {} {} steps {} {}",
            run.manifest.as_str(),
            store(alloc, &run.store)?,
            run.steps,
            taps(&run.taps)
        )?),
        Command::Audit(audit) => Ok(format!(in alloc;
            "audit {} steps {}",
            audit.manifest.as_str(),
            audit.steps
        )?),
        Command::Replay(replay) => Ok(format!(in alloc;
            "replay {} {} {} {}",
            replay.manifest.as_str(),
            replay.record_file.as_str(),
            store(alloc, &replay.store)?,
            taps(&replay.taps)
        )?),
        Command::Plan(plan) => Ok(format!(in alloc;
            "plan {} {}",
            plan.record_file.as_str(),
            store(alloc, &plan.store)?
        )?),
        Command::Check(check) => Ok(format!(in alloc;
            "check {} {} {}",
            check.record_file.as_str(),
            check.plan_file.as_str(),
            store(alloc, &check.store)?
        )?),
        Command::Make(make) => Ok(format!(in alloc;
            "make {} {} {} {} {}",
            make.seed,
            make.versions,
            make.cells,
            store(alloc, &make.store)?,
            taps(&make.taps)
        )?),
    }
}

fn store(alloc: Global, store: &StoreWords) -> Result<String, NoMemory> {
    let (budget, save, load) = (store.budget, store.save, store.load);
    match store.block {
        Some(block) => Ok(format!(in alloc;
            "budget {budget} block {block} save {save} load {load}"
        )?),
        None => Ok(format!(in alloc; "budget {budget} save {save} load {load}")?),
    }
}

fn taps(taps: &TapWords) -> &'static str {
    match (taps.transcript, taps.tally, taps.chain) {
        (false, false, false) => "untold",
        (true, false, false) => "transcript",
        (false, true, false) => "tally",
        (false, false, true) => "chain",
        (true, true, false) => "transcript tally",
        (true, false, true) => "transcript chain",
        (false, true, true) => "tally chain",
        (true, true, true) => "transcript tally chain",
    }
}
