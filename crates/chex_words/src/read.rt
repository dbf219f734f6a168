//! Words into a command.
ghost use Rattle.std.specs.Prelude.{◌≡◌, map, string_bytes};
ghost use Rattle.clap.specs.Words.{found_of, rows_of};
ghost use Rattle.chex_words.specs.Words as spec;
ghost use Rattle.chex_words.specs.Verdict.{IsRead};

use crate::matched::{flag, matched, value};
use crate::number::{number, number_or, number_within, optional_number};
use crate::{
    AuditWords, CheckWords, Command, MakeWords, PlanWords, ReplayWords, RunWords, SoloWords,
    StoreWords, TapWords, WordsFault, clap_commands,
};
use chex_base::Text;
use clap::ArgMatches;
use std::alloc::Global;

/// The command that the words after the program's name are.
pub fn read_words(alloc: Global, words: &[String]) -> Result<Command, WordsFault>
    ensures { IsRead (spec.command_of (map string_bytes words.now)) result }
{
    match words {
        [name, rest @ ..] => {
            if name.as_str() == "solo" {
                Ok(Command::Solo(read_solo(alloc, rest)?))
            } else if name.as_str() == "run" {
                Ok(Command::Run(read_run(alloc, rest)?))
            } else if name.as_str() == "audit" {
                Ok(Command::Audit(read_audit(alloc, rest)?))
            } else if name.as_str() == "replay" {
                Ok(Command::Replay(read_replay(alloc, rest)?))
            } else if name.as_str() == "plan" {
                Ok(Command::Plan(read_plan(alloc, rest)?))
            } else if name.as_str() == "check" {
                Ok(Command::Check(read_check(alloc, rest)?))
            } else if name.as_str() == "make" {
                Ok(Command::Make(read_make(alloc, rest)?))
            } else {
                Err(WordsFault::Usage)
            }
        }
        [] => Err(WordsFault::Usage),
    }
}

#[tactic(auto, using(crate::proofs::TakenLemmas::solo_is_simple, crate::proofs::TakenLemmas::solo_is_free))]
fn read_solo(alloc: Global, words: &[String]) -> Result<SoloWords, WordsFault>
    ensures { IsRead (spec.solo_of (map string_bytes words.now)) result }
{
    let matches = matched(clap_commands::solo(alloc)?, words)?;
    solo(alloc, &matches)
}

#[tactic(auto, using(crate::proofs::TakenLemmas::run_is_simple, crate::proofs::TakenLemmas::run_is_free))]
fn read_run(alloc: Global, words: &[String]) -> Result<RunWords, WordsFault>
    ensures { IsRead (spec.run_of (map string_bytes words.now)) result }
{
    let matches = matched(clap_commands::run(alloc)?, words)?;
    run(alloc, &matches)
}

#[tactic(auto, using(crate::proofs::TakenLemmas::plan_is_simple, crate::proofs::TakenLemmas::plan_is_free))]
fn read_plan(alloc: Global, words: &[String]) -> Result<PlanWords, WordsFault>
    ensures { IsRead (spec.plan_of (map string_bytes words.now)) result }
{
    let matches = matched(clap_commands::plan(alloc)?, words)?;
    plan(alloc, &matches)
}

#[tactic(auto, unfolding(crate::specs::Words::solo_at))]
fn solo<'a>(alloc: Global, matches: &ArgMatches<'a>) -> Result<SoloWords, WordsFault>
    ensures { IsRead (spec.solo_at (rows_of (found_of matches.now))) result }
{
    let Some(notebook) = value(matches, "notebook") else {
        return Err(WordsFault::Usage);
    };
    let Some(steps) = steps(matches) else {
        return Err(WordsFault::Usage);
    };
    Ok(SoloWords {
        notebook: Text::from_str(alloc, notebook)?,
        steps,
    })
}

#[tactic(auto, unfolding(crate::specs::Words::run_at))]
fn run<'a>(alloc: Global, matches: &ArgMatches<'a>) -> Result<RunWords, WordsFault>
    ensures { IsRead (spec.run_at (rows_of (found_of matches.now))) result }
{
    let Some(manifest) = value(matches, "manifest") else {
        return Err(WordsFault::Usage);
    };
    let Some(store) = store(matches) else {
        return Err(WordsFault::Usage);
    };
    let Some(steps) = steps(matches) else {
        return Err(WordsFault::Usage);
    };
    Ok(RunWords {
        manifest: Text::from_str(alloc, manifest)?,
        store,
        steps,
        taps: taps(matches),
    })
}

#[tactic(auto, unfolding(crate::specs::Words::plan_at))]
fn plan<'a>(alloc: Global, matches: &ArgMatches<'a>) -> Result<PlanWords, WordsFault>
    ensures { IsRead (spec.plan_at (rows_of (found_of matches.now))) result }
{
    let Some(file) = value(matches, "record") else {
        return Err(WordsFault::Usage);
    };
    let Some(store) = store(matches) else {
        return Err(WordsFault::Usage);
    };
    Ok(PlanWords {
        record_file: Text::from_str(alloc, file)?,
        store,
    })
}

#[tactic(auto, using(crate::proofs::TakenLemmas::audit_is_simple, crate::proofs::TakenLemmas::audit_is_free))]
fn read_audit(alloc: Global, words: &[String]) -> Result<AuditWords, WordsFault>
    ensures { IsRead (spec.audit_of (map string_bytes words.now)) result }
{
    let matches = matched(clap_commands::audit(alloc)?, words)?;
    audit(alloc, &matches)
}

#[tactic(auto, using(crate::proofs::TakenLemmas::replay_is_simple, crate::proofs::TakenLemmas::replay_is_free))]
fn read_replay(alloc: Global, words: &[String]) -> Result<ReplayWords, WordsFault>
    ensures { IsRead (spec.replay_of (map string_bytes words.now)) result }
{
    let matches = matched(clap_commands::replay(alloc)?, words)?;
    replay(alloc, &matches)
}

#[tactic(auto, using(crate::proofs::TakenLemmas::check_is_simple, crate::proofs::TakenLemmas::check_is_free))]
fn read_check(alloc: Global, words: &[String]) -> Result<CheckWords, WordsFault>
    ensures { IsRead (spec.check_of (map string_bytes words.now)) result }
{
    let matches = matched(clap_commands::check(alloc)?, words)?;
    check(alloc, &matches)
}

#[tactic(auto, using(crate::proofs::TakenLemmas::make_is_simple, crate::proofs::TakenLemmas::make_is_free))]
fn read_make(alloc: Global, words: &[String]) -> Result<MakeWords, WordsFault>
    ensures { IsRead (spec.make_of (map string_bytes words.now)) result }
{
    let matches = matched(clap_commands::make(alloc)?, words)?;
    make(&matches).ok_or(WordsFault::Usage)
}

#[tactic(auto, unfolding(crate::specs::Words::audit_at))]
fn audit<'a>(alloc: Global, matches: &ArgMatches<'a>) -> Result<AuditWords, WordsFault>
    ensures { IsRead (spec.audit_at (rows_of (found_of matches.now))) result }
{
    let Some(manifest) = value(matches, "manifest") else {
        return Err(WordsFault::Usage);
    };
    let Some(steps) = steps(matches) else {
        return Err(WordsFault::Usage);
    };
    Ok(AuditWords {
        manifest: Text::from_str(alloc, manifest)?,
        steps,
    })
}

#[tactic(auto, unfolding(crate::specs::Words::replay_at))]
fn replay<'a>(alloc: Global, matches: &ArgMatches<'a>) -> Result<ReplayWords, WordsFault>
    ensures { IsRead (spec.replay_at (rows_of (found_of matches.now))) result }
{
    let Some(manifest) = value(matches, "manifest") else {
        return Err(WordsFault::Usage);
    };
    let Some(file) = value(matches, "record") else {
        return Err(WordsFault::Usage);
    };
    let Some(store) = store(matches) else {
        return Err(WordsFault::Usage);
    };
    Ok(ReplayWords {
        manifest: Text::from_str(alloc, manifest)?,
        record_file: Text::from_str(alloc, file)?,
        store,
        taps: taps(matches),
    })
}

#[tactic(auto, unfolding(crate::specs::Words::check_at))]
fn check<'a>(alloc: Global, matches: &ArgMatches<'a>) -> Result<CheckWords, WordsFault>
    ensures { IsRead (spec.check_at (rows_of (found_of matches.now))) result }
{
    let Some(file) = value(matches, "record") else {
        return Err(WordsFault::Usage);
    };
    let Some(plan) = value(matches, "plan") else {
        return Err(WordsFault::Usage);
    };
    let Some(store) = store(matches) else {
        return Err(WordsFault::Usage);
    };
    Ok(CheckWords {
        record_file: Text::from_str(alloc, file)?,
        plan_file: Text::from_str(alloc, plan)?,
        store,
    })
}

#[tactic(auto, unfolding(crate::specs::Words::make_at))]
fn make<'a>(matches: &ArgMatches<'a>) -> Option<MakeWords>
    ensures { result ≡ spec.make_at (rows_of (found_of matches.now)) }
{
    let seed = number(value(matches, "seed")?)?;
    let versions = number_within(1, 64, value(matches, "versions")?)?;
    let cells = number_within(1, 64, value(matches, "cells")?)?;
    let store = store(matches)?;
    if versions * cells > 512 {
        return None;
    }
    Some(MakeWords {
        seed,
        versions,
        cells,
        store,
        taps: taps(matches),
    })
}

fn steps<'a>(matches: &ArgMatches<'a>) -> Option<u64>
    ensures { result ≡ spec.steps_at (rows_of (found_of matches.now)) }
{
    number_or(1_000_000, 1, 1_000_000, value(matches, "steps"))
}

fn store<'a>(matches: &ArgMatches<'a>) -> Option<StoreWords>
    ensures { result ≡ spec.store_at (rows_of (found_of matches.now)) }
{
    let budget = number(value(matches, "budget")?)?;
    let block = optional_number(256, 1_048_576, value(matches, "block"))?;
    let save = number_or(0, 0, 1_000_000, value(matches, "save"))?;
    let load = number_or(0, 0, 1_000_000, value(matches, "load"))?;
    Some(StoreWords {
        budget,
        block,
        save,
        load,
    })
}

fn taps<'a>(matches: &ArgMatches<'a>) -> TapWords
    ensures { result ≡ spec.taps_at (rows_of (found_of matches.now)) }
{
    TapWords {
        transcript: flag(matches, "transcript"),
        tally: flag(matches, "tally"),
        chain: flag(matches, "chain"),
    }
}
