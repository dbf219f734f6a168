//! The commands as clap knows them.
ghost use Rattle.std.specs.Prelude.{◌≡◌, IfOk, false};
ghost use Rattle.clap.specs.Words.{app_of, rule_of, with_rule};
ghost use Rattle.chex_words.specs.Apps as spec;

use clap::{Arg, ArgAction, Command};
use std::alloc::{AllocError, Global};

/// `solo NOTEBOOK [--steps N]`
#[tactic(auto, unfolding(crate::specs::Apps::solo_app))]
pub fn solo<'a>(alloc: Global) -> Result<Command<'a>, AllocError>
    ensures { IfOk result (λ c. app_of c ≡ spec.solo_app) }
{
    let command = with_positional(alloc, bare(alloc, "solo"), "notebook")?;
    with_option(alloc, command, "steps")
}

/// `run MANIFEST --budget BYTES [--block B] [--save P] [--load Q] [--steps N] [--transcript] [--tally] [--chain]`
#[tactic(auto, unfolding(crate::specs::Apps::run_app))]
pub fn run<'a>(alloc: Global) -> Result<Command<'a>, AllocError>
    ensures { IfOk result (λ c. app_of c ≡ spec.run_app) }
{
    let command = with_positional(alloc, bare(alloc, "run"), "manifest")?;
    let command = with_store(alloc, command)?;
    let command = with_option(alloc, command, "steps")?;
    with_taps(alloc, command)
}

/// `plan RECORD --budget BYTES [--block B] [--save P] [--load Q]`
#[tactic(auto, unfolding(crate::specs::Apps::plan_app))]
pub fn plan<'a>(alloc: Global) -> Result<Command<'a>, AllocError>
    ensures { IfOk result (λ c. app_of c ≡ spec.plan_app) }
{
    let command = with_positional(alloc, bare(alloc, "plan"), "record")?;
    with_store(alloc, command)
}

/// `audit MANIFEST [--steps N]`
#[tactic(auto, unfolding(crate::specs::Apps::audit_app))]
pub fn audit<'a>(alloc: Global) -> Result<Command<'a>, AllocError>
    ensures { IfOk result (λ c. app_of c ≡ spec.audit_app) }
{
    let command = with_positional(alloc, bare(alloc, "audit"), "manifest")?;
    with_option(alloc, command, "steps")
}

/// `replay MANIFEST RECORD --budget BYTES [--block B] [--save P] [--load Q] [--transcript] [--tally] [--chain]`
#[tactic(auto, unfolding(crate::specs::Apps::replay_app))]
pub fn replay<'a>(alloc: Global) -> Result<Command<'a>, AllocError>
    ensures { IfOk result (λ c. app_of c ≡ spec.replay_app) }
{
    let command = with_positional(alloc, bare(alloc, "replay"), "manifest")?;
    let command = with_positional(alloc, command, "record")?;
    let command = with_store(alloc, command)?;
    with_taps(alloc, command)
}

/// `check RECORD PLAN --budget BYTES [--block B] [--save P] [--load Q]`
#[tactic(auto, unfolding(crate::specs::Apps::check_app))]
pub fn check<'a>(alloc: Global) -> Result<Command<'a>, AllocError>
    ensures { IfOk result (λ c. app_of c ≡ spec.check_app) }
{
    let command = with_positional(alloc, bare(alloc, "check"), "record")?;
    let command = with_positional(alloc, command, "plan")?;
    with_store(alloc, command)
}

/// `make SEED VERSIONS CELLS --budget BYTES [--block B] [--save P] [--load Q] [--transcript] [--tally] [--chain]`
#[tactic(auto, unfolding(crate::specs::Apps::make_app))]
pub fn make<'a>(alloc: Global) -> Result<Command<'a>, AllocError>
    ensures { IfOk result (λ c. app_of c ≡ spec.make_app) }
{
    let command = with_positional(alloc, bare(alloc, "make"), "seed")?;
    let command = with_positional(alloc, command, "versions")?;
    let command = with_positional(alloc, command, "cells")?;
    let command = with_store(alloc, command)?;
    with_taps(alloc, command)
}

fn with_store<'a>(alloc: Global, command: Command<'a>) -> Result<Command<'a>, AllocError>
    ensures { IfOk result (λ c. app_of c ≡ spec.with_store (app_of command.entry)) }
{
    let command = with_needed(alloc, command, "budget")?;
    let command = with_option(alloc, command, "block")?;
    let command = with_option(alloc, command, "save")?;
    with_option(alloc, command, "load")
}

fn with_taps<'a>(alloc: Global, command: Command<'a>) -> Result<Command<'a>, AllocError>
    ensures { IfOk result (λ c. app_of c ≡ spec.with_taps (app_of command.entry)) }
{
    let command = with_flag(alloc, command, "transcript")?;
    let command = with_flag(alloc, command, "tally")?;
    with_flag(alloc, command, "chain")
}

/// A command with no argument, no help and no version.
fn bare<'a>(alloc: Global, name: &'a str) -> Command<'a>
    ensures { app_of result ≡ spec.bare name.entry.now }
{
    Command::new(alloc, name)
        .no_binary_name(true)
        .disable_help_flag(true)
        .disable_version_flag(true)
}

fn with_positional<'a>(
    alloc: Global,
    command: Command<'a>,
    id: &'a str,
) -> Result<Command<'a>, AllocError>
    ensures { IfOk result (λ c. app_of c ≡ with_rule (app_of command.entry) (spec.positional id.entry.now)) }
{
    with(command, Arg::new(alloc, id).required(true))
}

fn with_option<'a>(
    alloc: Global,
    command: Command<'a>,
    id: &'a str,
) -> Result<Command<'a>, AllocError>
    ensures { IfOk result (λ c. app_of c ≡ with_rule (app_of command.entry) (spec.an_option id.entry.now)) }
{
    with(command, Arg::new(alloc, id).long(id))
}

fn with_needed<'a>(
    alloc: Global,
    command: Command<'a>,
    id: &'a str,
) -> Result<Command<'a>, AllocError>
    ensures { IfOk result (λ c. app_of c ≡ with_rule (app_of command.entry) (spec.needed id.entry.now)) }
{
    with(command, Arg::new(alloc, id).long(id).required(true))
}

fn with_flag<'a>(
    alloc: Global,
    command: Command<'a>,
    id: &'a str,
) -> Result<Command<'a>, AllocError>
    ensures { IfOk result (λ c. app_of c ≡ with_rule (app_of command.entry) (spec.flag id.entry.now)) }
{
    with(
        command,
        Arg::new(alloc, id).long(id).action(ArgAction::SetTrue),
    )
}

fn with<'a>(command: Command<'a>, arg: Arg<'a>) -> Result<Command<'a>, AllocError>
    requires { arg.global ≡ false }
    ensures { IfOk result (λ c. app_of c ≡ with_rule (app_of command.entry) (rule_of arg.entry)) }
{
    command.arg(arg)
}
