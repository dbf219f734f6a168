//! The program `chex`: its real edges, and the one call that does the work.
#![tactic(auto)]

ghost use Rattle.std.specs.Prelude.{◌≡◌, ◌≢◌, None, IfOk, MatchResult, map, string_bytes};
ghost use Rattle.std.specs.IoError.{error_kind};
ghost use Rattle.std.specs.Process.{exit_status};
ghost use Rattle.chex_top.specs.Ends.{Yields};
ghost use Rattle.chex_top.specs.Words.{asked_of};
ghost use Rattle.chex_cli.specs.Exits.{IsExit};

mod explaining;
mod listening;
mod usage;

use crate::explaining::explain;
use crate::listening::{report, stands};
use chex_base::{FolderLibrary, NoMemory, OutSink, Status};
use chex_top::chex;
use snap_store::BlockStore;
use star_kernel::StarKernel;
use std::io::ErrorKind;
use std::process::ExitCode;
use std::{env, io};
use tap_list::{Chain, Tally, Tap, Taps, Transcript};

fn main(rt: HostRuntime) -> ExitCode {
    ended(&rt, given_words(&rt))
}

/// Calls `chex` over the files that are there and the standard output, and gives the exit status. Where
/// there are no words nothing is written: the status is 2 where a word is no UTF-8, and otherwise 1.
fn ended(rt: &HostRuntime, words: io::Result<Vec<String>>) -> ExitCode
    ensures { MatchResult words (λ given. IsExit (map string_bytes given.items) (exit_status result)) (λ error.
        (error_kind error ≡ ErrorKind.InvalidData → exit_status result ≡ 2) × (error_kind error ≢ ErrorKind.InvalidData → exit_status result ≡ 1)) }
{
    match words {
        Ok(words) => called(rt, &words),
        Err(error) => unread(error.kind()),
    }
}

/// The exit status is the number of the call's status, and 1 where memory was wanting for the call or
/// for what is reported of it.
fn called(rt: &HostRuntime, words: &[String]) -> ExitCode
    ensures { IsExit (map string_bytes words.now) (exit_status result) }
{
    match performed(rt, words) {
        Ok(status) => ExitCode::from(status.number()),
        Err(NoMemory) => ExitCode::from(1),
    }
}

/// Makes the listeners that the words name, carries out the words, and writes to standard error what
/// the listeners report and, where the words are no command, what is one.
fn performed(rt: &HostRuntime, words: &[String]) -> Result<Status, NoMemory>
    ensures { IfOk result (λ status. asked_of (map string_bytes words.now) ≡ None → Yields Status.Usage status) }
{
    let alloc = rt.alloc();
    let mut live: Vec<Box<dyn Tap>> = Vec::new(alloc);
    if stands(words, "--transcript") {
        live.push(Box::new(alloc, Transcript::new(alloc))?)?;
    }
    if stands(words, "--tally") {
        live.push(Box::new(alloc, Tally::new(alloc))?)?;
    }
    if stands(words, "--chain") {
        live.push(Box::new(alloc, Chain::new(alloc))?)?;
    }
    let mut taps = Taps::new(alloc, live)?;
    let status = carried_out(rt, words, &mut taps);
    report(rt, taps.live())?;
    report(rt, taps.retired())?;
    if status == Status::Usage {
        explain(rt, words);
    }
    Ok(status)
}

/// Calls `chex` over the files that are there, the standard output, and a kernel and a store of the
/// program's own.
fn carried_out(rt: &HostRuntime, words: &[String], taps: &mut Taps) -> Status
    ensures { asked_of (map string_bytes words.now) ≡ None → Yields Status.Usage result }
{
    let alloc = rt.alloc();
    let mut library = FolderLibrary::new(rt);
    let mut out = OutSink::new(io::writer(rt));
    let mut kernel = StarKernel::new(alloc);
    let mut store = BlockStore::new(alloc);
    let finish = chex(
        alloc,
        words,
        &mut library,
        &mut out,
        &mut kernel,
        &mut store,
        taps,
    );
    finish.status
}

fn unread(kind: ErrorKind) -> ExitCode
    ensures { (kind ≡ ErrorKind.InvalidData → exit_status result ≡ 2) × (kind ≢ ErrorKind.InvalidData → exit_status result ≡ 1) }
{
    match kind {
        ErrorKind::InvalidData => ExitCode::from(2),
        _ => ExitCode::from(1),
    }
}

/// The words after the program's name.
fn given_words<R: std::rt::Env + AllocGlobal>(rt: &R) -> io::Result<Vec<String>> {
    let mut words = Vec::new(rt.alloc());
    for word in env::args(rt)?.skip(1) {
        words.push(word)?;
    }
    Ok(words)
}
