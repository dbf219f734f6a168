//! Why nothing runs.
ghost use Rattle.std.specs.Prelude.{◌≡◌, ◌⊎◌, ◌≢◌, IfOk, string_bytes};
ghost use Rattle.chex_top.specs.Refusals as spec;
ghost use Rattle.chex_top.specs.declared.refusal.Refusal.TheVariants as variant;

use crate::bad_cell::BadCell;
use chex_base::{NoMemory, Status, Text};
use nb_reader::{Counted, NbFault};
use std::alloc::{AllocError, AllocFailed, Global};

/// The first reason for which nothing runs. Files have the names by which they were asked for.
#[derive(Drop)]
pub enum Refusal {
    /// The words are no command.
    Usage,
    /// There is no such file.
    Absent { file: Text },
    /// A read failed.
    ReadFailed { file: Text },
    /// The file is not of its format, or a count in it passes its limit.
    BadFile { file: Text, fault: NbFault },
    /// A cell is refused, the first in the order of the versions and of their cells.
    BadCell(BadCell),
    /// The versions have more than 512 distinct beginnings; `count` is their number.
    TooManyNodes { count: u32 },
    /// The budget has more than 1,024 blocks; `count` is their number.
    TooManyBlocks { count: u64 },
    /// Memory was wanting.
    NoMemory,
}

impl Refusal {
    /// The status that goes with the refusal.
    pub fn status(&self) -> Status
        ensures { result ≡ spec.status_of self.now }
    {
        match self {
            Refusal::Usage => Status::Usage,
            Refusal::Absent { .. } => Status::Absent,
            Refusal::ReadFailed { .. } => Status::ReadFault,
            Refusal::BadFile { fault, .. } => file_status(fault),
            Refusal::BadCell(_) => Status::BadCell,
            Refusal::TooManyNodes { .. } | Refusal::TooManyBlocks { .. } => Status::TooMany,
            Refusal::NoMemory => Status::NoMemory,
        }
    }

    /// The line that is written for the refusal.
    #[tactic(auto, unfolding(crate::specs::Refusals::line_of))]
    pub fn line(&self, alloc: Global) -> Result<String, NoMemory>
        ensures { IfOk result (λ line. string_bytes line ≡ spec.line_of self.now) }
    {
        match self {
            Refusal::Usage => Ok(String::from_str(alloc, "error: usage\n")?),
            Refusal::Absent { file } => absent_line(alloc, file.as_str()),
            Refusal::ReadFailed { file } => failed_line(alloc, file.as_str()),
            Refusal::BadFile { file, fault } => {
                let why = reason(alloc, fault)?;
                bad_line(alloc, file.as_str(), why.as_str())
            }
            Refusal::BadCell(bad) => bad.line(alloc),
            Refusal::TooManyNodes { count } => nodes_line(alloc, *count),
            Refusal::TooManyBlocks { count } => blocks_line(alloc, *count),
            Refusal::NoMemory => Ok(String::new(alloc)),
        }
    }
}

/// The status of a file that is refused.
fn file_status(fault: &NbFault) -> Status
    ensures { result ≡ spec.file_status fault.now }
{
    match fault {
        NbFault::TooMany { .. } => Status::TooMany,
        NbFault::NotJson
        | NbFault::NotObject
        | NbFault::WrongFormat { .. }
        | NbFault::NoCells
        | NbFault::BadCell { .. }
        | NbFault::NoVersions
        | NbFault::BadVersion { .. }
        | NbFault::RepeatedName { .. }
        | NbFault::BadInput { .. }
        | NbFault::NoMemory => Status::BadFile,
    }
}

fn absent_line(alloc: Global, file: &str) -> Result<String, NoMemory>
    ensures { IfOk result (λ line. string_bytes line ≡ spec.absent_line file.now) }
{
    Ok(format!(in alloc; "error: absent {file}\n")?)
}

fn failed_line(alloc: Global, file: &str) -> Result<String, NoMemory>
    ensures { IfOk result (λ line. string_bytes line ≡ spec.failed_line file.now) }
{
    Ok(format!(in alloc; "error: reading {file} failed\n")?)
}

fn bad_line(alloc: Global, file: &str, reason: &str) -> Result<String, NoMemory>
    ensures { IfOk result (λ line. string_bytes line ≡ spec.bad_line file.now reason.now) }
{
    Ok(format!(in alloc; "error: {file}: {reason}\n")?)
}

pub fn nodes_line(alloc: Global, count: u32) -> Result<String, NoMemory>
    ensures { IfOk result (λ line. string_bytes line ≡ spec.nodes_line count) }
{
    Ok(format!(in alloc; "error: too many nodes: {count}\n")?)
}

fn blocks_line(alloc: Global, count: u64) -> Result<String, NoMemory>
    ensures { IfOk result (λ line. string_bytes line ≡ spec.blocks_line count) }
{
    Ok(format!(in alloc; "error: too many blocks: {count}\n")?)
}

/// What is wrong with a file, in words.
#[tactic(auto, unfolding(crate::specs::Refusals::reason))]
fn reason(alloc: Global, fault: &NbFault) -> Result<String, NoMemory>
    ensures { IfOk result (λ words. string_bytes words ≡ spec.reason fault.now) }
{
    match fault {
        NbFault::NotJson => Ok(String::from_str(alloc, "not json")?),
        NbFault::NotObject => Ok(String::from_str(alloc, "not an object")?),
        NbFault::WrongFormat { found } => format_reason(alloc, *found),
        NbFault::NoCells => Ok(String::from_str(alloc, "no cells")?),
        NbFault::BadCell { index } => Ok(format!(in alloc; "bad cell {index}")?),
        NbFault::NoVersions => Ok(String::from_str(alloc, "no versions")?),
        NbFault::BadVersion { index } => Ok(format!(in alloc; "bad version {index}")?),
        NbFault::RepeatedName { name } => repeated_reason(alloc, name.as_str()),
        NbFault::BadInput { name } => input_reason(alloc, name.as_str()),
        NbFault::TooMany { what, count } => count_reason(alloc, counted(*what), *count),
        NbFault::NoMemory => Ok(String::from_str(alloc, "no memory")?),
    }
}

fn format_reason(alloc: Global, found: Option<u64>) -> Result<String, NoMemory>
    ensures { IfOk result (λ words. string_bytes words ≡ spec.format_reason found) }
{
    match found {
        None => Ok(String::from_str(alloc, "no format")?),
        Some(number) => Ok(format!(in alloc; "format {number}")?),
    }
}

fn repeated_reason(alloc: Global, name: &str) -> Result<String, NoMemory>
    ensures { IfOk result (λ words. string_bytes words ≡ spec.repeated_reason name.now) }
{
    Ok(format!(in alloc; "repeated name {name}")?)
}

fn input_reason(alloc: Global, name: &str) -> Result<String, NoMemory>
    ensures { IfOk result (λ words. string_bytes words ≡ spec.input_reason name.now) }
{
    Ok(format!(in alloc; "bad input {name}")?)
}

fn count_reason(alloc: Global, what: &str, count: u64) -> Result<String, NoMemory>
    ensures { IfOk result (λ words. string_bytes words ≡ spec.count_reason what.now count) }
{
    Ok(format!(in alloc; "too many {what}: {count}")?)
}

/// What was counted, in words.
#[tactic(auto, unfolding(crate::specs::Refusals::counted))]
fn counted(what: Counted) -> &'static str
    ensures { result.now ≡ spec.counted what }
{
    match what {
        Counted::Bytes => "bytes",
        Counted::Versions => "versions",
        Counted::CodeCells => "code cells",
        Counted::Inputs => "inputs",
        Counted::CellBytes => "cell bytes",
    }
}

/// The refusal of a file for what is wrong with it.
pub fn bad_file(alloc: Global, file: &Text, fault: NbFault) -> Refusal
    ensures { (result ≡ Refusal.NoMemory) ⊎ ((fault ≢ NbFault.NoMemory) × (result ≡ Refusal.BadFile file.now fault)) }
{
    match fault {
        NbFault::NoMemory => Refusal::NoMemory,
        fault => match file.copy(alloc) {
            Ok(file) => Refusal::BadFile { file, fault },
            Err(NoMemory) => Refusal::NoMemory,
        },
    }
}

impl From<NoMemory> for Refusal {
    ghost from_gives = { λ _ e. e ≡ variant.NoMemory };

    fn from(_: NoMemory) -> Self {
        Refusal::NoMemory
    }
}

impl From<AllocError> for Refusal {
    ghost from_gives = { λ _ e. e ≡ variant.NoMemory };

    fn from(_: AllocError) -> Self {
        Refusal::NoMemory
    }
}

impl<T: Drop> From<AllocFailed<T>> for Refusal {
    ghost from_gives = { λ _ e. e ≡ variant.NoMemory };

    fn from(_: AllocFailed<T>) -> Self {
        Refusal::NoMemory
    }
}
