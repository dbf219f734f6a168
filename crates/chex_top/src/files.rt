//! Reads the files that the words name, in order and each anew, up to the first refusal.
ghost use Rattle.std.specs.Prelude.{◌≡◌, ◌≤◌, ◌⊎◌, ℕ, List, Result, None, Ok, Err, IfOk, IfErr, IfSome, length, map, string_bytes};
ghost use Rattle.nb_reader.specs.Inputs.{inputs_file_of};
ghost use Rattle.nb_reader.specs.Manifest.{manifest_of};
ghost use Rattle.nb_reader.specs.Notebook.{notebook_of};
ghost use Rattle.nb_reader.specs.Reading.{IsReading};
ghost use Rattle.nb_reader.specs.declared.fault.NbFault.{NbFault};
ghost use Rattle.chex_top.specs.Files as spec;
ghost use Rattle.chex_top.specs.Jobs.{AreSmall, AreSources, IsSmall};
ghost use Rattle.chex_top.specs.Reads as reads;
ghost use Rattle.chex_top.specs.Reads.{Answers, IsCounted, Refuses};
ghost use Rattle.chex_top.specs.Words as asked;
ghost use Rattle.chex_top.specs.Budgets.{IsStore};
ghost use Rattle.plan_type.specs.Budget.{IsBudget};

use crate::asked::{Asked, read_asked};
use crate::budget::budget_of;
use crate::refusal::{Refusal, bad_file};
use crate::version::{Job, Version, Versions};
use chex_base::{Found, Inputs, Library, NoMemory, Text};
use chex_words::{RunWords, SoloWords, StoreWords};
use nb_reader::{
    Counted, Entry, Manifest, NbFault, Sources, read_inputs, read_manifest, read_notebook,
};
use plan_type::Budget;
use std::alloc::Global;

/// The most bytes of a file.
const MOST_FILE: usize = 16_777_216;

/// What a file may hold.
trait Format {
    /// What bytes stand for, or the first refusal of them.
    ghost reading: { List ℕ → Result Self NbFault };

    /// What is known of each that was read.
    ghost kept: { Self → Type 0 };

    /// Reads bytes, of which there are at most 16,777,216.
    fn parse(alloc: Global, bytes: &[u8]) -> Result<Self, NbFault>
        ensures read { IsReading result (reading bytes.now) }
        ensures kept { IfOk result kept };
}

impl Format for Sources {
    ghost reading = { notebook_of };

    ghost kept = { AreSources };

    fn parse(alloc: Global, bytes: &[u8]) -> Result<Sources, NbFault> {
        read_notebook(alloc, bytes)
    }
}

impl Format for Manifest {
    ghost reading = { manifest_of };

    ghost kept = { λ manifest. length manifest.versions ≤ 64 };

    fn parse(alloc: Global, bytes: &[u8]) -> Result<Manifest, NbFault> {
        read_manifest(alloc, bytes)
    }
}

impl Format for Inputs {
    ghost reading = { inputs_file_of };

    ghost kept = { λ _. Unit {0} };

    fn parse(alloc: Global, bytes: &[u8]) -> Result<Inputs, NbFault> {
        read_inputs(alloc, bytes)
    }
}

/// What the words and the files that they name call for.
#[tactic(auto, unfolding(crate::specs::Files::job_at))]
pub fn read_job<L: Library>(
    alloc: Global,
    words: &[String],
    library: &mut L,
) -> Result<Job, Refusal>
    ensures read { IfSome (L.files library.old) (λ view. Answers (spec.job_at view (map string_bytes words.now)) result) }
    ensures counted { IfErr result (λ r. ((r ≡ Refusal.Usage) × (asked.asked_of (map string_bytes words.now) ≡ None)) ⊎ IsCounted r (L.absences library.old) (L.absences library.new) (L.faults library.old) (L.faults library.new)) }
    ensures later { (L.absences library.old ≤ L.absences library.new) × (L.faults library.old ≤ L.faults library.new) }
    ensures files { L.files library.new ≡ L.files library.old }
    ensures usage { asked.asked_of (map string_bytes words.now) ≡ None → (result ≡ Err Refusal.Usage) ⊎ (result ≡ Err Refusal.NoMemory) }
    ensures small { IfOk result spec.IsSmallJob }
{
    match read_asked(alloc, words) {
        Ok(Asked::Solo(words)) => solo(alloc, library, &words),
        Ok(Asked::Run(words)) => run(alloc, library, &words),
        Err(refusal) => Err(refusal),
    }
}

/// What `solo` calls for: a notebook alone.
fn solo<L: Library>(alloc: Global, library: &mut L, words: &SoloWords) -> Result<Job, Refusal>
    requires { asked.IsAllowance words.now.steps }
    ensures read { IfSome (L.files library.old) (λ view. Answers (spec.solo_at view words.now) result) }
    ensures counted { IfErr result (λ r. IsCounted r (L.absences library.old) (L.absences library.new) (L.faults library.old) (L.faults library.new)) }
    ensures later { (L.absences library.old ≤ L.absences library.new) × (L.faults library.old ≤ L.faults library.new) }
    ensures files { L.files library.new ≡ L.files library.old }
    ensures small { IfOk result spec.IsSmallJob }
{
    let sources = file::<L, Sources>(alloc, library, &words.notebook)?;
    let version = solo_version(alloc, sources)?;
    Ok(Job::Alone {
        version,
        steps: words.steps,
    })
}

/// The version that a notebook is alone.
fn solo_version(alloc: Global, sources: Sources) -> Result<Version, NoMemory>
    ensures { IfOk result (λ version. version ≡ spec.solo_version sources) }
{
    Ok(Version {
        name: Text::from_str(alloc, "solo")?,
        sources,
        inputs: Inputs::new(alloc),
    })
}

/// What `run` calls for: the versions of a manifest, within a budget.
fn run<L: Library>(alloc: Global, library: &mut L, words: &RunWords) -> Result<Job, Refusal>
    requires steps { asked.IsAllowance words.now.steps }
    requires store { IsStore words.now.store }
    ensures read { IfSome (L.files library.old) (λ view. Answers (spec.run_at view words.now) result) }
    ensures counted { IfErr result (λ r. IsCounted r (L.absences library.old) (L.absences library.new) (L.faults library.old) (L.faults library.new)) }
    ensures later { (L.absences library.old ≤ L.absences library.new) × (L.faults library.old ≤ L.faults library.new) }
    ensures files { L.files library.new ≡ L.files library.old }
    ensures small { IfOk result spec.IsSmallJob }
{
    match budget_in(&words.store) {
        Ok(budget) => shared(alloc, library, &words.manifest, budget, words.steps),
        Err(refusal) => Err(refusal),
    }
}

/// The budget that the words ask for, if it has at most 1,024 blocks.
#[tactic(auto, unfolding(crate::specs::Files::budget_in))]
fn budget_in(words: &StoreWords) -> Result<Budget, Refusal>
    requires { IsStore words.now }
    ensures value { result ≡ spec.budget_in words.now }
    ensures fits { IfOk result IsBudget }
    ensures counted { IfErr result (λ r. (a0 a1 f0 f1 : _) → IsCounted r a0 a1 f0 f1) }
{
    match budget_of(words) {
        Ok(budget) => Ok(budget),
        Err(count) => Err(Refusal::TooManyBlocks { count }),
    }
}

/// The job of the versions of the manifest of this name, which share their equal beginnings.
fn shared<L: Library>(
    alloc: Global,
    library: &mut L,
    name: &Text,
    budget: Budget,
    steps: u64,
) -> Result<Job, Refusal>
    requires budget { IsBudget budget }
    requires steps { asked.IsAllowance steps }
    ensures read { IfSome (L.files library.old) (λ view. Answers (spec.shared_at view name.now budget steps) result) }
    ensures counted { IfErr result (λ r. IsCounted r (L.absences library.old) (L.absences library.new) (L.faults library.old) (L.faults library.new)) }
    ensures later { (L.absences library.old ≤ L.absences library.new) × (L.faults library.old ≤ L.faults library.new) }
    ensures files { L.files library.new ≡ L.files library.old }
    ensures small { IfOk result spec.IsSmallJob }
{
    let manifest = file::<L, Manifest>(alloc, library, name)?;
    let versions = all_versions(alloc, library, manifest.versions.as_slice())?;
    Ok(Job::Shared {
        versions,
        budget,
        steps,
    })
}

/// The versions of a manifest, up to the first refusal.
fn all_versions<L: Library>(
    alloc: Global,
    library: &mut L,
    entries: &[Entry],
) -> Result<Versions, Refusal>
    requires { length entries.now ≤ 64 }
    ensures read { IfSome (L.files library.old) (λ view. Answers (spec.versions_at view entries.now) result) }
    ensures counted { IfErr result (λ r. IsCounted r (L.absences library.old) (L.absences library.new) (L.faults library.old) (L.faults library.new)) }
    ensures later { (L.absences library.old ≤ L.absences library.new) × (L.faults library.old ≤ L.faults library.new) }
    ensures files { L.files library.new ≡ L.files library.old }
    ensures short { IfOk result AreSmall }
    ensures few { IfOk result (λ versions. length versions ≤ 64) }
{
    let mut versions = Versions::new(alloc);
    for entry in entries {
        let version = version_in(alloc, library, entry)?;
        versions.add(version)?;
    }
    Ok(versions)
}

/// A version of a manifest: its notebook is looked at first, and then its inputs.
fn version_in<L: Library>(alloc: Global, library: &mut L, entry: &Entry) -> Result<Version, Refusal>
    ensures read { IfSome (L.files library.old) (λ view. Answers (spec.version_at view entry.now) result) }
    ensures counted { IfErr result (λ r. IsCounted r (L.absences library.old) (L.absences library.new) (L.faults library.old) (L.faults library.new)) }
    ensures later { (L.absences library.old ≤ L.absences library.new) × (L.faults library.old ≤ L.faults library.new) }
    ensures files { L.files library.new ≡ L.files library.old }
    ensures short { IfOk result IsSmall }
{
    let sources = file::<L, Sources>(alloc, library, &entry.notebook)?;
    let inputs = named_inputs(alloc, library, &entry.inputs)?;
    Ok(Version {
        name: entry.name.copy(alloc)?,
        sources,
        inputs,
    })
}

/// The inputs of a file, where a version names one.
fn named_inputs<L: Library>(
    alloc: Global,
    library: &mut L,
    name: &Option<Text>,
) -> Result<Inputs, Refusal>
    ensures read { IfSome (L.files library.old) (λ view. Answers (spec.inputs_at view name.now) result) }
    ensures counted { IfErr result (λ r. IsCounted r (L.absences library.old) (L.absences library.new) (L.faults library.old) (L.faults library.new)) }
    ensures later { (L.absences library.old ≤ L.absences library.new) × (L.faults library.old ≤ L.faults library.new) }
    ensures files { L.files library.new ≡ L.files library.old }
{
    match name {
        None => Ok(Inputs::new(alloc)),
        Some(name) => file::<L, Inputs>(alloc, library, name),
    }
}

/// What the file of this name holds, or its first refusal.
fn file<L: Library, F: Format>(alloc: Global, library: &mut L, name: &Text) -> Result<F, Refusal>
    ensures read { IfSome (L.files library.old) (λ view. Answers (spec.file_at F.reading view name.now) result) }
    ensures counted { IfErr result (λ r. IsCounted r (L.absences library.old) (L.absences library.new) (L.faults library.old) (L.faults library.new)) }
    ensures later { (L.absences library.old ≤ L.absences library.new) × (L.faults library.old ≤ L.faults library.new) }
    ensures files { L.files library.new ≡ L.files library.old }
    ensures kept { IfOk result F.kept }
{
    let bytes = bytes_of(alloc, library, name)?;
    match F::parse(alloc, &bytes) {
        Ok(held) => Ok(held),
        Err(fault) => Err(bad_file(alloc, name, fault)),
    }
}

/// A file's bytes, which are counted first.
#[tactic(auto, unfolding(crate::specs::Reads::bytes_of))]
fn bytes_of<L: Library>(alloc: Global, library: &mut L, name: &Text) -> Result<Vec<u8>, Refusal>
    ensures found { IfOk result (λ bytes. IfSome (L.files library.old) (λ view. (reads.bytes_of view name.now).1 ≡ Ok bytes.items)) }
    ensures refused { IfErr result (λ r. IfSome (L.files library.old) (λ view. Refuses (reads.bytes_of view name.now) r)) }
    ensures counted { IfErr result (λ r. IsCounted r (L.absences library.old) (L.absences library.new) (L.faults library.old) (L.faults library.new)) }
    ensures later { (L.absences library.old ≤ L.absences library.new) × (L.faults library.old ≤ L.faults library.new) }
    ensures files { L.files library.new ≡ L.files library.old }
{
    match library.read(alloc, name.as_str(), MOST_FILE + 1) {
        Found::NoMemory => Err(Refusal::NoMemory),
        Found::Failed => Err(Refusal::ReadFailed {
            file: name.copy(alloc)?,
        }),
        Found::Absent => Err(Refusal::Absent {
            file: name.copy(alloc)?,
        }),
        Found::Bytes(bytes) => {
            if bytes.len() > MOST_FILE {
                return Err(Refusal::BadFile {
                    file: name.copy(alloc)?,
                    fault: NbFault::TooMany {
                        what: Counted::Bytes,
                        count: 16_777_217,
                    },
                });
            }
            Ok(bytes)
        }
    }
}
