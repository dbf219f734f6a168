//! What is carried out, after the cells and the nodes of all versions were looked at.
ghost use Rattle.std.specs.Prelude.{◌≡◌, ◌≤◌, ◌⊎◌, None, Err, IfErr, IfOk, IfSome, length, map, string_bytes};
ghost use Rattle.plan_type.specs.Budget.{IsBudget};
ghost use Rattle.chex_top.specs.Files.{IsSmallJob};
ghost use Rattle.chex_top.specs.Jobs.{AreSmall, IsSmall};
ghost use Rattle.chex_top.specs.Reads.{IsCounted};
ghost use Rattle.chex_top.specs.Tasks as spec;
ghost use Rattle.chex_top.specs.Words.{IsAllowance, asked_of};

use crate::checking::{checked_one, checked_versions};
use crate::files::read_job;
use crate::nodes::merged;
use crate::refusal::Refusal;
use crate::version::{Job, Version, Versions};
use chex_base::Library;
use exec_tree::Checked;
use plan_type::Budget;
use sqlite_items::Items;
use std::alloc::Global;

/// What is carried out.
#[derive(Drop)]
pub enum Task {
    /// One version alone, with so many steps for each cell.
    Alone {
        version: Checked,
        steps: u64,
    },
    /// Versions that share their equal beginnings, within a budget, with so many steps for each
    /// cell.
    Shared {
        versions: Items<Checked>,
        budget: Budget,
        steps: u64,
    },
}

/// What the words and the files call for, or the first refusal: of the words, the blocks and the
/// files in order, then of all cells, and then of the nodes.
pub fn read_task<L: Library>(
    alloc: Global,
    words: &[String],
    library: &mut L,
) -> Result<Task, Refusal>
    ensures due { IfSome (L.files library.old) (λ file. spec.due file (map string_bytes words.now) result) }
    ensures counted { IfErr result (λ r. ((r ≡ Refusal.Usage) × (asked_of (map string_bytes words.now) ≡ None)) ⊎ IsCounted r (L.absences library.old) (L.absences library.new) (L.faults library.old) (L.faults library.new)) }
    ensures usage { asked_of (map string_bytes words.now) ≡ None → (result ≡ Err Refusal.Usage) ⊎ (result ≡ Err Refusal.NoMemory) }
    ensures ready { IfOk result spec.IsReady }
    ensures files { L.files library.new ≡ L.files library.old }
    ensures counts { (L.absences library.old ≤ L.absences library.new) × (L.faults library.old ≤ L.faults library.new) }
{
    match read_job(alloc, words, library) {
        Ok(job) => task_of(alloc, job),
        Err(refusal) => Err(refusal),
    }
}

/// What a job calls for, or the first refusal of its cells and nodes.
fn task_of(alloc: Global, job: Job) -> Result<Task, Refusal>
    requires { IsSmallJob job }
    ensures due { spec.task_of job result }
    ensures counted { IfErr result (λ r. (a0 a1 f0 f1 : _) → IsCounted r a0 a1 f0 f1) }
    ensures ready { IfOk result spec.IsReady }
{
    match job {
        Job::Alone { version, steps } => alone(alloc, version, steps),
        Job::Shared {
            versions,
            budget,
            steps,
        } => shared(alloc, versions, budget, steps),
    }
}

/// A version alone, if its cells are accepted.
fn alone(alloc: Global, version: Version, steps: u64) -> Result<Task, Refusal>
    requires small { IsSmall version }
    requires steps { IsAllowance steps }
    ensures due { spec.alone_task version steps result }
    ensures counted { IfErr result (λ r. (a0 a1 f0 f1 : _) → IsCounted r a0 a1 f0 f1) }
    ensures ready { IfOk result spec.IsReady }
{
    match checked_one(alloc, version) {
        Ok(version) => Ok(Task::Alone { version, steps }),
        Err(refusal) => Err(refusal),
    }
}

/// Versions that share, if their cells are accepted and they have at most 512 nodes.
fn shared(alloc: Global, versions: Versions, budget: Budget, steps: u64) -> Result<Task, Refusal>
    requires small { AreSmall versions }
    requires few { length versions ≤ 64 }
    requires budget { IsBudget budget }
    requires steps { IsAllowance steps }
    ensures due { spec.shared_task versions budget steps result }
    ensures counted { IfErr result (λ r. (a0 a1 f0 f1 : _) → IsCounted r a0 a1 f0 f1) }
    ensures ready { IfOk result spec.IsReady }
{
    let checked = match checked_versions(alloc, versions) {
        Ok(checked) => Items::from_vec(checked),
        Err(refusal) => return Err(refusal),
    };
    match merged(alloc, checked.as_slice()) {
        Ok(_) => Ok(Task::Shared {
            versions: checked,
            budget,
            steps,
        }),
        Err(refusal) => Err(refusal),
    }
}
