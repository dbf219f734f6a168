//! What the words ask for.
use chex_base::Text;

/// A command with its words, each within its limits.
#[derive(Debug, Drop)]
pub enum Command {
    /// Run one notebook alone.
    Solo(SoloWords),
    /// Run all versions of a manifest within a budget.
    Run(RunWords),
    /// Measure all versions of a manifest, and write the record of it.
    Audit(AuditWords),
    /// Run all versions of a manifest by the plan of a record.
    Replay(ReplayWords),
    /// Write the least plan of a record.
    Plan(PlanWords),
    /// Look at a plan for a record.
    Check(CheckWords),
    /// Run versions that are made from a number.
    Make(MakeWords),
}

/// The words of `solo`.
#[derive(Debug, Drop)]
pub struct SoloWords {
    /// The notebook's file.
    pub notebook: Text,
    /// The step bound of each cell, 1 to 1,000,000.
    pub steps: u64,
}

/// The words of `run`.
#[derive(Debug, Drop)]
pub struct RunWords {
    /// The manifest's file.
    pub manifest: Text,
    pub store: StoreWords,
    /// The step bound of each cell, 1 to 1,000,000.
    pub steps: u64,
    pub taps: TapWords,
}

/// The words of `audit`.
#[derive(Debug, Drop)]
pub struct AuditWords {
    /// The manifest's file.
    pub manifest: Text,
    /// The step bound of each cell, 1 to 1,000,000.
    pub steps: u64,
}

/// The words of `replay`.
#[derive(Debug, Drop)]
pub struct ReplayWords {
    /// The manifest's file.
    pub manifest: Text,
    /// The record's file.
    pub record_file: Text,
    pub store: StoreWords,
    pub taps: TapWords,
}

/// The words of `plan`.
#[derive(Debug, Drop)]
pub struct PlanWords {
    /// The record's file.
    pub record_file: Text,
    pub store: StoreWords,
}

/// The words of `check`.
#[derive(Debug, Drop)]
pub struct CheckWords {
    /// The record's file.
    pub record_file: Text,
    /// The plan's file.
    pub plan_file: Text,
    pub store: StoreWords,
}

/// The words of `make`.
#[derive(Debug, Drop)]
pub struct MakeWords {
    /// The number that the versions are made from.
    pub seed: u64,
    /// How many versions are made, 1 to 64.
    pub versions: u64,
    /// How many cells each version has, 1 to 64; versions times cells are at most 512.
    pub cells: u64,
    pub store: StoreWords,
    pub taps: TapWords,
}

/// The store's size, and what storing costs.
#[derive(Clone, Copy, Debug, PartialEq, Eq)]
pub struct StoreWords {
    /// The budget in bytes, a number of at most 19 digits.
    pub budget: u64,
    /// The size of a block in bytes, 256 to 1,048,576, where it is given.
    pub block: Option<u64>,
    /// The steps that the saving of a block counts as, 0 to 1,000,000.
    pub save: u64,
    /// The steps that the loading of a block counts as, 0 to 1,000,000.
    pub load: u64,
}

/// The listeners that are asked for.
#[derive(Clone, Copy, Debug, PartialEq, Eq)]
pub struct TapWords {
    /// Whether each operation is told.
    pub transcript: bool,
    /// Whether operations are counted by kind.
    pub tally: bool,
    /// Whether the operations' digest is told.
    pub chain: bool,
}
