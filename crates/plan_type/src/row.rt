//! What is known of one node of the merged tree.
ghost use Rattle.std.specs.Prelude.{◌≡◌, ◌≤◌, ◌^◌, ◌↔◌, IsTrue};
ghost use Rattle.std.specs.Int.{div_ceil};
ghost use Rattle.plan_type.specs.Costs.{is_reached, is_unreached, NumbersFit};

use chex_base::NodeId;

/// How a node's cell ended.
#[derive(Clone, Copy, Debug, PartialEq, Eq)]
pub enum Reach {
    /// It ran to its end.
    Done,
    /// It failed, so nothing below it runs.
    Failed,
    /// It never runs, because a node above it failed.
    Unreached,
}

/// One node: where it hangs, how it ended, and what it costs.
#[derive(Clone, Copy, Debug, PartialEq, Eq)]
pub struct Row {
    /// The node above, 0 for none.
    pub parent: NodeId,
    /// How the node's cell ended.
    pub end: Reach,
    /// The steps that the node's cell takes.
    pub steps: u64,
    /// The bytes of the snapshot after the node's cell, 0 where the cell did not run to its end.
    pub bytes: u64,
    /// The SHA-256 digest of what the node's cell prints, zeros where the cell never runs.
    pub text: [u8; 32],
}

impl Reach {
    /// Whether the node runs.
    pub(crate) fn is_reached(self) -> bool
        ensures { result ≡ is_reached self }
    {
        self != Reach::Unreached
    }

    /// Whether the node never runs.
    pub(crate) fn is_unreached(self) -> bool
        ensures { result ≡ is_unreached self }
    {
        self == Reach::Unreached
    }
}

impl Row {
    /// The blocks of the node's snapshot, for blocks of `block` bytes.
    pub fn blocks(&self, block: u32) -> u64
        requires { 1 ≤ block }
        ensures value { result ≡ div_ceil self.now.bytes block }

        // The bytes of a snapshot fit a u64.
        ensures most { 256 ≤ block → result ≤ 2 ^ 56 }
    {
        self.bytes.div_ceil(u64::from(block))
    }

    /// Whether the numbers accord with how the node ended.
    pub(crate) fn numbers_fit(&self) -> bool
        ensures { IsTrue result ↔ NumbersFit self.now.end self.now }
    {
        let runs = 1 <= self.steps && self.steps <= 1_000_000;
        match self.end {
            Reach::Done => runs,
            Reach::Failed => runs && self.bytes == 0,
            Reach::Unreached => self.steps == 0 && self.bytes == 0 && self.text == [0; 32],
        }
    }
}
