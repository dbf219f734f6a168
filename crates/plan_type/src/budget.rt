//! What a plan may hold, and what holding costs.
ghost use Rattle.std.specs.Prelude.{◌≡◌, ◌≤◌, ◌*◌, true, if◌then◌else◌};

/// The budget of the snapshot store, with the prices of using it.
#[derive(Clone, Copy, Debug, PartialEq, Eq)]
pub struct Budget {
    /// The bytes of a block, from 256 to 1,048,576.
    pub block: u32,
    /// The most blocks that may be held at once, from 0 to 1,024.
    pub most: u32,
    /// The steps that storing a snapshot costs for each of its blocks, from 0 to 1,000,000.
    pub save: u32,
    /// The steps that restoring a snapshot costs for each of its blocks, from 0 to 1,000,000.
    pub load: u32,
}

/// The price of storing or restoring these blocks at this rate for each, where that is done; 0
/// where it is not.
pub fn price(done: bool, rate: u32, blocks: u64) -> u64
    requires rate { rate ≤ 1000000 }
    requires blocks { done ≡ true → blocks ≤ 1024 }
    ensures value { result ≡ (if done then rate * blocks else 0) }
    ensures most { result ≤ 1024000000 }
{
    if done { u64::from(rate) * blocks } else { 0 }
}
