//! What a cell did.

use chex_base::Text;
use star_value::Failure;

/// How a cell ended.
#[derive(Clone, Copy, Debug, PartialEq, Eq)]
pub enum End {
    Done,
    /// The failure, and the line of the innermost statement of the cell itself, not of a called
    /// function, that was being executed.
    Failed { failure: Failure, line: u32 },
}

/// What a cell did: how it ended, the code points that it wrote, and how many steps it took.
#[derive(Debug, Drop)]
pub struct Ran {
    pub end: End,
    pub out: Text,
    pub steps: u64,
}
