//! Where a recorded row and a measured one differ.
ghost use Rattle.std.specs.Prelude.{MatchOption};
ghost use Rattle.replayer.specs.Differences.{AreSame, IsDifference};

use plan_type::{Reach, Row};

/// A field in which a recorded row and a measured one differ, with both values.
#[derive(Clone, Copy, Debug, PartialEq, Eq)]
pub enum Difference {
    /// How the cell ended.
    End {
        recorded: Reach,
        measured: Reach,
    },
    /// The steps that the cell took.
    Steps {
        recorded: u64,
        measured: u64,
    },
    /// The bytes of the snapshot after the cell.
    Bytes {
        recorded: u64,
        measured: u64,
    },
    /// The SHA-256 digest of what the cell prints.
    Text {
        recorded: [u8; 32],
        measured: [u8; 32],
    },
}

/// The first field in which two rows of a node differ, in the order in which `Difference` has them.
pub(crate) fn first_difference(recorded: &Row, measured: &Row) -> Option<Difference>
    ensures { MatchOption result (AreSame recorded.now measured.now) (IsDifference recorded.now measured.now) }
{
    if recorded.end != measured.end {
        return Some(Difference::End {
            recorded: recorded.end,
            measured: measured.end,
        });
    }
    if recorded.steps != measured.steps {
        return Some(Difference::Steps {
            recorded: recorded.steps,
            measured: measured.steps,
        });
    }
    if recorded.bytes != measured.bytes {
        return Some(Difference::Bytes {
            recorded: recorded.bytes,
            measured: measured.bytes,
        });
    }
    if recorded.text != measured.text {
        return Some(Difference::Text {
            recorded: recorded.text,
            measured: measured.text,
        });
    }
    None
}
