//! What a record says, and why it is refused, as a line.
use crate::fault::Fault;
use audit_record::{RecordFault, Recorded};
use plan_type::{Reach, Row};
use std::alloc::Global;

/// The step bound, and of each node its parent, its end, its steps, its bytes and the digest of its
/// text.
pub fn record_shown(alloc: Global, recorded: &Recorded) -> Result<String, Fault> {
    let mut text = format!(in alloc; "{}", recorded.allowance)?;
    for row in recorded.costs.rows.as_slice() {
        text.push_str(" | ")?;
        text.push_str(row_shown(alloc, row)?.as_str())?;
    }
    Ok(text)
}

fn row_shown(alloc: Global, row: &Row) -> Result<String, Fault> {
    let digits = hex::encode(alloc, row.text.as_slice())?;
    let end = match row.end {
        Reach::Done => "done",
        Reach::Failed => "failed",
        Reach::Unreached => "unreached",
    };
    Ok(format!(in alloc;
        "{} {end} {} {} {}",
        row.parent.0,
        row.steps,
        row.bytes,
        digits.as_str()
    )?)
}

/// The end of the line of a fault.
pub fn fault_shown(alloc: Global, fault: &RecordFault) -> Result<String, Fault> {
    match fault {
        RecordFault::NotRecord => Ok(String::from_str(alloc, "not a record")?),
        RecordFault::OldRecord { version } => Ok(format!(in alloc; "record version {version}")?),
        RecordFault::Stale {
            node,
            recorded,
            found,
        } => {
            let recorded = digest_shown(alloc, recorded)?;
            let found = digest_shown(alloc, found)?;
            Ok(format!(in alloc;
                "stale at node {}: recorded {} found {}",
                node.0,
                recorded.as_str(),
                found.as_str()
            )?)
        }
        RecordFault::NoMemory => Err(Fault::NoMemory),
        RecordFault::WrongParent {
            node,
            recorded,
            found,
        } => Ok(format!(in alloc;
            "parent of node {}: recorded {} found {}",
            node.0, recorded.0, found.0
        )?),
    }
}

fn digest_shown(alloc: Global, digest: &Option<[u8; 32]>) -> Result<String, Fault> {
    match digest {
        Some(bytes) => Ok(hex::encode(alloc, bytes.as_slice())?),
        None => Ok(String::from_str(alloc, "none")?),
    }
}
