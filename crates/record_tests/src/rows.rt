//! Rows: what the bytes of a record are read as.
use crate::fault::Fault;
use crate::shown::{fault_shown, record_shown};
use audit_record::{RecordFault, Recorded, fits, read_old, read_record, write_record};
use exec_tree::Forest;
use std::alloc::Global;

/// What is said of a row's record, where that is not what the row says. The first field says of
/// which versions the record is to be, `pair` or `reader`, or `old` for a record of version 1 of
/// the pair; then come the verdict and the record.
pub fn difference(
    alloc: Global,
    line: &str,
    pair: &Forest,
    reader: &Forest,
) -> Result<Option<String>, Fault> {
    let Some((kind, rest)) = line.split_once('\t') else {
        return Err(Fault::Unread);
    };
    let Some((expected, record)) = rest.split_once('\t') else {
        return Err(Fault::Unread);
    };
    let bytes = record.as_bytes();
    let found = match kind {
        "pair" => verdict(alloc, read_record(alloc, bytes), pair)?,
        "reader" => verdict(alloc, read_record(alloc, bytes), reader)?,
        "old" => verdict(alloc, read_old(alloc, bytes), pair)?,
        _ => return Err(Fault::Unread),
    };
    if found.as_str() == expected {
        return Ok(None);
    }
    Ok(Some(found))
}

/// What is said of a record that was read so, over the forest of its versions.
fn verdict(
    alloc: Global,
    reading: Result<Recorded, RecordFault>,
    forest: &Forest,
) -> Result<String, Fault> {
    let recorded = match reading {
        Ok(recorded) => recorded,
        Err(fault) => return fault_shown(alloc, &fault),
    };
    if recorded.costs.rows.len() != recorded.keys.len() {
        return Err(Fault::Unread);
    }
    match fits(alloc, &recorded, forest) {
        Ok(()) => record_shown(alloc, &recorded),
        Err(fault) => fault_shown(alloc, &fault),
    }
}

/// How the record in these bytes and the one that is written for what it says differ, and whether
/// the bytes without their last ones are no record, but for the newline alone.
pub fn whole(alloc: Global, bytes: &[u8], forest: &Forest) -> Result<Option<String>, Fault> {
    let recorded = read_record(alloc, bytes)?;
    if recorded.costs.rows.len() != forest.count() as usize {
        return Err(Fault::Unread);
    }
    let text = write_record(alloc, forest, &recorded.costs, recorded.allowance)?;
    if text.as_str().as_bytes() != bytes {
        return Ok(Some(String::from_str(alloc, text.as_str())?));
    }
    for end in 0..bytes.len() {
        let is_record = match read_record(alloc, &bytes[..end]) {
            Ok(_) => true,
            Err(RecordFault::NotRecord) => false,
            Err(_) => return Err(Fault::Unread),
        };
        let without_newline = end == bytes.len() - 1;
        if is_record != without_newline {
            return Ok(Some(format!(in alloc; "{end} bytes: {is_record}")?));
        }
    }
    Ok(None)
}
