//! The facts of rows.
use crate::called::Ended;
use crate::fault::Fault;
use chex_base::Calls;
use std::alloc::Global;

/// A text of a row with its newlines.
pub fn with_newlines(alloc: Global, text: &str) -> Result<String, Fault> {
    let mut all = String::new(alloc);
    for (place, line) in text.split('¶').enumerate() {
        if place > 0 {
            all.push_str("\n")?;
        }
        all.push_str(line)?;
    }
    Ok(all)
}

/// Whether a fact is told after the call; the others are there before it.
pub fn is_told(fact: &str) -> bool {
    !fact.starts_with("fails ") && !fact.starts_with("tap ")
}

/// The number after these words, if a fact is that.
pub fn number_after(fact: &str, words: &str) -> Option<u64> {
    let rest = fact.strip_prefix(words)?;
    rest.parse::<u64>().ok()
}

/// The calls of a device that fail.
pub fn failing(alloc: Global, facts: &[&str], device: &str) -> Result<Calls, Fault> {
    let mut calls = Calls::new(alloc);
    for fact in facts {
        if let Some(number) = number_after(fact, device) {
            calls.add(number)?;
        }
    }
    Ok(calls)
}

/// What is told after a call under this name.
pub fn found(alloc: Global, ended: &Ended, name: &str) -> Result<String, Fault> {
    let told = ended.told;
    let number = match name {
        "reads" => told.reads,
        "writes" => told.writes,
        "kernel calls" => told.kernel_calls,
        "store calls" => told.store_calls,
        "steps" => told.steps,
        "peak" => told.peak,
        "used" => told.used,
        "planned" => told.planned,
        "live" => return Ok(String::from_str(alloc, ended.live.as_str())?),
        "retired" => return Ok(String::from_str(alloc, ended.retired.as_str())?),
        _ => return Err(Fault::Unread),
    };
    Ok(format!(in alloc; "{number}")?)
}
