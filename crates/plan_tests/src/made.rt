//! Plans of a row: entries between which commas stand, each of them a node, `hold` or `free`, and
//! how many of the entries before it stand under it.

use crate::fault::Fault;
use crate::words::{cut, number, number_and};
use chex_base::NodeId;
use plan_type::{Entry, Plan};
use sqlite_items::Items;
use std::alloc::Global;

/// The plan that a text tells.
pub fn plan_of(alloc: Global, text: &str) -> Result<Plan, Fault> {
    let mut entries = Vec::new(alloc);
    for words in text.split(", ") {
        add(alloc, &mut entries, words)?;
    }
    Ok(Plan::of(Items::from_vec(entries)))
}

fn add(alloc: Global, entries: &mut Vec<Entry<Plan>>, words: &str) -> Result<(), Fault> {
    let (child, rest) = number_and(words)?;
    let (hold, count) = cut(rest);
    let count = number(count)? as usize;
    let hold = held(hold)?;
    let rest = taken(alloc, entries, count)?;
    entries.push(Entry {
        child: NodeId(child),
        hold,
        rest,
    })?;
    Ok(())
}

fn held(word: &str) -> Result<bool, Fault> {
    match word {
        "hold" => Ok(true),
        "free" => Ok(false),
        _ => Err(Fault::Unread),
    }
}

/// The plan of the last entries, which are taken out.
fn taken(alloc: Global, entries: &mut Vec<Entry<Plan>>, count: usize) -> Result<Plan, Fault> {
    let mut under = Vec::new(alloc);
    for _entry in 0..count {
        let Some(entry) = entries.pop() else {
            return Err(Fault::Unread);
        };
        under.insert(0, entry)?;
    }
    Ok(Plan::of(Items::from_vec(under)))
}
