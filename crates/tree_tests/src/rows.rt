//! Rows: a call, and behind a tab what it answers. A line without a tab is no row.

use crate::fault::Fault;
use crate::looks::answer;
use crate::versions::merged;
use exec_tree::Forest;
use std::alloc::Global;

/// How many rows agree, and a line for each that differs.
#[derive(Drop)]
pub struct Played {
    pub agree: u64,
    pub differing: String,
}

/// Plays the rows of a table, over the tree of the versions that were merged last.
pub fn play(alloc: Global, table: &str) -> Result<Played, Fault> {
    let mut agree: u64 = 0;
    let mut differing = String::new(alloc);
    let mut forest = none(alloc)?;
    for line in table.lines() {
        let Some((call, wanted)) = line.split_once('\t') else {
            continue;
        };
        let found = made(alloc, &mut forest, call)?;
        if found.as_str() == wanted {
            agree = agree.saturating_add(1);
        } else {
            let difference = format!(in alloc; "{line}: {found}\n")?;
            differing.push_str(difference.as_str())?;
        }
    }
    Ok(Played { agree, differing })
}

/// The tree of one version without cells.
fn none(alloc: Global) -> Result<Forest, Fault> {
    match merged(alloc, "")? {
        Ok(forest) => Ok(forest),
        Err(_) => Err(Fault::Unread),
    }
}

fn made(alloc: Global, forest: &mut Forest, call: &str) -> Result<String, Fault> {
    let Some(versions) = call.strip_prefix("merge") else {
        return answer(alloc, forest, call);
    };
    match merged(alloc, versions)? {
        Ok(new) => {
            let count = new.count();
            *forest = new;
            Ok(format!(in alloc; "{count} nodes")?)
        }
        Err(fault) => Ok(format!(in alloc; "{fault:?}")?),
    }
}
