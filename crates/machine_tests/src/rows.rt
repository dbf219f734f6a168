//! Rows: a call, and behind the last tab what it answers.

use crate::fault::Fault;
use crate::{keys, operators, writes};
use heap_store::Pairs;
use std::alloc::Global;

/// How many rows agree, and a line for each that differs.
#[derive(Drop)]
pub struct Played {
    pub agree: u64,
    pub differing: String,
}

impl Played {
    fn new(alloc: Global) -> Played {
        Played {
            agree: 0,
            differing: String::new(alloc),
        }
    }

    /// Compares what a call answered with what its row says.
    fn add(&mut self, alloc: Global, line: &str, found: &str, wanted: &str) -> Result<(), Fault> {
        if found == wanted {
            self.agree = self.agree.saturating_add(1);
        } else {
            let difference = format!(in alloc; "{line}: {found}\n")?;
            self.differing.push_str(difference.as_str())?;
        }
        Ok(())
    }
}

/// Plays rows over a machine in which the cell of node 1 runs. A line without a tab begins another.
pub fn play_machine(alloc: Global, table: &str) -> Result<Played, Fault> {
    let mut played = Played::new(alloc);
    let mut machine = operators::entered(alloc)?;
    for line in table.lines() {
        match line.rsplit_once('\t') {
            Some((call, wanted)) => {
                let found = writes::answer(alloc, &mut machine, call)?;
                played.add(alloc, line, found.as_str(), wanted)?;
            }
            None => machine = operators::entered(alloc)?,
        }
    }
    Ok(played)
}

/// Plays rows over the pairs of a dict.
pub fn play_pairs(alloc: Global, table: &str) -> Result<Played, Fault> {
    let mut played = Played::new(alloc);
    let mut pairs = Pairs::new(alloc);
    for line in table.lines() {
        if let Some((call, wanted)) = line.rsplit_once('\t') {
            let found = keys::answer(alloc, &mut pairs, call)?;
            played.add(alloc, line, found.as_str(), wanted)?;
        }
    }
    Ok(played)
}

/// Plays rows of operators, each over a machine of its own.
pub fn play_operators(alloc: Global, table: &str) -> Result<Played, Fault> {
    let mut played = Played::new(alloc);
    for line in table.lines() {
        if let Some((call, wanted)) = line.rsplit_once('\t') {
            let found = operators::answer(alloc, call)?;
            played.add(alloc, line, found.as_str(), wanted)?;
        }
    }
    Ok(played)
}
