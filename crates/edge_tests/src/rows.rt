//! Rows: what is asked, and behind the last tab what is answered. A line without a tab is no row.

use crate::fault::Fault;
use crate::words::on_one_line;
use crate::{inputs, readers, streams};
use std::alloc::Global;

/// What the rows of a table ask.
#[derive(Clone, Copy)]
pub enum Table {
    /// The sources of a notebook.
    Notebooks,
    /// The versions of a manifest.
    Manifests,
    /// The value of the name `n` in a file of inputs.
    Inputs,
    /// A file at a limit, or past it.
    Limits,
    /// The prefix of what a reader gives.
    Prefixes,
    /// A piece that a writer takes.
    Pieces,
    /// The value of a name in copied inputs.
    Copies,
    /// The line before a version's outputs.
    Lines,
}

/// How many rows agree, and a line for each that differs.
#[derive(Drop)]
pub struct Played {
    pub agree: u64,
    pub differing: String,
}

fn answer(alloc: Global, table: Table, asked: &str) -> Result<String, Fault> {
    match table {
        Table::Notebooks => readers::notebook(alloc, asked),
        Table::Manifests => readers::versions(alloc, asked),
        Table::Inputs => readers::input(alloc, asked),
        Table::Limits => readers::limit(alloc, asked),
        Table::Prefixes => streams::prefix(alloc, asked),
        Table::Pieces => streams::piece(alloc, asked),
        Table::Copies => inputs::copied(alloc, asked),
        Table::Lines => inputs::line(alloc, asked),
    }
}

/// What is answered, on one line.
pub fn shown(alloc: Global, table: Table, asked: &str) -> Result<String, Fault> {
    let found = answer(alloc, table, asked)?;
    on_one_line(alloc, found.as_str())
}

/// Compares each row of a table with what is answered.
pub fn play(alloc: Global, table: Table, text: &str) -> Result<Played, Fault> {
    let mut agree: u64 = 0;
    let mut differing = String::new(alloc);
    for line in text.lines() {
        let Some((asked, wanted)) = line.rsplit_once('\t') else {
            continue;
        };
        let found = shown(alloc, table, asked)?;
        if found.as_str() == wanted {
            agree = agree.saturating_add(1);
        } else {
            let difference = format!(in alloc; "{line}: {found}\n")?;
            differing.push_str(difference.as_str())?;
        }
    }
    Ok(Played { agree, differing })
}
