//! Versions of a row, between which `||` stands: inputs, which are names with integers, up to `::`
//! where there are any, and cells, between which `|` stands.
ghost use Rattle.std.specs.Prelude.{◌≤◌, ◌↔◌, IsTrue, All, length};

use crate::cells::cell_of;
use crate::fault::Fault;
use chex_base::{Input, Inputs, Text};
use exec_tree::{Checked, Forest, TreeFault, merge};
use star_syntax::Cells;
use std::alloc::Global;

/// The tree of the versions, or why there is none.
pub fn merged(alloc: Global, text: &str) -> Result<Result<Forest, TreeFault>, Fault> {
    let mut versions = Vec::new(alloc);
    for version in text.split("||") {
        versions.push(version_of(alloc, version)?)?;
    }
    if versions.len() > 64 || !are_short(&versions) {
        return Err(Fault::Unread);
    }
    match merge(alloc, &versions) {
        Err(TreeFault::NoMemory) => Err(Fault::NoMemory),
        outcome => Ok(outcome),
    }
}

/// Whether no version has more than 64 cells.
fn are_short(versions: &[Checked]) -> bool
    ensures { IsTrue result ↔ All (λ version. length version.cells ≤ 64) versions.now }
{
    versions
        .iter()
        .all(|version| version.cells.as_slice().len() <= 64)
}

fn version_of(alloc: Global, text: &str) -> Result<Checked, Fault> {
    let (inputs, cells) = match text.split_once("::") {
        Some(parts) => parts,
        None => ("", text),
    };
    let cells = cells_of(alloc, cells.trim())?;
    let inputs = inputs_of(alloc, inputs.trim())?;
    let name = Text::from_str(alloc, "v")?;
    Ok(Checked {
        name,
        cells,
        inputs,
    })
}

fn cells_of(alloc: Global, text: &str) -> Result<Cells, Fault> {
    let mut cells = Vec::new(alloc);
    if !text.is_empty() {
        for written in text.split('|') {
            cells.push(cell_of(alloc, written.trim())?)?;
        }
    }
    Ok(Cells::from_vec(cells))
}

fn inputs_of(alloc: Global, text: &str) -> Result<Inputs, Fault> {
    let mut inputs = Inputs::new(alloc);
    if !text.is_empty() {
        for word in text.split(' ') {
            set(alloc, &mut inputs, word)?;
        }
    }
    Ok(inputs)
}

fn set(alloc: Global, inputs: &mut Inputs, word: &str) -> Result<(), Fault> {
    let Some((name, number)) = word.split_once('=') else {
        return Err(Fault::Unread);
    };
    let Ok(number) = number.parse::<i128>() else {
        return Err(Fault::Unread);
    };
    inputs.set(Text::from_str(alloc, name)?, Input::Int(number))?;
    Ok(())
}
