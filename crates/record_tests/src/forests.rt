//! The versions whose records the tables speak of.
ghost use Rattle.std.specs.Prelude.{◌≤◌, ◌↔◌, IsTrue, All, length};

use crate::cells::cell;
use crate::fault::Fault;
use chex_base::{Inputs, Text};
use exec_tree::{Checked, Forest, merge};
use nb_reader::read_inputs;
use star_syntax::Cells;
use std::alloc::Global;

/// The first cell of both versions.
const FIRST: &str = "x = [1]\ny = x";

/// Reads inputs of each kind, and one that is absent.
const READER: &str =
    "print(input(\"list\"), input(\"é\"), input(\"none\"), input(\"false\"), input(\"true\"), input(\"low\"), input(\"high\"), input(\"text\"), input(\"empty\"))";

/// The forest of two versions that begin with the same cell.
pub fn pair(alloc: Global) -> Result<Forest, Fault> {
    let mut versions = Vec::new(alloc);
    versions.push(version(alloc, &[FIRST, "y.append(2)\nprint(x)"], Inputs::new(alloc))?)?;
    versions.push(version(alloc, &[FIRST, "print(y)"], Inputs::new(alloc))?)?;
    merged(alloc, &versions)
}

/// The forest of one version that reads its inputs, which a file has.
pub fn reader(alloc: Global, inputs: &[u8]) -> Result<Forest, Fault> {
    let inputs = read_inputs(alloc, inputs)?;
    let mut versions = Vec::new(alloc);
    versions.push(version(alloc, &[READER, READER], inputs)?)?;
    merged(alloc, &versions)
}

fn version(alloc: Global, sources: &[&str], inputs: Inputs) -> Result<Checked, Fault> {
    let mut cells = Vec::new(alloc);
    for source in sources {
        cells.push(cell(alloc, source)?)?;
    }
    Ok(Checked {
        name: Text::from_str(alloc, "v")?,
        cells: Cells::from_vec(cells),
        inputs,
    })
}

fn merged(alloc: Global, versions: &[Checked]) -> Result<Forest, Fault> {
    if versions.len() > 64 || !are_short(versions) {
        return Err(Fault::Unread);
    }
    Ok(merge(alloc, versions)?)
}

/// Whether no version has more than 64 cells.
fn are_short(versions: &[Checked]) -> bool
    ensures { IsTrue result ↔ All (λ version. length version.cells ≤ 64) versions.now }
{
    versions
        .iter()
        .all(|version| version.cells.as_slice().len() <= 64)
}
