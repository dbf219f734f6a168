//! Makes the versions of a case.
ghost use Rattle.std.specs.Prelude.{◌≤◌, length, All, IfOk};
ghost use Rattle.cell_reader.specs.Cells.{IsRead};
ghost use Rattle.shared_tests.specs.Versions.{IsFit};

use crate::cases::Version;
use crate::fault::Fault;
use cell_reader::read_cell;
use chex_base::{Input, Inputs, Text};
use exec_tree::Checked;
use star_syntax::{Cell, Cells};
use std::alloc::Global;

/// The most bytes of a source.
const MOST_BYTES: usize = 65_536;

/// The most versions, and the most cells of one.
const MOST: usize = 64;

/// Versions with their cells.
#[tactic(auto, using(crate::proofs::FitLemmas::one_more))]
pub fn checked_versions(alloc: Global, versions: &[Version]) -> Result<Vec<Checked>, Fault>
    ensures few { IfOk result (λ all. length all.items ≤ 64) }
    ensures fit { IfOk result (λ all. All IsFit all.items) }
{
    if versions.len() > MOST {
        return Err(Fault::PastLimit);
    }
    let mut all = Vec::new(alloc);
    for version in versions {
        all.push(checked(alloc, version)?)?;
    }
    Ok(all)
}

fn checked(alloc: Global, version: &Version) -> Result<Checked, Fault>
    ensures { IfOk result IsFit }
{
    let cells = cells_of(alloc, version.sources)?;
    let name = Text::from_str(alloc, version.name)?;
    let inputs = inputs_of(alloc, version.inputs)?;
    Ok(Checked {
        name,
        cells,
        inputs,
    })
}

fn inputs_of(alloc: Global, named: &[(&str, i128)]) -> Result<Inputs, Fault> {
    let mut inputs = Inputs::new(alloc);
    for (name, value) in named {
        inputs.set(Text::from_str(alloc, name)?, Input::Int(*value))?;
    }
    Ok(inputs)
}

#[tactic(auto, using(crate::proofs::FitLemmas::one_more))]
fn cells_of(alloc: Global, sources: &[&str]) -> Result<Cells, Fault>
    ensures few { IfOk result (λ cells. length cells ≤ 64) }
    ensures read { IfOk result (All IsRead) }
{
    if sources.len() > MOST {
        return Err(Fault::PastLimit);
    }
    let mut cells = Vec::new(alloc);
    for source in sources {
        cells.push(cell_of(alloc, source)?)?;
    }
    Ok(Cells::from_vec(cells))
}

#[tactic(auto, using(cell_reader::proofs::ReadLemmas::is_read))]
fn cell_of(alloc: Global, source: &str) -> Result<Cell, Fault>
    ensures { IfOk result IsRead }
{
    let text = Text::from_str(alloc, source)?;
    if text.as_str().len() > MOST_BYTES {
        return Err(Fault::PastLimit);
    }
    Ok(read_cell(alloc, &text)?)
}
