//! Looks at the sources of versions, and makes their cells.
ghost use Rattle.std.specs.Prelude.{Err, IfErr, IfOk};
ghost use Rattle.chex_top.specs.Jobs as spec;

use crate::bad_cell::BadCell;
use crate::known::Known;
use crate::refusal::Refusal;
use crate::version::{Version, Versions};
use cell_reader::CellFault;
use exec_tree::Checked;
use star_syntax::Cells;
use std::alloc::Global;

/// A version with its cells, or its first cell that is refused. Equal sources are looked at once.
pub fn checked_one(alloc: Global, version: Version) -> Result<Checked, Refusal>
    requires { spec.IsSmall version }
    ensures ok { IfOk result (spec.IsChecked version) }
    ensures refused { IfErr result (spec.IsCellRefusal (spec.IsBadIn version)) }
{
    let mut known = Known::new(alloc);
    checked_version(alloc, &mut known, version)
}

/// The versions with their cells, or the first cell that is refused: that of the first version with
/// one, and the first there. Equal sources are looked at once.
pub fn checked_versions(alloc: Global, versions: Versions) -> Result<Vec<Checked>, Refusal>
    requires { spec.AreSmall versions }
    ensures ok { IfOk result (λ all. spec.AreChecked versions all.items) }
    ensures refused { IfErr result (spec.IsCellRefusal (spec.IsFirstBad versions)) }
{
    let mut known = Known::new(alloc);
    let mut all = Vec::new(alloc);
    for version in versions.into_vec() {
        all.push(checked_version(alloc, &mut known, version)?)?;
    }
    Ok(all)
}

/// A version with its cells, or its first cell that is refused.
fn checked_version(alloc: Global, known: &mut Known, version: Version) -> Result<Checked, Refusal>
    requires { spec.IsSmall version }
    ensures ok { IfOk result (spec.IsChecked version) }
    ensures refused { IfErr result (spec.IsCellRefusal (spec.IsBadIn version)) }
{
    let Version {
        name,
        sources,
        inputs,
    } = version;
    let mut cells = Vec::new(alloc);
    for (place, source) in sources.as_slice().iter().enumerate() {
        match known.cell_of(alloc, source) {
            Ok(cell) => cells.push(cell)?,
            Err(CellFault::Bad { reason, line }) => {
                return Err(Refusal::BadCell(BadCell {
                    name,
                    cell: place + 1,
                    reason,
                    line,
                }));
            }
            Err(CellFault::NoMemory) => return Err(Refusal::NoMemory),
        }
    }
    Ok(Checked {
        name,
        cells: Cells::from_vec(cells),
        inputs,
    })
}
