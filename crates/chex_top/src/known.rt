//! The cells of the sources that were looked at.
ghost use Rattle.std.specs.Prelude.{◌≡◌, ◌≤◌, [], IfOk, IfErr, length};
ghost use Rattle.std.specs.Str.{encode_utf8_all};
ghost use Rattle.cell_reader.specs.Cells as spec;

use cell_reader::{CellFault, read_cell};
use chex_base::Text;
use star_syntax::Cell;
use std::alloc::Global;
use std::collections::BTreeMap;
use std::marker::Model;

/// The cells of the sources that were looked at so far, by source, so that equal sources are looked
/// at once. A look-up takes a number of comparisons that grows with the logarithm of the count. The
/// copies of a cell share its tree.
#[derive(Drop)]
pub struct Known {
    cells: BTreeMap<Text, Cell>,
}

impl Model for Known {
    ghost use Rattle.std.specs.Prelude.{ℕ, List};
    ghost use Rattle.std.specs.Coded.{coded×, coded_ℕ, coded_list};
    ghost use Rattle.star_syntax.specs.CellParts.{CellParts};
    ghost use Rattle.star_syntax.specs.contracts.cell.Cell as one;
    ghost use Rattle.chex_top.specs.Cells.{AreKnown};

    ghost Value = { List (List ℕ × CellParts) };

    ghost coded = { coded_list (coded× (coded_list coded_ℕ) one.the_row.coded) };

    ghost view = { λ known. known.cells.entries };

    ghost invariant = { λ known. AreKnown known.cells.entries };
}

impl Known {
    /// No cells, which take no memory.
    pub fn new(alloc: Global) -> Known
        ensures { result ≡ [] }
    {
        Known {
            cells: BTreeMap::new(alloc),
        }
    }

    /// The cell of a source of at most 65,536 bytes, or what is wrong with it. The source of a cell
    /// that is known is not looked at again, and the cell is copied.
    pub fn cell_of(&mut self, alloc: Global, source: &Text) -> Result<Cell, CellFault>
        requires { length (encode_utf8_all source.now) ≤ 65536 }
        ensures cell { IfOk result (spec.IsCellOf source.now) }
        ensures fault { IfErr result (spec.IsFaultOf source.now) }
    {
        if let Some(cell) = self.cells.get(source) {
            return Ok(cell.copy(alloc)?);
        }
        let cell = read_cell(alloc, source)?;
        self.cells.insert(source.copy(alloc)?, cell.copy(alloc)?)?;
        Ok(cell)
    }
}
