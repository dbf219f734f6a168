//! Laws of what sources give, as the contracts of functions. The functions do nothing.
ghost use Rattle.cell_reader.specs.Laws as laws;

/// A source gives a cell or is wrong, never both. It gives one cell at most, and one thing at most is
/// wrong with it.
#[tactic(auto, using(crate::proofs::WrongLemmas::wrong_once))]
pub fn one_answer()
    ensures cell { laws.OneCell }
    ensures apart { laws.NeverBoth }
    ensures fault { laws.OneFault }
{}

/// Cells that were each read from their source have the names of the inputs that they read, and those
/// with one source are one cell.
#[tactic(auto, using(crate::proofs::ReadLemmas::one_by_source, crate::proofs::ReadLemmas::have_their_names))]
pub fn read_cells()
    ensures names { laws.HaveTheirNames }
    ensures one { laws.AreOneBySource }
{}
