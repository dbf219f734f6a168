//! Worked rows: small cells with what they write and how many steps they take. Each function's
//! contract is a table of `specs/Rows`, which holds by the definitions alone.
ghost use Rattle.star_meaning.specs.Rows.Arithmetic.{Arithmetic};
ghost use Rattle.star_meaning.specs.Rows.Comparisons.{Comparisons};
ghost use Rattle.star_meaning.specs.Rows.Parts.{Parts};
ghost use Rattle.star_meaning.specs.Rows.Choices.{Choices};
ghost use Rattle.star_meaning.specs.Rows.Statements.{Statements};
ghost use Rattle.star_meaning.specs.Rows.BuiltinFunctions.{BuiltinFunctions};
ghost use Rattle.star_meaning.specs.Rows.LongCells.{LongCells};
ghost use Rattle.star_meaning.specs.Rows.ListMethods.{ListMethods};
ghost use Rattle.star_meaning.specs.Rows.DictMethods.{DictMethods};
ghost use Rattle.star_meaning.specs.Rows.TextMethods.{TextMethods};
ghost use Rattle.star_meaning.specs.Rows.Failures.{Failures};
ghost use Rattle.star_meaning.specs.Rows.Cells.{Cells};
ghost use Rattle.star_meaning.specs.Rows.Snapshots.{Snapshots};
ghost use Rattle.star_meaning.specs.Rows.Turns.{Turns};

/// Arithmetic on integers, texts, tuples and lists.
#[tactic(auto, using(crate::proofs::Evaluated::Arithmetic::arithmetic_hold))]
pub fn arithmetic()
    ensures { Arithmetic }
{}

/// Comparisons, with the charges of their walks.
#[tactic(auto, using(crate::proofs::Evaluated::Comparisons::comparisons_hold))]
pub fn comparisons()
    ensures { Comparisons }
{}

/// Indexes and slices.
#[tactic(auto, using(crate::proofs::Evaluated::Parts::parts_hold))]
pub fn parts()
    ensures { Parts }
{}

/// Conditionals, `and`, `or`, `not`.
#[tactic(auto, using(crate::proofs::Evaluated::Choices::choices_hold))]
pub fn choices()
    ensures { Choices }
{}

/// Statements, calls of functions and inputs.
#[tactic(auto, using(crate::proofs::Evaluated::Statements::statements_hold))]
pub fn statements()
    ensures { Statements }
{}

/// Built-in functions.
#[tactic(auto, using(crate::proofs::Evaluated::BuiltinFunctions::builtin_functions_hold))]
pub fn builtin_functions()
    ensures { BuiltinFunctions }
{}

/// Methods of lists.
#[tactic(auto, using(crate::proofs::Evaluated::ListMethods::list_methods_hold))]
pub fn list_methods()
    ensures { ListMethods }
{}

/// Methods of dicts.
#[tactic(auto, using(crate::proofs::Evaluated::DictMethods::dict_methods_hold))]
pub fn dict_methods()
    ensures { DictMethods }
{}

/// Methods of texts.
#[tactic(auto, using(crate::proofs::Evaluated::TextMethods::text_methods_hold))]
pub fn text_methods()
    ensures { TextMethods }
{}

/// Failures, with the steps up to them.
#[tactic(auto, using(crate::proofs::Evaluated::Failures::failures_hold))]
pub fn failures()
    ensures { Failures }
{}

/// Cells one after another.
#[tactic(auto, using(crate::proofs::Evaluated::Cells::cells_hold))]
pub fn cells()
    ensures { Cells }
{}

/// Comprehensions, and loops that break off.
#[tactic(auto, using(crate::proofs::Evaluated::Turns::turns_hold))]
pub fn turns()
    ensures { Turns }
{}

/// Longer cells: a loop over a dict, a call with many arguments, and a list in itself.
#[tactic(auto, using(crate::proofs::Evaluated::LongCells::long_cells_hold))]
pub fn long_cells()
    ensures { LongCells }
{}

/// Machine states that small cells reach: which of them are alike, and their bytes.
#[tactic(auto, using(crate::proofs::Evaluated::Snapshots::snapshots_hold))]
pub fn snapshots()
    ensures { Snapshots }
{}
