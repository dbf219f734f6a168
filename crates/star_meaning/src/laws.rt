//! Laws of running, as the contracts of functions.
ghost use Rattle.std.specs.Prelude.{ℕ};
ghost use Rattle.star_syntax.specs.CellParts.{CellParts};
ghost use Rattle.star_meaning.specs.Laws as laws;

/// No meaning depends on how cells are numbered.
#[tactic(auto, using(crate::proofs::RenamedCells::ran_by_numbers))]
pub fn numbers_do_not_matter()
    ensures { laws.NumbersDoNotMatter }
{}

/// A machine that runs a cell by numbers reaches the machine state after the cell, and ends as the
/// cell does.
#[tactic(auto, using(crate::proofs::RenamedCells::after_by_numbers, crate::proofs::RenamedCells::ran_at_by_numbers))]
pub fn numbers_reach_after()
    ensures state { laws.NumbersReachAfter }
    ensures end { laws.NumbersEndAlike }
{}

/// The machine state after a cell shows the meaning's state.
#[tactic(auto, using(crate::proofs::RenamedCells::after_shows))]
pub fn after_shows_the_meaning()
    ensures { laws.AfterShowsTheMeaning }
{}

/// A function keeps its cell, and every other function of the state after a cell has this cell.
#[tactic(auto, using(crate::proofs::RenamedCells::shown_grows))]
pub fn functions_stay()
    ensures { laws.FunctionsStay }
{}

/// At most 32 functions are active: the depth of calls is 32 less the active functions, from the
/// start of a cell on, and a call fails with TooManyCalls exactly where it is 0.
#[tactic(auto, using(crate::proofs::FewCalls::calls_are_few))]
pub fn calls_are_few()
    ensures { laws.CallsAreFew }
{}

/// Steps are only spent, in shown states and in a machine's. A cell takes at least one step, and no
/// more than are allowed.
#[tactic(auto, using(crate::proofs::LeadingLaws::spent_shown, crate::proofs::LeadingLaws::spent_numbered, crate::proofs::LeadingLaws::cells_take_steps))]
pub fn steps_are_spent()
    ensures shown { laws.StepsAreSpent CellParts }
    ensures numbered { laws.StepsAreSpent ℕ }
    ensures cell { laws.CellsTakeSteps }
{}

/// A list or dict that is iterated over stays what it is. Where a part of a cell does not fail, the
/// same functions are active after it as before, and the same lists and dicts are iterated over.
#[tactic(auto, using(crate::proofs::LeadingLaws::locked_shown, crate::proofs::LeadingLaws::locked_numbered, crate::proofs::LeadingLaws::back_shown, crate::proofs::LeadingLaws::back_numbered))]
pub fn what_is_locked_stays()
    ensures shown { laws.WhatIsLockedStays CellParts }
    ensures numbered { laws.WhatIsLockedStays ℕ }
    ensures frames_shown { laws.FramesComeBack CellParts }
    ensures frames_numbered { laws.FramesComeBack ℕ }
{}

/// The names that a meaning binds as a target are those of its tree.
#[tactic(auto, using(crate::proofs::TargetNames::shown_names))]
pub fn targets_bind_their_names()
    ensures { laws.TargetsBindTheirNames }
{}

/// A cell reads of its inputs only those that it names, and those that the cells of the state's
/// functions name: inputs that agree on these names give equal results.
#[tactic(auto, using(crate::proofs::AgreementLaw::only_read_inputs_matter, crate::proofs::AgreementLaw::only_named_inputs_matter))]
pub fn only_named_inputs_matter()
    ensures read { laws.OnlyReadInputsMatter }
    ensures named { laws.OnlyNamedInputsMatter }
{}

/// Alike states run alike: from states that differ in the numbers of their objects, and in objects
/// that nothing reaches, alone, a cell ends alike, writes the same and takes equally many steps,
/// and the states after it are alike again. It is so of shown states and of machine states.
pub fn alike_states_run_alike()
    ensures shown { laws.AlikeStatesRunAlike }
    ensures machines { laws.AlikeMachinesRunAlike }
{}

/// To be alike is an equivalence of machine states: each is alike to itself, it goes both ways, and
/// from one state over a second to a third.
#[tactic(auto, using(crate::proofs::AlikeTurned::alike_is_an_equivalence))]
pub fn alike_is_an_equivalence()
    ensures { laws.AlikeIsAnEquivalence }
{}

/// Alike machine states have one and the same snapshot: there is at most one alike state whose
/// objects are numbered in the order in which they are met, and its bytes are those of each of them.
pub fn alike_states_have_one_snapshot()
    ensures canon { laws.AlikeStatesHaveOneCanon }
    ensures bytes { laws.AlikeStatesHaveOneSnapshot }
{}

/// Each state of a machine is alike to one whose objects are numbered in the order in which they
/// are met, and which is of a machine too. So each valid state has a snapshot.
pub fn each_state_has_a_snapshot()
    ensures canon { laws.EachStateHasACanon }
    ensures snapshot { laws.EachValidStateHasASnapshot }
{}

/// The bytes of a machine's state, where they are fewer than 2^64, are those of no other state of a
/// machine. So two snapshots are equal exactly where the states are alike.
pub fn bytes_tell_the_state()
    ensures bytes { laws.BytesTellTheState }
    ensures alike { laws.SnapshotsTellAlikeStates }
{}

/// Each part of a cell ends alike from worlds that are alike, where also the local names, the active
/// functions and what is iterated over correspond: with corresponding results or equal failures,
/// equal steps left and equal output, in worlds that are alike.
#[tactic(auto, using(crate::proofs::AlikeParts::shown_parts, crate::proofs::AlikeParts::numbered_parts))]
pub fn alike_parts_end_alike()
    ensures shown { laws.PartsRunAlike CellParts }
    ensures numbered { laws.PartsRunAlike ℕ }
{}
