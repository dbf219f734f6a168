//! What cells mean.
//!
//! The definitions of the language's running: states, values, operations with their charges,
//! expressions, statements, cells and versions. The files of `specs/` are read in the order of
//! `specs/Lib.antt`, each from top to bottom. The functions of `tables` show by their contracts what
//! small cells do, with their steps, and those of `laws` what holds of every cell. Nothing here runs
//! a cell.
#![tactic(auto)]

mod flow;
mod laws;
mod ran;
mod tables;

pub use flow::Flow;
pub use laws::{
    after_shows_the_meaning, alike_is_an_equivalence, alike_parts_end_alike,
    alike_states_have_one_snapshot, alike_states_run_alike, bytes_tell_the_state, calls_are_few,
    each_state_has_a_snapshot, functions_stay, numbers_do_not_matter, numbers_reach_after,
    only_named_inputs_matter, steps_are_spent, targets_bind_their_names, what_is_locked_stays,
};
pub use ran::{End, Ran};
pub use tables::{
    arithmetic, builtin_functions, cells, choices, comparisons, dict_methods, failures,
    list_methods, long_cells, parts, snapshots, statements, text_methods, turns,
};
