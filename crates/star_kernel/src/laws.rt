//! Laws of kernels, as the contracts of functions.
ghost use Rattle.star_kernel.specs.Alike.{RestoredStatesAreAlike};

/// A state that `restore` makes live from the bytes that `save` put is alike to the saved one: both
/// are valid over the loaded program, and the bytes are the snapshot of both.
#[tactic(auto, using(crate::proofs::AlikeLemmas::restored_alike))]
pub fn restored_states_are_alike()
    ensures { RestoredStatesAreAlike }
{}
