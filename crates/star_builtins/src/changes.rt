//! Changes of a list or a dict in its place, and whether it may be changed.
ghost use Rattle.std.specs.Prelude.{◌≡◌, ◌<◌, ◌≤◌, [], ◌∷◌, ◌++◌, ℕ, Some, length, IfSome, IsTrue, OnOk, insert, remove, slice_get, slice_set};
ghost use Rattle.star_builtins.specs.Reached.{AllFit, Answers, Fits, Follows};
ghost use Rattle.star_meaning.specs.Operators as spec;
ghost use Rattle.star_meaning.specs.State as state;
ghost use Rattle.star_meaning.specs.Steps.{Store};
ghost use Rattle.star_meaning.specs.Validity.{all_in, is_dict, is_list, is_proper};
ghost use Rattle.star_meaning.specs.Values as values;
ghost use Rattle.star_value.specs.Keys.{value_of};

use chex_base::{NoMemory, ObjectId};
use heap_store::Machine;
use star_value::{Failure, Key, Value, Values};

/// A list or dict that is iterated over is not changed.
#[tactic(auto, unfolding(star_meaning::specs::Operators::check_unlocked))]
pub fn check_unlocked(locked: &[ObjectId], id: ObjectId) -> Result<(), Failure>
    ensures { (s : Store ℕ) → Answers (spec.check_unlocked locked.now id s) result s }
{
    if is_locked(locked, id) {
        return Err(Failure::ChangedWhileIterated);
    }
    Ok(())
}

/// Whether an object is one of these.
fn is_locked(locked: &[ObjectId], id: ObjectId) -> bool
    ensures { result ≡ values.has locked.now id }
{
    for other in locked {
        if other.0 == id.0 {
            return true;
        }
    }
    false
}

/// Puts a value in the place of an item of a list.
#[tactic(auto, using(crate::proofs::FollowLemmas::follows_equal))]
pub fn set_item(id: ObjectId, place: usize, value: Value, machine: &mut Machine)
    requires kind { IsTrue (is_list (slice_get machine.old.state.objects id)) }
    requires within { place < length (state.list machine.old.state id) }
    requires value { Fits machine.old value }
    requires held { IsTrue (all_in is_proper machine.old.state) }
    ensures is { machine.new ≡ record machine.old { state = state.with_list machine.old.state id (slice_set (state.list machine.old.state id) place value) } }
    ensures follows { Follows machine.old machine.new }
{
    let _nodes = machine.ran();
    machine.list_set(id, place, value);
}

/// Puts a value into a list at a place or at its end.
#[tactic(auto, using(crate::proofs::FollowLemmas::follows_equal))]
pub fn insert_item(
    id: ObjectId,
    place: usize,
    value: Value,
    machine: &mut Machine,
) -> Result<(), NoMemory>
    requires kind { IsTrue (is_list (slice_get machine.old.state.objects id)) }
    requires within { place ≤ length (state.list machine.old.state id) }
    requires value { Fits machine.old value }
    requires held { IsTrue (all_in is_proper machine.old.state) }
    ensures ok { OnOk result (machine.new ≡ record machine.old { state = state.with_list machine.old.state id (insert (state.list machine.old.state id) place value) }) }
    ensures follows { Follows machine.old machine.new }
{
    let _nodes = machine.ran();
    machine.list_insert(id, place, value)?;
    Ok(())
}

/// Takes an item out of a list.
#[tactic(auto, using(crate::proofs::FollowLemmas::follows_equal))]
pub fn remove_item(id: ObjectId, place: usize, machine: &mut Machine) -> Value
    requires kind { IsTrue (is_list (slice_get machine.old.state.objects id)) }
    requires within { place < length (state.list machine.old.state id) }
    requires held { IsTrue (all_in is_proper machine.old.state) }
    ensures item { slice_get (state.list machine.old.state id) place ≡ Some result }
    ensures rest { machine.new ≡ record machine.old { state = state.with_list machine.old.state id (remove (state.list machine.old.state id) place) } }
    ensures fits { Fits machine.new result }
    ensures follows { Follows machine.old machine.new }
{
    let _nodes = machine.ran();
    machine.list_remove(id, place)
}

/// Moves items to the end of a list.
#[tactic(auto, using(crate::proofs::FollowLemmas::follows_equal))]
pub fn extend_items(id: ObjectId, more: Values, machine: &mut Machine) -> Result<(), NoMemory>
    requires kind { IsTrue (is_list (slice_get machine.old.state.objects id)) }
    requires more { AllFit machine.old more }
    requires held { IsTrue (all_in is_proper machine.old.state) }
    ensures ok { OnOk result (machine.new ≡ record machine.old { state = state.with_list machine.old.state id (state.list machine.old.state id ++ more) }) }
    ensures follows { Follows machine.old machine.new }
{
    let _nodes = machine.ran();
    machine.list_extend(id, more)?;
    Ok(())
}

/// Takes all items out of a list.
#[tactic(auto, using(crate::proofs::FollowLemmas::follows_equal))]
pub fn clear_list(id: ObjectId, machine: &mut Machine)
    requires { IsTrue (is_list (slice_get machine.old.state.objects id)) }
    ensures is { machine.new ≡ record machine.old { state = state.with_list machine.old.state id [] } }
    ensures follows { Follows machine.old machine.new }
{
    machine.clear(id);
}

/// Takes all pairs out of a dict.
#[tactic(auto, using(crate::proofs::FollowLemmas::follows_equal))]
pub fn clear_dict(id: ObjectId, machine: &mut Machine)
    requires { IsTrue (is_dict (slice_get machine.old.state.objects id)) }
    ensures is { machine.new ≡ record machine.old { state = state.with_dict machine.old.state id [] } }
    ensures follows { Follows machine.old machine.new }
{
    machine.clear(id);
    let _count = machine.objects();
}

/// Gives a key of a dict a value.
#[tactic(auto, using(crate::proofs::FollowLemmas::follows_equal, crate::proofs::CountLemmas::counts))]
pub fn put_pair(id: ObjectId, key: Key, value: Value, machine: &mut Machine) -> Result<(), NoMemory>
    requires kind { IsTrue (is_dict (slice_get machine.old.state.objects id)) }
    requires key { IsTrue (is_proper (value_of key)) }
    requires value { Fits machine.old value }
    requires held { IsTrue (all_in is_proper machine.old.state) }
    ensures ok { OnOk result (machine.new ≡ record machine.old { state = state.with_dict machine.old.state id (state.dict_put (state.dict machine.old.state id) key value) }) }
    ensures follows { Follows machine.old machine.new }
    ensures count { length machine.new.state.objects ≡ length machine.old.state.objects }
{
    let _nodes = machine.ran();
    machine.dict_put(id, key, value)?;
    let _count = machine.objects();
    Ok(())
}

/// Takes a key with its value out of a dict, and answers the value, or None where the key is not
/// there.
#[tactic(auto, using(crate::proofs::FollowLemmas::follows_equal))]
pub fn take_pair(id: ObjectId, key: &Key, machine: &mut Machine) -> Option<Value>
    requires kind { IsTrue (is_dict (slice_get machine.old.state.objects id)) }
    requires held { IsTrue (all_in is_proper machine.old.state) }
    ensures value { result ≡ state.dict_get (state.dict machine.old.state id) key.now }
    ensures rest { machine.new ≡ record machine.old { state = state.with_dict machine.old.state id (state.dict_without (state.dict machine.old.state id) key.now) } }
    ensures fits { IfSome result (λ v. Fits machine.new v) }
    ensures follows { Follows machine.old machine.new }
{
    let _nodes = machine.ran();
    let value = machine.dict_remove(id, key);
    let _count = machine.objects();
    value
}
