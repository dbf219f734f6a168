//! Dicts of a machine, whose keys are integers here.
ghost use Rattle.std.specs.Prelude.{ℕ, List, OnOk, IsTrue, IfOk};
ghost use Rattle.std.specs.List.{list_all};
ghost use Rattle.star_meaning.specs.State.{Object};
ghost use Rattle.star_meaning.specs.Validity.{fits};

use crate::fault::Fault;
use crate::kinds::{check_dict, check_room};
use crate::words::{integer, number, number_and, place, two_integers};
use chex_base::ObjectId;
use heap_store::{Machine, Pairs};
use star_value::{Key, Value};
use std::alloc::Global;

/// A new dict without a pair.
pub fn new(machine: &mut Machine) -> Result<ObjectId, Fault> {
    check_room(machine)?;
    Ok(machine.new_dict()?)
}

/// Each word is a key and its integer, with a colon between them.
pub fn new_of(alloc: Global, machine: &mut Machine, rest: &str) -> Result<ObjectId, Fault> {
    let pairs = pairs_of(alloc, rest)?;
    check_room(machine)?;
    Ok(machine.new_dict_of(pairs)?)
}

fn pairs_of(alloc: Global, words: &str) -> Result<Pairs, Fault>
    ensures { (os : List (Object ℕ)) → IfOk result (λ pairs. IsTrue (list_all (λ pair. fits os pair.1) pairs)) }
{
    let mut pairs = Pairs::new(alloc);
    for word in words.split(' ') {
        put_word(&mut pairs, word)?;
    }
    Ok(pairs)
}

#[tactic(auto, using(crate::proofs::Fitting::put_fits))]
fn put_word(pairs: &mut Pairs, word: &str) -> Result<(), Fault>
    ensures { (os : List (Object ℕ)) → IsTrue (list_all (λ pair. fits os pair.1) pairs.old) → OnOk result (IsTrue (list_all (λ pair. fits os pair.1) pairs.new)) }
{
    let Some((key, number)) = word.split_once(':') else {
        return Err(Fault::Unread);
    };
    let key = integer(key)?;
    let number = integer(number)?;
    pairs.put(Key::Int(key), Value::Int(number))?;
    Ok(())
}

/// Gives a key an integer.
#[tactic(auto, using(crate::proofs::Fitting::fits_int))]
fn put_integer(machine: &mut Machine, id: ObjectId, key: i128, number: i128) -> Result<(), Fault> {
    check_dict(machine, id)?;
    machine.dict_put(id, Key::Int(key), Value::Int(number))?;
    Ok(())
}

/// `ID KEY INTEGER`
pub fn put(machine: &mut Machine, rest: &str) -> Result<(), Fault> {
    let (id, rest) = number_and(rest)?;
    let id = ObjectId(id);
    let (key, number) = two_integers(rest)?;
    put_integer(machine, id, key, number)
}

/// `ID COUNT`: so many keys from 0, each with itself.
pub fn fill(machine: &mut Machine, rest: &str) -> Result<(), Fault> {
    let (id, rest) = number_and(rest)?;
    let id = ObjectId(id);
    for key in 0..number(rest)? {
        put_integer(machine, id, i128::from(key), i128::from(key))?;
    }
    Ok(())
}

/// `ID KEY`
pub fn take(machine: &mut Machine, rest: &str) -> Result<Option<Value>, Fault> {
    let (id, rest) = number_and(rest)?;
    let id = ObjectId(id);
    let key = integer(rest)?;
    check_dict(machine, id)?;
    Ok(machine.dict_remove(id, &Key::Int(key)))
}

/// `ID`: a dict without its pairs.
#[tactic(auto, using(crate::proofs::Fitting::cleared_dict))]
pub fn clear(machine: &mut Machine, rest: &str) -> Result<(), Fault> {
    let (id, _) = number_and(rest)?;
    let id = ObjectId(id);
    check_dict(machine, id)?;
    machine.clear(id);
    Ok(())
}

/// `ID KEY`
pub fn get(alloc: Global, machine: &Machine, rest: &str) -> Result<String, Fault> {
    let (id, rest) = number_and(rest)?;
    let id = ObjectId(id);
    let key = integer(rest)?;
    check_dict(machine, id)?;
    Ok(format!(in alloc; "{:?}", machine.dict_get(id, &Key::Int(key)))?)
}

/// `ID PLACE`: the pair at a place, counted in order of insertion.
pub fn pair(alloc: Global, machine: &Machine, rest: &str) -> Result<String, Fault> {
    let (id, rest) = number_and(rest)?;
    let id = ObjectId(id);
    let (place, _) = place(rest)?;
    check_dict(machine, id)?;
    if place >= machine.dict_len(id) {
        return Err(Fault::Unread);
    }
    let (key, value) = machine.dict_at(id, place);
    Ok(format!(in alloc; "{key:?} {value:?}")?)
}

/// `ID`: how many pairs a dict has.
pub fn len(alloc: Global, machine: &Machine, rest: &str) -> Result<String, Fault> {
    let (id, _) = number_and(rest)?;
    let id = ObjectId(id);
    check_dict(machine, id)?;
    Ok(format!(in alloc; "{}", machine.dict_len(id))?)
}

/// `ID KEY`: how many pairs stand in the pairs of a dict, and the value of a key in them.
pub fn pairs(alloc: Global, machine: &Machine, rest: &str) -> Result<String, Fault> {
    let (id, rest) = number_and(rest)?;
    let id = ObjectId(id);
    let key = integer(rest)?;
    check_dict(machine, id)?;
    let pairs = machine.dict(id);
    Ok(format!(in alloc; "{} {:?}", pairs.len(), pairs.get(&Key::Int(key)))?)
}
