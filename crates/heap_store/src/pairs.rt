//! The pairs of a dict, in order of insertion. A key is found by its hash.
ghost use Rattle.std.specs.Prelude.{◌≡◌, ◌<◌, [], length, slice_get, IsTrue, IfOk, OnErr, OnOk};
ghost use Rattle.std.specs.Option.{option_copied};
ghost use Rattle.star_meaning.specs.State.{dict_get, dict_put, dict_without};
ghost use Rattle.star_meaning.specs.Validity.{are_distinct};

use chex_base::NoMemory;
use indexmap::IndexMap;
use star_value::{Key, Value};
use std::alloc::Global;
use std::marker::Model;

/// Keys with their values, in order of insertion; no key stands twice. Contracts see the list of
/// the pairs.
///
/// A key is found by its hash. The hasher has a fixed seed, so the same keys take the same time in
/// every run, and keys that were chosen to collide are compared one after the other.
#[derive(Drop)]
pub struct Pairs {
    map: IndexMap<Key, Value>,
}

impl Model for Pairs {
    ghost use Rattle.std.specs.Prelude.{List, IsTrue};
    ghost use Rattle.std.specs.Coded.{codes};
    ghost use Rattle.star_value.specs.contracts.key.Key as k;
    ghost use Rattle.star_value.specs.contracts.value.Value as v;
    ghost use Rattle.star_value.specs.declared.key.Key.{Key as AKey};
    ghost use Rattle.star_value.specs.declared.value.Value.{Value as AValue};
    ghost use Rattle.star_meaning.specs.Validity.{are_distinct};

    ghost Value = { List (AKey × AValue) };

    ghost coded = { Prim.hlevel (codes, k.the_row.coded, v.the_row.coded) };

    ghost view = { λ p. p.map.entries };

    ghost invariant = { λ p. IsTrue (are_distinct p.map.entries) };
}

impl Pairs {
    /// No pairs. It takes no memory.
    pub fn new(alloc: Global) -> Pairs
        ensures { result ≡ [] }
    {
        Pairs {
            map: IndexMap::new(alloc),
        }
    }

    /// The same pairs in a box.
    pub(crate) fn boxed(self, alloc: Global) -> Result<Box<Pairs>, NoMemory>
        ensures value { IfOk result (λ b. b.value ≡ self) }
        ensures distinct { IsTrue (are_distinct self) }
    {
        let Pairs { map } = self;
        let pairs = Box::new(alloc, Pairs { map })?;
        Ok(pairs)
    }

    /// How many pairs there are.
    pub fn len(&self) -> usize
        ensures { result ≡ length self.now }
    {
        self.map.len()
    }

    /// The pair at a place, counted in order of insertion.
    pub fn at(&self, place: usize) -> (&Key, &Value)
        requires { place < length self.now }
        ensures { slice_get self.now place ≡ Some (result.0.now, result.1.now) }
    {
        match self.map.get_index(place) {
            Some(pair) => pair,
            None => unreachable!(),
        }
    }

    /// The value of a key, if the key is there.
    #[tactic(auto, using(crate::proofs::PairLemmas::words))]
    pub fn get(&self, key: &Key) -> Option<&Value>
        ensures { option_copied result ≡ dict_get self.now key.now }
    {
        self.map.get(key)
    }

    /// Gives a key this value: a present key keeps its place, and a new one goes last. Where memory
    /// is wanting nothing changes, and the key and the value are dropped.
    #[tactic(auto, using(crate::proofs::PairLemmas::words, crate::proofs::PairLemmas::distinct))]
    pub fn put(&mut self, key: Key, value: Value) -> Result<(), NoMemory>
        ensures ok { OnOk result (self.new ≡ dict_put self.old key value) }
        ensures err { OnErr result (self.new ≡ self.old) }
    {
        self.map.insert(key, value)?;
        Ok(())
    }

    /// Takes a key with its value out, and answers the value, or None where the key is not there.
    /// The pairs behind it close up, which takes time linear in their number and no memory.
    #[tactic(auto, using(crate::proofs::PairLemmas::words, crate::proofs::PairLemmas::distinct))]
    pub fn take(&mut self, key: &Key) -> Option<Value>
        ensures value { result ≡ dict_get self.old key.now }
        ensures rest { self.new ≡ dict_without self.old key.now }
    {
        self.map.shift_remove(key)
    }

    /// Takes all pairs out. It takes no memory, and keeps the room for later pairs.
    pub fn clear(&mut self)
        ensures { self.new ≡ [] }
    {
        self.map.clear();
    }
}
