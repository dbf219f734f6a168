//! The machine.
ghost use Rattle.std.specs.Prelude.{◌≡◌, ◌<◌, ◌≤◌, ◌*◌, ◌||◌, [], ◌∷◌, ◌++◌, length, reverse, IsTrue, IfOk, IfSome, OnErr, OnOk, slice_get, slice_set, insert, remove, option_map};
ghost use Rattle.chex_base.specs.TextOrder.{text_cmp};
ghost use Rattle.std.specs.BTreeMap.{insert_entry};
ghost use Rattle.std.specs.List.{list_all};
ghost use Rattle.std.specs.List.Sorted.{IsStrictlySortedBy};
ghost use Rattle.std.specs.Map.{keys_of};
ghost use Rattle.std.specs.Option.{option_copied};
ghost use Rattle.heap_store.specs.Objects.{kind_of, defaults, with_defaults, with_nothing};
ghost use Rattle.star_meaning.specs.State as state;
ghost use Rattle.star_meaning.specs.State.{AList, ADict, AFunction};
ghost use Rattle.star_meaning.specs.Validity.{IsMachine, nothing_ran, fits, is_list, is_dict, is_function, has_32_bits};

use crate::object::Object;
use crate::{Kind, Pairs};
use chex_base::{NoMemory, NodeId, ObjectId, Text};
use sqlite_items::Items;
use star_value::{Key, Value, Values};
use std::alloc::Global;
use std::collections::BTreeMap;
use std::collections::btree_map::Iter;
use std::marker::Model;

/// What the cells that have run leave to the next one: global names with their values, objects
/// with the numbers from 0 on, and the nodes of the cells, in the order in which they ran.
///
/// Every reference in a machine names an object of its kind, no key of a dict stands twice, at most
/// 64 cells have run, and there are at most 1,000,000 objects for each of them. Names are texts of
/// Unicode scalar values, and the numbers of nodes and functions have 32 bits. `docs/LANGUAGE.md`,
/// "Values", says what lists, dicts and functions are.
#[derive(Drop)]
pub struct Machine {
    alloc: Global,
    globals: BTreeMap<Text, Value>,
    objects: Vec<Object>,
    ran: Vec<NodeId>,
}

impl Model for Machine {
    ghost use Rattle.std.specs.Coded.{codes};
    ghost use Rattle.star_meaning.specs.Validity.{MachineState, IsMachine};
    ghost use Rattle.star_value.specs.contracts.key.Key as k;
    ghost use Rattle.star_value.specs.contracts.value.Value as v;

    ghost Value = { MachineState };

    ghost coded = { Prim.hlevel (codes, k.the_row.coded, v.the_row.coded) };

    ghost view = { λ m. record { state = record { globals = m.globals.entries; objects = m.objects.items }; ran = m.ran.items } };

    ghost invariant = { λ m. IsMachine (record { state = record { globals = m.globals.entries; objects = m.objects.items }; ran = m.ran.items }) };
}

impl Machine {
    /// The machine before any cell: no names, no objects, no nodes. It takes no memory.
    pub fn new(alloc: Global) -> Machine
        ensures { result ≡ nothing_ran }
    {
        Machine {
            alloc,
            globals: BTreeMap::new(alloc),
            objects: Vec::new(alloc),
            ran: Vec::new(alloc),
        }
    }

    /// The nodes whose cells have run, in the order in which they ran.
    pub fn ran(&self) -> &[NodeId]
        ensures value { result.now ≡ self.now.ran }
        ensures kept { IsMachine self.now }
    {
        self.ran.as_slice()
    }

    /// How many objects there are. Their ids are the numbers below it.
    pub fn objects(&self) -> u32
        ensures value { result ≡ length self.now.state.objects }
        ensures kept { IsMachine self.now }
    {
        self.objects.len() as u32
    }

    /// Notes that the cell of a node runs from now on, which makes room for 1,000,000 more objects.
    /// Where memory is wanting nothing changes.
    pub fn enter(&mut self, node: NodeId) -> Result<(), NoMemory>
        requires { length self.old.ran < 64 }
        ensures ok { OnOk result (self.new ≡ record self.old { ran = self.old.ran ++ node ∷ [] }) }
        ensures err { OnErr result (self.new ≡ self.old) }
    {
        let _small = number_of(node);
        self.ran.push(node)?;
        Ok(())
    }

    /// What an object is.
    pub fn kind(&self, id: ObjectId) -> Kind
        requires { id < length self.now.state.objects }
        ensures value { option_map kind_of (slice_get self.now.state.objects id) ≡ Some result }
        ensures kept { IsMachine self.now }
    {
        self.objects[id.0 as usize].kind()
    }

    /// How many global names there are.
    pub fn globals(&self) -> usize
        ensures value { result ≡ length self.now.state.globals }
        ensures kept { IsMachine self.now }
    {
        self.globals.len()
    }

    /// The global name at a place, counted in rising byte order of the names, and its value. It
    /// walks to the place.
    pub fn global_at(&self, place: usize) -> (&Text, &Value)
        requires { place < length self.now.state.globals }
        ensures value { slice_get self.now.state.globals place ≡ Some (result.0.now, result.1.now) }
        ensures kept { IsMachine self.now }
    {
        match self.globals.iter().nth(place) {
            Some(global) => global,
            None => unreachable!(),
        }
    }

    /// The global names with their values, in rising byte order of the names, one after the other. A
    /// walk over all of them takes time linear in their number.
    pub fn global_entries(&self) -> Iter<'_, Text, Value>
        ensures value { result ≡ self.now.state.globals }
        ensures kept { IsMachine self.now }
    {
        self.globals.iter()
    }

    /// The value of a global name, if it is bound. It takes a number of comparisons that grows with
    /// the logarithm of the count of names.
    #[tactic(auto, unfolding(star_meaning::specs::State::global))]
    pub fn global(&self, name: &Text) -> Option<&Value>
        ensures value { option_copied result ≡ state.global self.now.state name.now }
        ensures kept { IsMachine self.now }
    {
        self.globals.get(name)
    }

    /// Gives a global name this value, and changes no other name. It takes a number of comparisons
    /// that grows with the logarithm of the count of names, and a copy of the name where that is
    /// not bound yet. Where memory is wanting nothing changes, and the value is dropped.
    #[tactic(auto, unfolding(star_meaning::specs::State::set_global))]
    pub fn set_global(&mut self, name: &Text, value: Value) -> Result<(), NoMemory>
        requires { IsTrue (fits self.old.state.objects value) }
        ensures ok { OnOk result (self.new ≡ record self.old { state = state.set_global self.old.state name.now value }) }
        ensures err { OnErr result (self.new ≡ self.old) }
    {
        // The name is a text of Unicode scalar values.
        let _characters = name.as_str();
        let Some(value) = rebind(&mut self.globals, name, value) else {
            return Ok(());
        };
        let name = name.copy(self.alloc)?;
        self.globals.insert(name, value)?;
        Ok(())
    }

    /// A new list of these items, which it moves one after the other. Where memory is wanting
    /// nothing changes, and the items are dropped.
    #[tactic(auto, unfolding(star_meaning::specs::State::with_new, star_meaning::specs::State::next_id))]
    pub fn new_list(&mut self, items: Values) -> Result<ObjectId, NoMemory>
        requires fit { IsTrue (list_all (fits self.old.state.objects) items) }
        requires room { length self.old.state.objects < 1000000 * length self.old.ran }
        ensures ok { IfOk result (λ id. (id ≡ state.next_id self.old.state) × (self.new ≡ record self.old { state = state.with_new self.old.state (AList items) })) }
        ensures err { OnErr result (self.new ≡ self.old) }
    {
        let id = ObjectId(self.objects.len() as u32);
        let items = to_vec(self.alloc, items)?;
        self.objects.push(Object::list(items))?;
        Ok(id)
    }

    /// A new dict without a pair. Where memory is wanting nothing changes.
    pub fn new_dict(&mut self) -> Result<ObjectId, NoMemory>
        requires { length self.old.state.objects < 1000000 * length self.old.ran }
        ensures ok { IfOk result (λ id. (id ≡ state.next_id self.old.state) × (self.new ≡ record self.old { state = state.with_new self.old.state (ADict []) })) }
        ensures err { OnErr result (self.new ≡ self.old) }
    {
        self.new_dict_of(Pairs::new(self.alloc))
    }

    /// A new dict of these pairs, which it takes over as they are. Where memory is wanting nothing
    /// changes, and the pairs are dropped.
    #[tactic(auto, unfolding(star_meaning::specs::State::with_new, star_meaning::specs::State::next_id))]
    pub fn new_dict_of(&mut self, pairs: Pairs) -> Result<ObjectId, NoMemory>
        requires fit { IsTrue (list_all (λ pair. fits self.old.state.objects pair.1) pairs) }
        requires room { length self.old.state.objects < 1000000 * length self.old.ran }
        ensures ok { IfOk result (λ id. (id ≡ state.next_id self.old.state) × (self.new ≡ record self.old { state = state.with_new self.old.state (ADict pairs) })) }
        ensures err { OnErr result (self.new ≡ self.old) }
    {
        let id = ObjectId(self.objects.len() as u32);
        let pairs = pairs.boxed(self.alloc)?;
        self.objects.push(Object::dict(pairs))?;
        Ok(id)
    }

    /// A new function: its cell, its number among the functions of the cell, and the values of its
    /// defaults. Where memory is wanting nothing changes, and the defaults are dropped.
    #[tactic(auto, unfolding(star_meaning::specs::State::with_new, star_meaning::specs::State::next_id))]
    pub fn new_function(
        &mut self,
        cell: NodeId,
        number: u32,
        defaults: Values,
    ) -> Result<ObjectId, NoMemory>
        requires fit { IsTrue (list_all (fits self.old.state.objects) defaults) }
        requires room { length self.old.state.objects < 1000000 * length self.old.ran }
        ensures ok { IfOk result (λ id. (id ≡ state.next_id self.old.state) × (self.new ≡ record self.old { state = state.with_new self.old.state (AFunction cell number defaults) })) }
        ensures err { OnErr result (self.new ≡ self.old) }
    {
        let _small = number_of(cell);
        let id = ObjectId(self.objects.len() as u32);
        self.objects.push(Object::function(cell, number, defaults))?;
        Ok(id)
    }

    /// The items of a list.
    #[tactic(auto, unfolding(star_meaning::specs::State::list, star_meaning::specs::State::object))]
    pub fn list(&self, id: ObjectId) -> &[Value]
        requires { IsTrue (is_list (slice_get self.now.state.objects id)) }
        ensures value { result.now ≡ state.list self.now.state id }
        ensures kept { IsMachine self.now }
    {
        self.objects[id.0 as usize].items()
    }

    /// Puts a value into a list at a place or at its end. What stands behind moves on by one, which
    /// takes time linear in its length. Where memory is wanting nothing changes, and the value is
    /// dropped.
    #[tactic(auto, unfolding(star_meaning::specs::State::with_list, star_meaning::specs::State::list, star_meaning::specs::State::object))]
    pub fn list_insert(&mut self, id: ObjectId, place: usize, value: Value) -> Result<(), NoMemory>
        requires kind { IsTrue (is_list (slice_get self.old.state.objects id)) }
        requires within { place ≤ length (state.list self.old.state id) }
        requires fit { IsTrue (fits self.old.state.objects value) }
        ensures ok { OnOk result (self.new ≡ record self.old { state = state.with_list self.old.state id (insert (state.list self.old.state id) place value) }) }
        ensures err { OnErr result (self.new ≡ self.old) }
    {
        self.objects[id.0 as usize].insert(place, value)?;
        Ok(())
    }

    /// Moves these items to the end of a list, one after the other. Where memory is wanting nothing
    /// changes, and they are dropped.
    #[tactic(auto, unfolding(star_meaning::specs::State::with_list, star_meaning::specs::State::list, star_meaning::specs::State::object))]
    pub fn list_extend(&mut self, id: ObjectId, more: Values) -> Result<(), NoMemory>
        requires kind { IsTrue (is_list (slice_get self.old.state.objects id)) }
        requires fit { IsTrue (list_all (fits self.old.state.objects) more) }
        ensures ok { OnOk result (self.new ≡ record self.old { state = state.with_list self.old.state id (state.list self.old.state id ++ more) }) }
        ensures err { OnErr result (self.new ≡ self.old) }
    {
        let more = to_vec(self.alloc, more)?;
        self.objects[id.0 as usize].extend(more)?;
        Ok(())
    }

    /// Puts a value in the place of an item of a list. It takes no memory.
    #[tactic(auto, unfolding(star_meaning::specs::State::with_list, star_meaning::specs::State::list, star_meaning::specs::State::object))]
    pub fn list_set(&mut self, id: ObjectId, place: usize, value: Value)
        requires kind { IsTrue (is_list (slice_get self.old.state.objects id)) }
        requires within { place < length (state.list self.old.state id) }
        requires fit { IsTrue (fits self.old.state.objects value) }
        ensures { self.new ≡ record self.old { state = state.with_list self.old.state id (slice_set (state.list self.old.state id) place value) } }
    {
        self.objects[id.0 as usize].set(place, value);
    }

    /// Takes an item out of a list. What stands behind closes up, which takes time linear in its
    /// length and no memory.
    #[tactic(auto, unfolding(star_meaning::specs::State::with_list, star_meaning::specs::State::list, star_meaning::specs::State::object))]
    pub fn list_remove(&mut self, id: ObjectId, place: usize) -> Value
        requires kind { IsTrue (is_list (slice_get self.old.state.objects id)) }
        requires within { place < length (state.list self.old.state id) }
        ensures item { slice_get (state.list self.old.state id) place ≡ Some result }
        ensures rest { self.new ≡ record self.old { state = state.with_list self.old.state id (remove (state.list self.old.state id) place) } }
    {
        self.objects[id.0 as usize].remove(place)
    }

    /// Takes all items out of a list, or all pairs out of a dict. It takes no memory.
    #[tactic(auto, unfolding(crate::specs::Objects::with_nothing, star_meaning::specs::State::with_list, star_meaning::specs::State::with_dict, star_meaning::specs::State::object))]
    pub fn clear(&mut self, id: ObjectId)
        requires { IsTrue (is_list (slice_get self.old.state.objects id) || is_dict (slice_get self.old.state.objects id)) }
        ensures { self.new ≡ record self.old { state = with_nothing self.old.state id } }
    {
        self.objects[id.0 as usize].clear();
    }

    /// The pairs of a dict, in order of insertion.
    #[tactic(auto, unfolding(star_meaning::specs::State::dict, star_meaning::specs::State::object))]
    pub fn dict(&self, id: ObjectId) -> &Pairs
        requires { IsTrue (is_dict (slice_get self.now.state.objects id)) }
        ensures value { result.now ≡ state.dict self.now.state id }
        ensures kept { IsMachine self.now }
    {
        self.objects[id.0 as usize].pairs()
    }

    /// How many pairs a dict has.
    #[tactic(auto, unfolding(star_meaning::specs::State::dict, star_meaning::specs::State::object))]
    pub fn dict_len(&self, id: ObjectId) -> usize
        requires { IsTrue (is_dict (slice_get self.now.state.objects id)) }
        ensures value { result ≡ length (state.dict self.now.state id) }
        ensures kept { IsMachine self.now }
    {
        self.objects[id.0 as usize].pairs().len()
    }

    /// The pair of a dict at a place, counted in order of insertion.
    #[tactic(auto, unfolding(star_meaning::specs::State::dict, star_meaning::specs::State::object))]
    pub fn dict_at(&self, id: ObjectId, place: usize) -> (&Key, &Value)
        requires kind { IsTrue (is_dict (slice_get self.now.state.objects id)) }
        requires within { place < length (state.dict self.now.state id) }
        ensures value { slice_get (state.dict self.now.state id) place ≡ Some (result.0.now, result.1.now) }
        ensures kept { IsMachine self.now }
    {
        self.objects[id.0 as usize].pairs().at(place)
    }

    /// The value of a key in a dict, if it is there. The key is found by its hash.
    #[tactic(auto, unfolding(star_meaning::specs::State::dict, star_meaning::specs::State::object))]
    pub fn dict_get(&self, id: ObjectId, key: &Key) -> Option<&Value>
        requires { IsTrue (is_dict (slice_get self.now.state.objects id)) }
        ensures value { option_copied result ≡ state.dict_get (state.dict self.now.state id) key.now }
        ensures kept { IsMachine self.now }
    {
        self.objects[id.0 as usize].pairs().get(key)
    }

    /// Gives a key of a dict this value: a present key keeps its place, and a new one goes last. The
    /// key is found by its hash. Where memory is wanting nothing changes, and the key and the value
    /// are dropped.
    #[tactic(auto, unfolding(star_meaning::specs::State::with_dict, star_meaning::specs::State::dict, star_meaning::specs::State::object))]
    pub fn dict_put(&mut self, id: ObjectId, key: Key, value: Value) -> Result<(), NoMemory>
        requires kind { IsTrue (is_dict (slice_get self.old.state.objects id)) }
        requires fit { IsTrue (fits self.old.state.objects value) }
        ensures ok { OnOk result (self.new ≡ record self.old { state = state.with_dict self.old.state id (state.dict_put (state.dict self.old.state id) key value) }) }
        ensures err { OnErr result (self.new ≡ self.old) }
    {
        self.objects[id.0 as usize].put(key, value)?;
        Ok(())
    }

    /// Takes a key with its value out of a dict, and answers the value, or None where the key is
    /// not there. The pairs behind it close up, which takes time linear in their number and no
    /// memory.
    #[tactic(auto, unfolding(star_meaning::specs::State::with_dict, star_meaning::specs::State::dict, star_meaning::specs::State::object))]
    pub fn dict_remove(&mut self, id: ObjectId, key: &Key) -> Option<Value>
        requires { IsTrue (is_dict (slice_get self.old.state.objects id)) }
        ensures value { result ≡ state.dict_get (state.dict self.old.state id) key.now }
        ensures rest { self.new ≡ record self.old { state = state.with_dict self.old.state id (state.dict_without (state.dict self.old.state id) key.now) } }
    {
        self.objects[id.0 as usize].take(key)
    }

    /// The cell of a function, its number among the functions of the cell, and the values of its
    /// defaults.
    #[tactic(auto, unfolding(star_meaning::specs::State::function, star_meaning::specs::State::object))]
    pub fn function(&self, id: ObjectId) -> (NodeId, u32, &[Value])
        requires { IsTrue (is_function (slice_get self.now.state.objects id)) }
        ensures value { state.function self.now.state id ≡ Some (result.0, result.1, result.2.now) }
        ensures kept { IsMachine self.now }
    {
        self.objects[id.0 as usize].parts()
    }

    /// Puts a value in the place of a default of a function. It takes no memory. A default may
    /// refer to an object with a higher number than the function's, so one who rebuilds a machine
    /// sets it once that object is there.
    #[tactic(auto, unfolding(crate::specs::Objects::defaults, crate::specs::Objects::with_defaults, star_meaning::specs::State::function, star_meaning::specs::State::object))]
    pub fn function_set(&mut self, id: ObjectId, place: usize, value: Value)
        requires kind { IsTrue (is_function (slice_get self.old.state.objects id)) }
        requires within { place < length (defaults self.old.state id) }
        requires fit { IsTrue (fits self.old.state.objects value) }
        ensures { self.new ≡ record self.old { state = with_defaults self.old.state id (slice_set (defaults self.old.state id) place value) } }
    {
        self.objects[id.0 as usize].set_default(place, value);
    }
}

/// The number of a node, which has 32 bits.
fn number_of(node: NodeId) -> u32
    ensures value { result ≡ node }
    ensures small { IsTrue (has_32_bits node) }
{
    node.0
}

/// Gives a name that is bound this value, without a copy of the name; where it is not bound the
/// value comes back and nothing changes.
fn rebind(globals: &mut BTreeMap<Text, Value>, name: &Text, value: Value) -> Option<Value>
    ensures bound { result ≡ None → globals.new.entries ≡ insert_entry text_cmp globals.old.entries name.now value }
    ensures free { IfSome result (λ back. (back ≡ value) × (globals.new.entries ≡ globals.old.entries)) }
    ensures ordered { IsStrictlySortedBy text_cmp (keys_of globals.new.entries) }
{
    match globals.get_mut(name) {
        Some(held) => {
            *held = value;
            None
        }
        None => Some(value),
    }
}

/// The same items in a `Vec`, which takes them in the middle too.
fn to_vec(alloc: Global, mut items: Values) -> Result<Vec<Value>, NoMemory>
    ensures { IfOk result (λ vec. vec.items ≡ items) }
{
    let mut vec = Vec::with_capacity(alloc, items.len())?;
    while let Some(item) = items.pop() {
        vec.push(item)?;
    }
    vec.as_mut_slice().reverse();
    Ok(vec)
}
