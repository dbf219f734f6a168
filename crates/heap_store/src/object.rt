//! One object of a machine.
ghost use Rattle.std.specs.Prelude.{◌≡◌, ◌<◌, ◌≤◌, ◌++◌, length, IsTrue, IfSome, OnErr, OnOk, slice_get, slice_set, insert, remove};
ghost use Rattle.heap_store.specs.Objects.{kind_of, emptied, defaults_in};
ghost use Rattle.star_meaning.specs.State as state;
ghost use Rattle.star_meaning.specs.State.{AList, ADict, AFunction, items_held, pairs_held, function_held};
ghost use Rattle.star_meaning.specs.Validity.{is_list, is_dict, is_function};

use crate::{Kind, Pairs};
use chex_base::{NoMemory, NodeId};
use sqlite_items::Items;
use star_value::{Key, Value, Values};
use std::marker::Model;

#[derive(Drop)]
enum Form {
    List(Vec<Value>),
    /// In a box, since a map is larger than a list.
    Dict(Box<Pairs>),
    /// The cell, the number of the function in it, and the values of the defaults.
    Function(NodeId, u32, Values),
}

/// A list of values, a dict, or a function.
#[derive(Drop)]
pub struct Object {
    form: Form,
}

impl Model for Object {
    ghost use Rattle.std.specs.Prelude.{ℕ};
    ghost use Rattle.std.specs.Coded.{codes};
    ghost use Rattle.star_meaning.specs.State as state;
    ghost use Rattle.star_value.specs.contracts.key.Key as k;
    ghost use Rattle.star_value.specs.contracts.value.Value as v;

    ghost Value = { state.Object ℕ };

    ghost coded = { Prim.hlevel (codes, k.the_row.coded, v.the_row.coded) };

    ghost use Rattle.heap_store.specs.Forms.{object_of};

    ghost view = { λ o. object_of o.form };
}

impl Object {
    /// The list of these items. It takes no memory.
    pub fn list(items: Vec<Value>) -> Object
        ensures { result ≡ AList items.items }
    {
        Object {
            form: Form::List(items),
        }
    }

    /// The dict of these pairs. It takes no memory.
    pub fn dict(pairs: Box<Pairs>) -> Object
        ensures { result ≡ ADict pairs.value }
    {
        Object {
            form: Form::Dict(pairs),
        }
    }

    /// The function of this number in a cell, with the values of its defaults. It takes no memory.
    pub fn function(cell: NodeId, number: u32, defaults: Values) -> Object
        ensures { result ≡ AFunction cell number defaults }
    {
        Object {
            form: Form::Function(cell, number, defaults),
        }
    }

    /// What the object is.
    pub fn kind(&self) -> Kind
        ensures { result ≡ kind_of self.now }
    {
        match &self.form {
            Form::List(_) => Kind::List,
            Form::Dict(_) => Kind::Dict,
            Form::Function(_, _, _) => Kind::Function,
        }
    }

    /// The items of a list.
    pub fn items(&self) -> &[Value]
        requires { IsTrue (is_list (Some self.now)) }
        ensures { result.now ≡ items_held (Some self.now) }
    {
        match &self.form {
            Form::List(items) => items.as_slice(),
            Form::Dict(_) => unreachable!(),
            Form::Function(_, _, _) => unreachable!(),
        }
    }

    /// The pairs of a dict, in order of insertion.
    pub fn pairs(&self) -> &Pairs
        requires { IsTrue (is_dict (Some self.now)) }
        ensures { result.now ≡ pairs_held (Some self.now) }
    {
        match &self.form {
            Form::Dict(pairs) => pairs,
            Form::List(_) => unreachable!(),
            Form::Function(_, _, _) => unreachable!(),
        }
    }

    /// The cell of a function, its number there, and the values of its defaults.
    pub fn parts(&self) -> (NodeId, u32, &[Value])
        requires { IsTrue (is_function (Some self.now)) }
        ensures { function_held (Some self.now) ≡ Some (result.0, result.1, result.2.now) }
    {
        match &self.form {
            Form::Function(cell, number, defaults) => (*cell, *number, defaults.as_slice()),
            Form::List(_) => unreachable!(),
            Form::Dict(_) => unreachable!(),
        }
    }

    /// Puts a value into a list at a place or at its end; what stands behind moves on by one. Where
    /// memory is wanting nothing changes, and the value is dropped.
    pub fn insert(&mut self, place: usize, value: Value) -> Result<(), NoMemory>
        requires kind { IsTrue (is_list (Some self.old)) }
        requires within { place ≤ length (items_held (Some self.old)) }
        ensures ok { OnOk result (self.new ≡ AList (insert (items_held (Some self.old)) place value)) }
        ensures err { OnErr result (self.new ≡ self.old) }
    {
        match &mut self.form {
            Form::List(items) => items.insert(place, value)?,
            Form::Dict(_) => unreachable!(),
            Form::Function(_, _, _) => unreachable!(),
        }
        Ok(())
    }

    /// Moves these items to the end of a list. Where memory is wanting nothing changes, and they are
    /// dropped.
    pub fn extend(&mut self, mut more: Vec<Value>) -> Result<(), NoMemory>
        requires { IsTrue (is_list (Some self.old)) }
        ensures ok { OnOk result (self.new ≡ AList (items_held (Some self.old) ++ more.items)) }
        ensures err { OnErr result (self.new ≡ self.old) }
    {
        match &mut self.form {
            Form::List(items) => items.append(&mut more)?,
            Form::Dict(_) => unreachable!(),
            Form::Function(_, _, _) => unreachable!(),
        }
        Ok(())
    }

    /// Puts a value in the place of an item of a list.
    pub fn set(&mut self, place: usize, value: Value)
        requires kind { IsTrue (is_list (Some self.old)) }
        requires within { place < length (items_held (Some self.old)) }
        ensures { self.new ≡ AList (slice_set (items_held (Some self.old)) place value) }
    {
        match &mut self.form {
            Form::List(items) => items[place] = value,
            Form::Dict(_) => unreachable!(),
            Form::Function(_, _, _) => unreachable!(),
        }
    }

    /// Takes an item out of a list; what stands behind closes up.
    pub fn remove(&mut self, place: usize) -> Value
        requires kind { IsTrue (is_list (Some self.old)) }
        requires within { place < length (items_held (Some self.old)) }
        ensures item { slice_get (items_held (Some self.old)) place ≡ Some result }
        ensures rest { self.new ≡ AList (remove (items_held (Some self.old)) place) }
    {
        match &mut self.form {
            Form::List(items) => items.remove(place),
            Form::Dict(_) => unreachable!(),
            Form::Function(_, _, _) => unreachable!(),
        }
    }

    /// Takes all items out of a list, or all pairs out of a dict. A function stays as it is.
    pub fn clear(&mut self)
        ensures { self.new ≡ emptied self.old }
    {
        match &mut self.form {
            Form::List(items) => items.clear(),
            Form::Dict(pairs) => pairs.clear(),
            Form::Function(_, _, _) => {}
        }
    }

    /// Gives a key of a dict this value: a present key keeps its place, and a new one goes last. Where
    /// memory is wanting nothing changes, and the key and the value are dropped.
    pub fn put(&mut self, key: Key, value: Value) -> Result<(), NoMemory>
        requires { IsTrue (is_dict (Some self.old)) }
        ensures ok { OnOk result (self.new ≡ ADict (state.dict_put (pairs_held (Some self.old)) key value)) }
        ensures err { OnErr result (self.new ≡ self.old) }
    {
        match &mut self.form {
            Form::Dict(held) => held.put(key, value)?,
            Form::List(_) => unreachable!(),
            Form::Function(_, _, _) => unreachable!(),
        }
        Ok(())
    }

    /// Takes a key with its value out of a dict, if it is there; the pairs behind it close up.
    pub fn take(&mut self, key: &Key) -> Option<Value>
        requires { IsTrue (is_dict (Some self.old)) }
        ensures value { result ≡ state.dict_get (pairs_held (Some self.old)) key.now }
        ensures rest { self.new ≡ ADict (state.dict_without (pairs_held (Some self.old)) key.now) }
    {
        match &mut self.form {
            Form::Dict(held) => held.take(key),
            Form::List(_) => unreachable!(),
            Form::Function(_, _, _) => unreachable!(),
        }
    }

    /// Puts a value in the place of a default of a function.
    pub fn set_default(&mut self, place: usize, value: Value)
        requires kind { IsTrue (is_function (Some self.old)) }
        requires within { place < length (defaults_in (function_held (Some self.old))) }
        ensures { IfSome (function_held (Some self.old)) (λ parts. self.new ≡ AFunction parts.0 parts.1 (slice_set parts.2 place value)) }
    {
        match &mut self.form {
            Form::Function(_, _, defaults) => defaults.set(place, value),
            Form::List(_) => unreachable!(),
            Form::Dict(_) => unreachable!(),
        }
    }
}
