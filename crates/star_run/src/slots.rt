//! A block of local names.
ghost use Rattle.std.specs.Prelude.{◌≡◌, IfOk, OnOk, OnErr, [], ◌∷◌, ◌++◌, bytes_eq, drop};
ghost use Rattle.std.specs.Option.{option_copied};
ghost use Rattle.star_meaning.specs.Values.{named_in};
ghost use Rattle.star_meaning.specs.World.{unbound, bound_in, is_among};
ghost use Rattle.star_run.specs.Locals.{with_name};

use chex_base::{NoMemory, Text};
use star_value::Value;
use std::alloc::Global;
use std::marker::Model;
use std::rc::Rc;

/// The names of a function's block, found once. Contracts see the names.
#[derive(Drop)]
pub struct Layout {
    names: Vec<Rc<Text>>,
}

impl Model for Layout {
    ghost use Rattle.std.specs.Prelude.{ℕ, List, map};

    ghost Value = { List (List ℕ) };

    ghost view = { λ l. map (λ name. name.value) l.names.items };
}

impl Layout {
    /// The layout of no names.
    pub fn new(alloc: Global) -> Layout
        ensures { result ≡ [] }
    {
        Layout {
            names: Vec::new(alloc),
        }
    }

    /// Adds a name at the end; where memory is wanting nothing changes.
    pub fn push(&mut self, alloc: Global, name: Text) -> Result<(), NoMemory>
        ensures ok { OnOk result (self.new ≡ self.old ++ name ∷ []) }
        ensures err { OnErr result (self.new ≡ self.old) }
    {
        let shared = Rc::new(alloc, name)?;
        self.names.push(shared)?;
        Ok(())
    }

    /// Adds a name that is shared; where memory is wanting nothing changes.
    pub fn push_shared(&mut self, name: Rc<Text>) -> Result<(), NoMemory>
        ensures { OnOk result (self.new ≡ self.old ++ name.value ∷ []) }
    {
        self.names.push(name)?;
        Ok(())
    }

    /// Whether a name stands there.
    pub fn contains(&self, name: &Text) -> bool
        ensures { result ≡ is_among self.now name.now }
    {
        for held in self.names.as_slice() {
            if same(name, held) {
                return true;
            }
        }
        false
    }

    /// Adds a name at the end, unless it stands there.
    pub fn add(&mut self, alloc: Global, name: &Text) -> Result<(), NoMemory>
        ensures { OnOk result (self.new ≡ with_name self.old name.now) }
    {
        if self.contains(name) {
            return Ok(());
        }
        self.push(alloc, name.copy(alloc)?)
    }
}

/// A block of local names, each with its value where it is bound. Contracts see the list of them.
#[derive(Drop)]
pub struct Slots {
    slots: Vec<(Rc<Text>, Option<Value>)>,
}

impl Model for Slots {
    ghost use Rattle.std.specs.Prelude.{map};
    ghost use Rattle.std.specs.Coded.{codes};
    ghost use Rattle.star_meaning.specs.World.{Block};
    ghost use Rattle.star_value.specs.contracts.value.Value as v;

    ghost Value = { Block };

    ghost coded = { Prim.hlevel (codes, v.the_row.coded) };

    ghost view = { λ s. map (λ slot. (slot.0.value, slot.1)) s.slots.items };
}

impl Slots {
    /// A block of these names, none of them bound. It shares the names.
    pub fn of(alloc: Global, layout: &Layout) -> Result<Slots, NoMemory>
        ensures { IfOk result (λ block. block ≡ unbound layout.now) }
    {
        let mut slots = Vec::new(alloc);
        for name in layout.names.as_slice() {
            slots.push((name.clone()?, None))?;
        }
        Ok(Slots { slots })
    }

    /// The block without a name.
    pub fn new(alloc: Global) -> Slots
        ensures { result ≡ [] }
    {
        Slots {
            slots: Vec::new(alloc),
        }
    }

    /// Adds a name with its value, where that is bound.
    pub fn push(&mut self, name: Rc<Text>, value: Option<Value>) -> Result<(), NoMemory>
        ensures { OnOk result (self.new ≡ self.old ++ (name.value, value) ∷ []) }
    {
        self.slots.push((name, value))?;
        Ok(())
    }

    /// Adds the names of a layout from a place on, none of them bound. It shares the names.
    pub fn add_unbound(&mut self, layout: &Layout, from: usize) -> Result<(), NoMemory>
        ensures { OnOk result (self.new ≡ self.old ++ unbound (drop from layout.now)) }
    {
        for at in from..layout.names.len() {
            let name = layout.names[at].clone()?;
            self.push(name, None)?;
        }
        Ok(())
    }

    /// What the block has at a name.
    pub fn named(&self, name: &Text) -> Option<&Option<Value>>
        ensures { option_copied result ≡ named_in self.now name.now }
    {
        for slot in self.slots.as_slice() {
            if same(name, &slot.0) {
                return Some(&slot.1);
            }
        }
        None
    }

    /// Binds a name, where the block has it.
    pub fn bind(&mut self, name: &Text, value: Value)
        ensures { self.new ≡ bound_in self.old name.now value }
    {
        for at in 0..self.slots.len() {
            if same(name, &self.slots[at].0) {
                self.slots[at].1 = Some(value);
                return;
            }
        }
    }
}

/// Whether two names are equal.
pub fn same(name: &Text, other: &Text) -> bool
    ensures { result ≡ bytes_eq name.now other.now }
{
    name == other
}
