//! What is iterated over, the blocks of names and the functions that are active, in a running cell.
ghost use Rattle.std.specs.Prelude.{◌≡◌, ◌<◌, ℕ, length, List, [], ◌∷◌, ◌++◌, not, option_map, slice_get, IsTrue, IsSomeAnd, IfOk, OnOk, OnErr};
ghost use Rattle.star_builtins.specs.Reached.{Fits};
ghost use Rattle.star_meaning.specs.State.{function};
ghost use Rattle.star_meaning.specs.Statements as statements;
ghost use Rattle.star_meaning.specs.Values as values;
ghost use Rattle.star_meaning.specs.World.{entered, lock_of, without_block};
ghost use Rattle.star_value.specs.declared.value.Value.{Value as AValue};
ghost use Rattle.star_run.specs.Filling.{FillingFits, Fills};
ghost use Rattle.star_run.specs.Nests.{Callable};
ghost use Rattle.star_run.specs.Running.{Goes, block_fits, blocks_fit};

use crate::blocks::Blocks;
use crate::filling::{Filling, fill};
use crate::running::Run;
use crate::slots::Slots;
use chex_base::{NoMemory, ObjectId};
use heap_store::iterated;
use star_builtins::Call;
use star_syntax::Def;
use star_value::Value;
use std::mem;

impl Run {
    // ---- what is iterated over

    /// How many items a value gives, or None where it cannot be iterated.
    pub fn count(&self, of: &Value) -> Option<u128>
        requires { Fits self.now.machine of.now }
        ensures { option_map length (values.items_in self.now.machine.state of.now) ≡ result }
    {
        iterated::count(of, &self.machine)
    }

    /// The item that a value gives at a place below its count. It is copied, and takes time linear
    /// in the item.
    pub fn item(&self, of: &Value, place: u128) -> Result<Value, NoMemory>
        requires of { Fits self.now.machine of.now }
        requires within { IsSomeAnd (option_map length (values.items_in self.now.machine.state of.now)) (λ count. place < count) }
        ensures value { (items : List AValue) → values.items_in self.now.machine.state of.now ≡ Some items → IfOk result (λ v. slice_get items place ≡ Some v) }
        ensures fits { IfOk result (λ v. Fits self.now.machine v) }
    {
        let _nodes = self.machine.ran();
        let item = iterated::item(self.alloc, of, &self.machine, place)?;
        Ok(item)
    }

    /// The list or dict that a value is may not be changed from now on.
    pub fn lock(&mut self, of: &Value) -> Result<(), NoMemory>
        ensures ok { OnOk result (self.new ≡ record self.old { frame = record self.old.frame { locked = self.old.frame.locked ++ lock_of of.now } }) }
        ensures err { OnErr result (self.new ≡ self.old) }
        ensures goes { Goes self.old self.new }
    {
        match of {
            Value::List(id) => self.locked.push(*id)?,
            Value::Dict(id) => self.locked.push(*id)?,
            _ => {}
        }
        Ok(())
    }

    /// The list or dict that a value is was locked last, and may be changed again.
    pub fn unlock(&mut self, of: &Value)
        ensures gives { (before : List ℕ) → self.old.frame.locked ≡ before ++ lock_of of.now → self.new ≡ record self.old { frame = record self.old.frame { locked = before } } }
        ensures goes { Goes self.old self.new }
    {
        if is_locked_by(of) {
            let _id = self.locked.pop();
        }
    }

    // ---- arguments

    /// The block of a call of a function of the program, with the charge of its defaults.
    pub fn filling(&self, def: &Def, id: ObjectId, call: Call) -> Result<Option<Filling>, NoMemory>
        requires { Callable self.now.machine id call }
        ensures gives { (parts : ℕ × ℕ × List AValue) → function self.now.machine.state id ≡ Some parts → IfOk result (λ filling. Fills (statements.filled (statements.parameters_of def.now parts.2) call.positional call.named) def.now filling) }
        ensures fits { IfOk result (λ filling. FillingFits self.now.machine filling) }
    {
        let (_, _, defaults) = self.machine.function(id);
        fill(self.alloc, def, defaults, call)
    }

    // ---- blocks of names

    /// A block becomes the innermost.
    pub fn enter_block(&mut self, block: Slots) -> Result<(), NoMemory>
        requires { IsTrue (block_fits self.old.machine block) }
        ensures ok { OnOk result (self.new ≡ record self.old { frame = record self.old.frame { blocks = block ∷ self.old.frame.blocks } }) }
        ensures err { OnErr result (self.new ≡ self.old) }
        ensures goes { Goes self.old self.new }
    {
        self.blocks.enter(block)?;
        Ok(())
    }

    /// The innermost block goes.
    pub fn leave_block(&mut self)
        ensures gives { self.new ≡ record self.old { frame = without_block self.old.frame } }
        ensures goes { Goes self.old self.new }
    {
        self.blocks.leave();
    }

    /// A function becomes active, with this block alone. The blocks that were there come back.
    pub fn enter_function(&mut self, id: ObjectId, block: Slots) -> Result<Blocks, NoMemory>
        requires { IsTrue (block_fits self.old.machine block) }
        ensures ok { OnOk result (self.new ≡ record self.old { frame = entered id block self.old.frame }) }
        ensures blocks { IfOk result (λ blocks. blocks ≡ self.old.frame.blocks) }
        ensures fit { IfOk result (λ blocks. IsTrue (blocks_fit self.old.machine blocks)) }
        ensures err { OnErr result (self.new ≡ self.old) }
        ensures goes { Goes self.old self.new }
    {
        let mut blocks = Blocks::new(self.alloc);
        blocks.enter(block)?;
        self.active.push(id)?;
        Ok(mem::replace(&mut self.blocks, blocks))
    }

    /// The function that became active last ends, and these blocks are there again.
    pub fn leave_function(&mut self, blocks: Blocks)
        requires { IsTrue (blocks_fit self.old.machine blocks) }
        ensures gives { (id : ℕ) (before : List ℕ) → self.old.frame.active ≡ before ++ id ∷ [] → self.new ≡ record self.old { frame = record { blocks = blocks; active = before; locked = self.old.frame.locked } } }
        ensures goes { Goes self.old self.new }
    {
        let _id = self.active.pop();
        self.blocks = blocks;
    }
}

/// Whether a value is a list or a dict, which is locked while it is iterated over.
fn is_locked_by(of: &Value) -> bool
    ensures { result ≡ not (values.is_empty (lock_of of.now)) }
{
    match of {
        Value::List(_) => true,
        Value::Dict(_) => true,
        _ => false,
    }
}
