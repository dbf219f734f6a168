//! The state of a running cell, and the steps that change it.

mod frames;

ghost use Rattle.std.specs.Prelude.{◌≡◌, ◌≤◌, ◌<◌, ◌+◌, ◌*◌, ◌-◌, ◌^◌, min, ℕ, length, [], map, IsTrue, IfOk, OnOk};
ghost use Rattle.star_builtins.specs.Changes.{PairsFit};
ghost use Rattle.star_builtins.specs.Reached.{AllFit, Fits, GivesWeighed, names, store};
ghost use Rattle.star_meaning.specs.Builtins as builtins;
ghost use Rattle.star_meaning.specs.Expressions as spec;
ghost use Rattle.star_meaning.specs.Operators as operators;
ghost use Rattle.star_meaning.specs.State.{set_global};
ghost use Rattle.star_meaning.specs.Statements as statements;
ghost use Rattle.star_meaning.specs.Showing as showing;
ghost use Rattle.star_meaning.specs.Steps.{Gives, Outcome, Store, pure, charge};
ghost use Rattle.star_meaning.specs.Validity.{MachineState, all_in, is_proper};
ghost use Rattle.star_meaning.specs.Values as values;
ghost use Rattle.star_meaning.specs.World as steps;
ghost use Rattle.star_meaning.specs.World.{acting, operate, operation, outermost, rebound};
ghost use Rattle.star_value.specs.Weight.{weight};
ghost use Rattle.star_value.specs.declared.value.Value.{Value as AValue, out-Value};
ghost use Rattle.star_value.specs.declared.failure.Failure.{Failure as AFailure};
ghost use Rattle.star_run.specs.Fixed.{fixed, setting};
ghost use Rattle.star_run.specs.Own.{MakesFunction};
ghost use Rattle.star_run.specs.Settled.{Spends, is_none_at, left_after, settled};
ghost use Rattle.star_run.specs.Running.{Goes, HasCredit, IsPaid, Makes, world};

use crate::blocks::Blocks;
use crate::charging::{paid_copy, rest_charged};
use crate::constants::{bool_value, builtin_value, int_value, none, text_value};
use crate::given::Given;
use crate::lookups::{Found, look_for};
use chex_base::{Input, InputItem, NoMemory, NodeId, ObjectId, Text};
use heap_store::{Machine, Pairs};
use sqlite_items::Items;
use star_builtins::{
    Bounds, Call, Objects, augmented, binary, call_builtin, call_method, charge_items,
    charge_weight, compare, index, is_true, new_dict, new_list, new_tuple, show, slice, store,
    unary, unpacked,
};
use star_syntax::{BinaryOp, CompareOp, Program, UnaryOp};
use star_value::{Builtin, Failure, Meter, Stop, Value, Values};
use std::alloc::Global;
use std::marker::Model;

/// All that a cell changes while it runs.
#[derive(Drop)]
pub struct Run {
    alloc: Global,
    machine: Machine,
    blocks: Blocks,
    active: Objects,
    locked: Objects,
    out: Text,
    meter: Meter,
}

impl Model for Run {
    ghost use Rattle.std.specs.Coded.{codes};
    ghost use Rattle.star_run.specs.Running.{Running, IsSound};
    ghost use Rattle.star_value.specs.contracts.key.Key as k;
    ghost use Rattle.star_value.specs.contracts.value.Value as v;

    ghost Value = { Running };

    ghost coded = { Prim.hlevel (codes, k.the_row.coded, v.the_row.coded) };

    ghost use Rattle.star_run.specs.RunView.{running_of};

    ghost view = { running_of };

    ghost invariant = { λ r. IsSound (running_of r) };
}

impl Run {
    // ---- what is read

    /// The machine.
    pub fn machine(&self) -> &Machine
        ensures { result.now ≡ self.now.machine }
    {
        &self.machine
    }

    /// Whether a function is active.
    pub fn is_active(&self, id: ObjectId) -> bool
        ensures { result ≡ values.has self.now.frame.active id }
    {
        contains(self.active.as_slice(), id)
    }

    /// Whether a value counts as true.
    pub fn is_true(&self, value: &Value) -> bool
        requires { Fits self.now.machine value.now }
        ensures { result ≡ values.is_true self.now.machine.state value.now }
    {
        is_true(value, &self.machine)
    }

    // ---- charges

    /// Takes so many steps; where fewer are left none are left then, and the cell fails with
    /// StepLimit. Where a step was taken an object may be made for it.
    #[tactic(auto, unfolding(star_meaning::specs::World::acting, star_meaning::specs::Steps::charge))]
    pub fn charge(&mut self, count: u64) -> Result<(), Stop>
        ensures gives { Gives (acting (charge count) (world self.old)) result (world self.new) }
        ensures goes { Goes self.old self.new }
        ensures same { self.new ≡ record self.old { left = self.new.left } }
        ensures credit { 1 ≤ count → OnOk result (HasCredit self.new) }
        ensures paid { 1 ≤ count → OnOk result (IsPaid self.old self.new) }
    {
        self.meter.charge(count)?;
        Ok(())
    }

    /// Takes the weight of a value.
    #[tactic(auto, unfolding(star_meaning::specs::World::acting, star_meaning::specs::Steps::charge))]
    pub fn charge_weight(&mut self, value: &Value) -> Result<(), Stop>
        ensures gives { Gives (acting (charge (weight value.now)) (world self.old)) result (world self.new) }
        ensures goes { Goes self.old self.new }
        ensures same { self.new ≡ record self.old { left = self.new.left } }
    {
        charge_weight(value, &mut self.meter)?;
        Ok(())
    }

    /// Takes the weight of a result, of which 1 is paid already.
    #[tactic(auto, unfolding(star_meaning::specs::World::acting, star_meaning::specs::Steps::charge))]
    pub fn charge_rest(&mut self, value: &Value) -> Result<(), Stop>
        ensures gives { Gives (acting (charge (weight value.now - 1)) (world self.old)) result (world self.new) }
        ensures goes { Goes self.old self.new }
        ensures same { self.new ≡ record self.old { left = self.new.left } }
    {
        rest_charged(value, &mut self.meter)?;
        Ok(())
    }

    /// Takes a sum of weights, which is cut off at the greatest number.
    pub fn charge_sum(&mut self, sum: u64) -> Result<(), Stop>
        ensures gives { (n : ℕ) → sum ≡ min n (2 ^ 64 - 1) → Gives (acting (charge n) (world self.old)) result (world self.new) }
        ensures goes { Goes self.old self.new }
        ensures same { self.new ≡ record self.old { left = self.new.left } }
    {
        let _nodes = self.machine.ran();
        self.charge(sum)
    }

    // ---- names

    /// The value of a name, as an operation.
    pub fn name(&mut self, name: &Text) -> Result<Value, Stop>
        ensures gives { Gives (operation (steps.look_up name.now) (world self.old)) result (world self.new) }
        ensures goes { Goes self.old self.new }
        ensures fits { IfOk result (λ v. Fits self.new.machine v) }
    {
        self.charge(1)?;
        match look_for(&self.blocks, &self.machine, name) {
            Found::Held(value) => paid_copy(self.alloc, value, &mut self.meter),
            Found::Builtin(which) => Ok(builtin_value(which)),
            Found::Nowhere => Err(Stop::Failure(Failure::Unbound)),
        }
    }

    /// Gives a name this value, in its block or among the globals.
    #[tactic(auto, unfolding(star_meaning::specs::World::bind))]
    pub fn bind(&mut self, name: &Text, value: Value) -> Result<(), Stop>
        requires { Fits self.old.machine value }
        ensures gives { Gives (steps.bind name.now value (world self.old)) result (world self.new) }
        ensures goes { Goes self.old self.new }
    {
        if self.blocks.slot(name).is_some() {
            self.rebind(name, value);
            return Ok(());
        }
        self.set_global(name, value)?;
        Ok(())
    }

    // ---- results

    /// A value as the result of an operation that has no charges of its own.
    #[tactic(auto, unfolding(star_meaning::specs::World::operation))]
    pub fn constant(&mut self, value: Value) -> Result<Value, Stop>
        requires { Fits self.old.machine value }
        ensures gives { Gives (operation (pure value) (world self.old)) result (world self.new) }
        ensures goes { Goes self.old self.new }
        ensures fits { IfOk result (λ v. Fits self.new.machine v) }
    {
        self.charge(1)?;
        self.charge_rest(&value)?;
        Ok(value)
    }

    /// A tuple of these items; where tuples nest too deep the cell fails with TooDeep.
    #[tactic(auto, unfolding(star_meaning::specs::World::operation, star_meaning::specs::World::acting))]
    pub fn tuple(&mut self, items: Values) -> Result<Value, Stop>
        requires { AllFit self.old.machine items }
        ensures gives { Gives (operate (values.new_tuple items) (world self.old)) result (world self.new) }
        ensures goes { Goes self.old self.new }
        ensures fits { IfOk result (λ v. Fits self.new.machine v) }
    {
        self.charge(1)?;
        let tuple = new_tuple(items)?;
        self.charge_rest(&tuple)?;
        Ok(tuple)
    }

    /// A new list of these items.
    #[tactic(auto, unfolding(star_meaning::specs::World::operation))]
    pub fn list(&mut self, items: Values) -> Result<Value, Stop>
        requires { AllFit self.old.machine items }
        ensures gives { Gives (operate (values.new_list items) (world self.old)) result (world self.new) }
        ensures goes { Goes self.old self.new }
        ensures fits { IfOk result (λ v. Fits self.new.machine v) }
    {
        self.charge(1)?;
        let list = self.made_list(items)?;
        self.charge_rest(&list)?;
        Ok(list)
    }

    /// A new dict of these pairs.
    #[tactic(auto, unfolding(star_meaning::specs::World::operation))]
    pub fn dict(&mut self, pairs: Pairs) -> Result<Value, Stop>
        requires { PairsFit self.old.machine pairs }
        ensures gives { Gives (operate (values.new_dict pairs) (world self.old)) result (world self.new) }
        ensures goes { Goes self.old self.new }
        ensures fits { IfOk result (λ v. Fits self.new.machine v) }
    {
        self.charge(1)?;
        let dict = self.made_dict(pairs)?;
        self.charge_rest(&dict)?;
        Ok(dict)
    }

    /// A new list of these items, of which all is paid already, as at the end of a comprehension.
    #[tactic(auto, unfolding(star_meaning::specs::World::acting))]
    pub fn made_list(&mut self, items: Values) -> Result<Value, Stop>
        requires fit { AllFit self.old.machine items }
        requires credit { HasCredit self.old }
        ensures gives { Gives (acting (values.new_list items) (world self.old)) result (world self.new) }
        ensures made { Makes self.old self.new }
        ensures fits { IfOk result (λ v. Fits self.new.machine v) }
    {
        new_list(items, &mut self.machine)
    }

    /// A new dict of these pairs, of which all is paid already, as at the end of a comprehension.
    #[tactic(auto, unfolding(star_meaning::specs::World::acting))]
    pub fn made_dict(&mut self, pairs: Pairs) -> Result<Value, Stop>
        requires fit { PairsFit self.old.machine pairs }
        requires credit { HasCredit self.old }
        ensures gives { Gives (acting (values.new_dict pairs) (world self.old)) result (world self.new) }
        ensures made { Makes self.old self.new }
        ensures fits { IfOk result (λ v. Fits self.new.machine v) }
    {
        new_dict(pairs, &mut self.machine)
    }

    /// A new function of a cell, with its number there and the values of its defaults, of which all is
    /// paid already.
    pub fn made_function(
        &mut self,
        cell: NodeId,
        number: u32,
        defaults: Values,
    ) -> Result<Value, Stop>
        requires fit { AllFit self.old.machine defaults }
        requires credit { HasCredit self.old }
        ensures gives { Gives (acting (values.new_function cell number defaults) (world self.old)) result (world self.new) }
        ensures made { MakesFunction cell number defaults self.old self.new }
        ensures fits { IfOk result (λ v. Fits self.new.machine v) }
    {
        let id = self.machine.new_function(cell, number, defaults)?;
        let _nodes = self.machine.ran();
        Ok(Value::Function(id))
    }

    // ---- operators

    /// Signs before an operand; the one that stands next to it comes first.
    pub fn signed(&mut self, signs: &[UnaryOp], operand: Value) -> Result<Value, Stop>
        requires { Fits self.old.machine operand }
        ensures gives { Gives (spec.signed signs.now operand (world self.old)) result (world self.new) }
        ensures goes { Goes self.old self.new }
        ensures fits { IfOk result (λ v. Fits self.new.machine v) }
    {
        let mut value = operand;
        let mut left = signs.len();
        while left > 0 {
            left -= 1;
            value = self.sign(signs[left], value)?;
        }
        Ok(value)
    }

    /// An operator between two operands.
    pub fn binary(
        &mut self,
        program: &Program,
        op: BinaryOp,
        left: Value,
        right: Value,
    ) -> Result<Value, Stop>
        requires left { Fits self.old.machine left }
        requires right { Fits self.old.machine right }
        ensures gives { Gives (operate (operators.binary (names program.now) op left right) (world self.old)) result (world self.new) }
        ensures goes { Goes self.old self.new }
        ensures fits { IfOk result (λ v. Fits self.new.machine v) }
    {
        self.charge(1)?;
        let mut meter = Meter {
            left: self.meter.left,
        };
        let answer = binary(
            self.alloc,
            op,
            left,
            right,
            program,
            &mut self.machine,
            &mut meter,
        );
        self.finish(answer, meter)
    }

    /// A comparison of two operands.
    pub fn compared(&mut self, op: CompareOp, left: &Value, right: &Value) -> Result<Value, Stop>
        requires left { Fits self.old.machine left.now }
        requires right { Fits self.old.machine right.now }
        ensures gives { Gives (operate (spec.compared op left.now right.now) (world self.old)) result (world self.new) }
        ensures goes { Goes self.old self.new }
        ensures fits { IfOk result (λ v. Fits self.new.machine v) }
    {
        self.charge(1)?;
        let mut meter = Meter {
            left: self.meter.left,
        };
        let answer = comparison(self.alloc, op, left, right, &self.machine, &mut meter);
        self.finish(answer, meter)
    }

    /// An item by its place or its key.
    pub fn index(&mut self, of: &Value, at: &Value) -> Result<Value, Stop>
        requires of { Fits self.old.machine of.now }
        requires at { Fits self.old.machine at.now }
        ensures gives { Gives (operate (operators.index of.now at.now) (world self.old)) result (world self.new) }
        ensures goes { Goes self.old self.new }
        ensures fits { IfOk result (λ v. Fits self.new.machine v) }
    {
        self.charge(1)?;
        let mut meter = Meter {
            left: self.meter.left,
        };
        let answer = index(self.alloc, of, at, &self.machine, &mut meter);
        self.finish(answer, meter)
    }

    /// A part of a list, tuple or text.
    pub fn slice(&mut self, of: &Value, bounds: &Bounds) -> Result<Value, Stop>
        requires { Fits self.old.machine of.now }
        ensures gives { Gives (operate (operators.slice of.now (record { start = bounds.now.start; stop = bounds.now.stop; step = bounds.now.step })) (world self.old)) result (world self.new) }
        ensures goes { Goes self.old self.new }
        ensures fits { IfOk result (λ v. Fits self.new.machine v) }
    {
        self.charge(1)?;
        let mut meter = Meter {
            left: self.meter.left,
        };
        let answer = slice(self.alloc, of, bounds, &mut self.machine, &mut meter);
        self.finish(answer, meter)
    }

    /// The operator of `p op= t`.
    pub fn augmented(
        &mut self,
        program: &Program,
        op: BinaryOp,
        left: Value,
        right: Value,
    ) -> Result<Value, Stop>
        requires left { Fits self.old.machine left }
        requires right { Fits self.old.machine right }
        ensures gives { Gives (operate (operators.augmented (names program.now) self.old.frame.locked op left right) (world self.old)) result (world self.new) }
        ensures goes { Goes self.old self.new }
        ensures fits { IfOk result (λ v. Fits self.new.machine v) }
    {
        self.charge(1)?;
        let mut meter = Meter {
            left: self.meter.left,
        };
        let answer = augmented(
            self.alloc,
            self.locked.as_slice(),
            op,
            left,
            right,
            program,
            &mut self.machine,
            &mut meter,
        );
        self.finish(answer, meter)
    }

    // ---- calls of what the language brings

    /// A call of a built-in function, of which 1 is paid already.
    pub fn called_builtin(
        &mut self,
        program: &Program,
        which: Builtin,
        call: Call,
    ) -> Result<Value, Stop>
        requires positional { AllFit self.old.machine call.positional }
        requires named { AllFit self.old.machine (map (λ entry. entry.1) call.named) }
        requires credit { HasCredit self.old }
        ensures gives { Gives (spec.call_written (builtins.call_builtin (names program.now) which call.positional call.named) (world self.old)) result (world self.new) }
        ensures made { Makes self.old self.new }
        ensures fits { IfOk result (λ v. Fits self.new.machine v) }
    {
        let mut meter = Meter {
            left: self.meter.left,
        };
        let answer = call_builtin(
            self.alloc,
            which,
            call,
            program,
            &mut self.machine,
            &mut meter,
            &mut self.out,
        );
        self.settle(answer, meter)
    }

    /// A call of a method.
    pub fn method(&mut self, name: &Text, of: &Value, call: Call) -> Result<Value, Stop>
        requires of { Fits self.old.machine of.now }
        requires positional { AllFit self.old.machine call.positional }
        requires named { AllFit self.old.machine (map (λ entry. entry.1) call.named) }
        ensures gives { Gives (spec.method_called name.now of.now call.positional call.named (world self.old)) result (world self.new) }
        ensures goes { Goes self.old self.new }
        ensures fits { IfOk result (λ v. Fits self.new.machine v) }
    {
        self.charge(1)?;
        let mut meter = Meter {
            left: self.meter.left,
        };
        let answer = call_method(
            self.alloc,
            name,
            of,
            call,
            &self.locked,
            &mut self.machine,
            &mut meter,
        );
        self.finish(answer, meter)
    }

    /// The input of a name; an array is a new list.
    #[tactic(auto, unfolding(star_meaning::specs::World::operation, star_meaning::specs::World::acting, star_meaning::specs::Expressions::read_input))]
    pub fn input(&mut self, given: &Given<'_>, name: &Text) -> Result<Value, Stop>
        ensures gives { Gives (spec.read_input (setting (fixed given.now)) name.now (world self.old)) result (world self.new) }
        ensures goes { Goes self.old self.new }
        ensures fits { IfOk result (λ v. Fits self.new.machine v) }
    {
        self.charge(1)?;
        let Some(input) = given.inputs.get(name) else {
            return Err(Stop::Failure(Failure::NoInput));
        };
        let value = self.input_value(input)?;
        self.charge_rest(&value)?;
        Ok(value)
    }

    // ---- stores

    /// `of[at] = value`.
    pub fn store(&mut self, of: &Value, at: Value, value: Value) -> Result<(), Stop>
        requires of { Fits self.old.machine of.now }
        requires at { Fits self.old.machine at }
        requires value { Fits self.old.machine value }
        ensures gives { Gives (spec.store_at of.now at value (world self.old)) result (world self.new) }
        ensures goes { Goes self.old self.new }
    {
        let mut meter = Meter {
            left: self.meter.left,
        };
        let answer = store(
            self.alloc,
            self.locked.as_slice(),
            of,
            at,
            value,
            &mut self.machine,
            &mut meter,
        );
        self.settle(answer, meter)
    }

    /// The items of a list or tuple for so many targets.
    pub fn unpacked(&mut self, count: usize, of: Value) -> Result<Values, Stop>
        requires { Fits self.old.machine of }
        ensures gives { Gives (acting (operators.unpacked count of) (world self.old)) result (world self.new) }
        ensures goes { Goes self.old self.new }
        ensures fits { IfOk result (λ items. AllFit self.new.machine items) }
    {
        let mut meter = Meter {
            left: self.meter.left,
        };
        let answer = unpacked(self.alloc, count, of, &self.machine, &mut meter);
        self.settle(answer, meter)
    }

    // ---- what is written

    /// Writes a value, quoted, and a newline; the code points are charged as they are made. None is
    /// not written.
    pub fn echo(&mut self, given: &Given<'_>, value: &Value) -> Result<(), Stop>
        requires { Fits self.old.machine value.now }
        ensures gives { (call : spec.Callee ℕ) → Gives (statements.echo (setting (fixed given.now)) call value.now (world self.old)) result (world self.new) }
        ensures goes { Goes self.old self.new }
    {
        if is_none(value) {
            return Ok(());
        }
        let mut text = self.quoted(given.program, value)?;
        self.charge(1)?;
        text.push_str("\n")?;
        self.write(&text)
    }

    // ---- parts of steps

    /// Takes over the steps that a call has left, unless memory was wanting.
    fn settle<A: Drop>(&mut self, answer: Result<A, Stop>, meter: Meter) -> Result<A, Stop>
        requires { Spends answer meter.left self.old.left }
        ensures same { result ≡ answer }
        ensures left { self.new ≡ record self.old { left = left_after answer meter.left self.old.left } }
        ensures goes { Goes self.old self.new }
    {
        match answer {
            Ok(value) => {
                self.meter = meter;
                Ok(value)
            }
            Err(Stop::Failure(failure)) => {
                self.meter = meter;
                Err(Stop::Failure(failure))
            }
            Err(Stop::NoMemory) => Err(Stop::NoMemory),
        }
    }

    /// Takes over the steps that an operation has left, and charges its result.
    fn finish(&mut self, answer: Result<Value, Stop>, meter: Meter) -> Result<Value, Stop>
        requires spends { Spends answer meter.left self.old.left }
        requires fits { IfOk answer (λ v. Fits self.old.machine v) }
        ensures gives { (o : Outcome (Store ℕ) AFailure AValue) → GivesWeighed o answer (store self.old.machine meter.left) → Gives (settled self.old.frame self.old.out o) result (world self.new) }
        ensures goes { Goes self.old self.new }
        ensures fits { IfOk result (λ v. Fits self.new.machine v) }
    {
        let value = self.settle(answer, meter)?;
        self.charge_rest(&value)?;
        Ok(value)
    }

    /// Gives a name this value in the innermost block that has it.
    fn rebind(&mut self, name: &Text, value: Value)
        requires { Fits self.old.machine value }
        ensures same { self.new ≡ record self.old { frame = record self.old.frame { blocks = rebound self.old.frame.blocks name.now value } } }
        ensures goes { Goes self.old self.new }
    {
        self.blocks.bind(name, value);
    }

    /// Gives a global name this value.
    fn set_global(&mut self, name: &Text, value: Value) -> Result<(), NoMemory>
        requires { Fits self.old.machine value }
        ensures ok { OnOk result (self.new ≡ record self.old { machine = record self.old.machine { state = set_global self.old.machine.state name.now value } }) }
        ensures goes { Goes self.old self.new }
    {
        self.machine.set_global(name, value)?;
        let _nodes = self.machine.ran();
        Ok(())
    }

    /// One sign before an operand.
    fn sign(&mut self, op: UnaryOp, operand: Value) -> Result<Value, Stop>
        ensures gives { Gives (operate (operators.unary op operand) (world self.old)) result (world self.new) }
        ensures goes { Goes self.old self.new }
        ensures fits { IfOk result (λ v. Fits self.new.machine v) }
    {
        self.charge(1)?;
        let mut meter = Meter {
            left: self.meter.left,
        };
        let answer = turned(op, operand, &mut meter);
        self.finish(answer, meter)
    }

    /// An input as a value; the items of an array are charged, and are a new list.
    #[tactic(auto, unfolding(star_meaning::specs::World::acting))]
    fn input_value(&mut self, input: &Input) -> Result<Value, Stop>
        requires { HasCredit self.old }
        ensures gives { Gives (acting (spec.input_value input.now) (world self.old)) result (world self.new) }
        ensures made { Makes self.old self.new }
        ensures fits { IfOk result (λ v. Fits self.new.machine v) }
    {
        match input {
            Input::None => Ok(none()),
            Input::Bool(truth) => Ok(bool_value(*truth)),
            Input::Int(number) => Ok(int_value(*number)),
            Input::Text(text) => Ok(text_value(text.copy(self.alloc)?)),
            Input::List(items) => {
                let items = item_values(self.alloc, items.as_slice())?;
                self.charged_list(items)
            }
        }
    }

    /// A new list of these items, whose weights are charged.
    #[tactic(auto, using(crate::proofs::RunLemmas::acting_then))]
    fn charged_list(&mut self, items: Values) -> Result<Value, Stop>
        requires fit { AllFit self.old.machine items }
        requires credit { HasCredit self.old }
        ensures gives { Gives (acting (operators.charged_list items) (world self.old)) result (world self.new) }
        ensures made { Makes self.old self.new }
        ensures fits { IfOk result (λ v. Fits self.new.machine v) }
    {
        self.charge_items(items.as_slice())?;
        self.made_list(items)
    }

    /// Takes the weights of these values.
    #[tactic(auto, unfolding(star_meaning::specs::World::acting, star_meaning::specs::Steps::charge))]
    fn charge_items(&mut self, all: &[Value]) -> Result<(), Stop>
        ensures gives { Gives (acting (values.charge_items all.now) (world self.old)) result (world self.new) }
        ensures goes { Goes self.old self.new }
        ensures same { self.new ≡ record self.old { left = self.new.left } }
    {
        charge_items(all, &mut self.meter)?;
        Ok(())
    }

    /// A value in its quoted form, whose code points are charged.
    fn quoted(&mut self, program: &Program, value: &Value) -> Result<Text, Stop>
        requires { Fits self.old.machine value.now }
        ensures gives { Gives (acting (showing.quoted (names program.now) value.now) (world self.old)) result (world self.new) }
        ensures goes { Goes self.old self.new }
    {
        let mut meter = Meter {
            left: self.meter.left,
        };
        let answer = quoted_text(self.alloc, value, program, &self.machine, &mut meter);
        self.settle(answer, meter)
    }

    #[tactic(auto, unfolding(star_meaning::specs::World::write))]
    fn write(&mut self, text: &Text) -> Result<(), Stop>
        ensures gives { Gives (steps.write text.now (world self.old)) result (world self.new) }
        ensures goes { Goes self.old self.new }
    {
        self.out.push_text(text)?;
        Ok(())
    }

    // ---- begin and end

    /// A run over a machine, with so many steps.
    pub fn begin(alloc: Global, machine: Machine, left: u64) -> Run
        requires proper { IsTrue (all_in is_proper machine.state) }
        requires room { length machine.state.objects + left < 1000000 * length machine.ran }
        ensures { result ≡ record { machine = machine; frame = outermost; out = []; left = left } }
    {
        Run {
            alloc,
            machine,
            blocks: Blocks::new(alloc),
            active: Items::new(alloc),
            locked: Items::new(alloc),
            out: Text::new(alloc),
            meter: Meter { left },
        }
    }

    /// The machine, what was written, and the steps that are left.
    pub fn end(self) -> (Machine, Text, u64)
        ensures { result ≡ (self.machine, self.out, self.left) }
    {
        let Run {
            alloc: _,
            machine,
            blocks: _,
            active: _,
            locked: _,
            out,
            meter,
        } = self;
        (machine, out, meter.left)
    }
}

/// Whether an object's number is one of these.
fn contains(ids: &[ObjectId], id: ObjectId) -> bool
    ensures { result ≡ values.has ids.now id }
{
    for other in ids {
        if other.0 == id.0 {
            return true;
        }
    }
    false
}

fn is_none(value: &Value) -> bool
    ensures { result ≡ is_none_at (out-Value value.now) }
{
    match value {
        Value::None => true,
        _ => false,
    }
}

/// The items of an array as values.
fn item_values(alloc: Global, items: &[InputItem]) -> Result<Values, NoMemory>
    ensures value { IfOk result (λ values. values ≡ map spec.item_value items.now) }
    ensures fits { (m : MachineState) → IfOk result (λ values. AllFit m values) }
{
    let mut values = Items::new(alloc);
    for item in items {
        let value = item_value(alloc, item)?;
        values.push(value)?;
    }
    Ok(values)
}

fn item_value(alloc: Global, item: &InputItem) -> Result<Value, NoMemory>
    ensures value { IfOk result (λ v. v ≡ spec.item_value item.now) }
    ensures fits { (m : MachineState) → IfOk result (λ v. Fits m v) }
{
    match item {
        InputItem::None => Ok(none()),
        InputItem::Bool(truth) => Ok(bool_value(*truth)),
        InputItem::Int(number) => Ok(int_value(*number)),
        InputItem::Text(text) => Ok(text_value(text.copy(alloc)?)),
    }
}

/// A comparison as a value.
fn comparison(
    alloc: Global,
    op: CompareOp,
    left: &Value,
    right: &Value,
    machine: &Machine,
    meter: &mut Meter,
) -> Result<Value, Stop>
    requires left { Fits machine.now left.now }
    requires right { Fits machine.now right.now }
    ensures gives { Gives (spec.compared op left.now right.now (store machine.now meter.old.left)) result (store machine.now meter.new.left) }
    ensures fits { IfOk result (λ v. Fits machine.now v) }
{
    let truth = compare(alloc, op, left, right, machine, meter)?;
    Ok(bool_value(truth))
}

/// What a sign makes of an operand.
fn turned(op: UnaryOp, operand: Value, meter: &mut Meter) -> Result<Value, Stop>
    ensures gives { (m : MachineState) → Gives (operators.unary op operand (store m meter.old.left)) result (store m meter.new.left) }
    ensures fits { (m : MachineState) → IfOk result (λ v. Fits m v) }
{
    let value = unary(op, operand, meter)?;
    Ok(value)
}

/// A value in its quoted form, whose code points are charged.
fn quoted_text(
    alloc: Global,
    value: &Value,
    program: &Program,
    machine: &Machine,
    meter: &mut Meter,
) -> Result<Text, Stop>
    requires { Fits machine.now value.now }
    ensures { Gives (showing.quoted (names program.now) value.now (store machine.now meter.old.left)) result (store machine.now meter.new.left) }
{
    let mut text = Text::new(alloc);
    show(alloc, value, program, machine, true, meter, &mut text)?;
    Ok(text)
}
