//! One call over a new machine: what it answers, what it charges, and what it leaves.
ghost use Rattle.std.specs.Prelude.{map, IfOk, IsTrue, OnOk};
ghost use Rattle.call_tests.specs.Growth.{Grows};
ghost use Rattle.star_builtins.specs.Reached.{AllFit, Fits, HasRoom};
ghost use Rattle.star_meaning.specs.Validity.{MachineState, all_in, is_proper};

use crate::fault::Fault;
use crate::names::builtin_of;
use crate::objects::check_room;
use crate::trees::{AMPLE, named_values, no_program, text_value, value, values};
use chex_base::{NodeId, ObjectId, Text};
use heap_store::Machine;
use sqlite_items::Items;
use star_builtins::{
    Call, Objects, augmented, call_builtin, call_method, index, new_tuple, show, store, unpacked,
};
use star_syntax::{Arguments, BinaryOp, Expr, SmallKind, Statement, Suffix};
use star_value::{Meter, Stop, Value, Values};
use std::alloc::Global;

/// What a call answers and leaves.
#[derive(Drop)]
pub struct Answer {
    /// The result in its quoted form, or the name of the failure.
    pub result: String,
    /// Whether the call has a result.
    pub is_done: bool,
    /// The weight of the result; 1 for a failure.
    pub weight: u64,
    /// How many steps are left.
    pub left: u64,
    /// The quoted form of what the call is over, or of what was written, before the call.
    pub before: String,
    /// The same after it.
    pub after: String,
}

/// How a call is run.
#[derive(Clone, Copy)]
pub struct Terms {
    /// How many steps it may take.
    pub left: u64,
    /// Whether what it is over is locked.
    pub locked: bool,
}

/// A machine in which the cell of node 1 runs.
fn entered(alloc: Global) -> Result<Machine, Fault>
    ensures { IfOk result (λ m. IsTrue (all_in is_proper m.state)) }
{
    let mut machine = Machine::new(alloc);
    machine.enter(NodeId(1))?;
    Ok(machine)
}

/// Runs the call that a statement is.
pub fn run(alloc: Global, statement: &Statement, terms: Terms) -> Result<Answer, Fault> {
    let mut machine = entered(alloc)?;
    match small_of(statement)? {
        SmallKind::Tests(tests) => called(alloc, only(tests.as_slice())?, terms, &mut machine),
        SmallKind::Assign(targets, tests) => assigned(
            alloc,
            targets.as_slice(),
            only(tests.as_slice())?,
            terms,
            &mut machine,
        ),
        SmallKind::Augmented(target, op, tests) => changed(
            alloc,
            target,
            *op,
            only(tests.as_slice())?,
            terms,
            &mut machine,
        ),
        _ => Err(Fault::Unread),
    }
}

/// The only small statement of a line.
fn small_of(statement: &Statement) -> Result<&SmallKind, Fault> {
    let Statement::Line(line) = statement else {
        return Err(Fault::Unread);
    };
    match line.smalls.as_slice() {
        [small] => Ok(&small.kind),
        _ => Err(Fault::Unread),
    }
}

fn only(trees: &[Expr]) -> Result<&Expr, Fault> {
    match trees {
        [tree] => Ok(tree),
        _ => Err(Fault::Unread),
    }
}

/// A call of a built-in function or of a method.
fn called(alloc: Global, tree: &Expr, terms: Terms, machine: &mut Machine) -> Result<Answer, Fault>
    requires { IsTrue (all_in is_proper machine.old.state) }
{
    let Expr::Primary(head, suffixes) = tree else {
        return Err(Fault::Unread);
    };
    match (head.get(), suffixes.as_slice()) {
        (Expr::Name(name), [Suffix::Call(arguments)]) => {
            function(alloc, name, arguments, terms, machine)
        }
        (head, [Suffix::Method(name, arguments)]) => {
            method(alloc, head, name, arguments, terms, machine)
        }
        _ => Err(Fault::Unread),
    }
}

fn function(
    alloc: Global,
    name: &Text,
    arguments: &Arguments<Expr>,
    terms: Terms,
    machine: &mut Machine,
) -> Result<Answer, Fault>
    requires { IsTrue (all_in is_proper machine.old.state) }
{
    let Some(which) = builtin_of(name.as_str()) else {
        return Err(Fault::Unread);
    };
    let call = call_of(alloc, arguments, machine)?;
    check_room(machine)?;
    let program = no_program(alloc);
    let mut meter = Meter { left: terms.left };
    let mut out = Text::new(alloc);
    let result = call_builtin(alloc, which, call, &program, machine, &mut meter, &mut out);
    let before = text_quoted(alloc, Text::new(alloc), machine)?;
    let after = text_quoted(alloc, out, machine)?;
    answered(alloc, result, meter.left, before, after, machine)
}

fn method(
    alloc: Global,
    head: &Expr,
    name: &Text,
    arguments: &Arguments<Expr>,
    terms: Terms,
    machine: &mut Machine,
) -> Result<Answer, Fault>
    requires { IsTrue (all_in is_proper machine.old.state) }
{
    let of = value(alloc, head, machine)?;
    let call = call_of(alloc, arguments, machine)?;
    check_room(machine)?;
    let before = quoted(alloc, &of, machine)?;
    let locked = locked_by(alloc, &of, terms.locked)?;
    let mut meter = Meter { left: terms.left };
    let result = call_method(alloc, name, &of, call, &locked, machine, &mut meter);
    let after = quoted(alloc, &of, machine)?;
    answered(alloc, result, meter.left, before, after, machine)
}

/// The arguments of a call.
#[tactic(auto, using(crate::proofs::Growing::all_later, crate::proofs::Growing::grows_then))]
fn call_of(alloc: Global, arguments: &Arguments<Expr>, machine: &mut Machine) -> Result<Call, Fault>
    requires { IsTrue (all_in is_proper machine.old.state) }
    ensures positional { IfOk result (λ call. AllFit machine.new call.positional) }
    ensures named { IfOk result (λ call. AllFit machine.new (map (λ entry. entry.1) call.named)) }
    ensures grows { OnOk result (Grows machine.old machine.new) }
{
    let positional = values(alloc, arguments.positional.as_slice(), machine)?;
    let named = named_values(alloc, arguments.named.as_slice(), machine)?;
    Ok(Call { positional, named })
}

/// The objects that are locked: the list or dict itself, or none.
fn locked_by(alloc: Global, of: &Value, is_locked: bool) -> Result<Objects, Fault> {
    let mut locked = Items::new(alloc);
    if is_locked {
        match of {
            Value::List(id) => locked.push(*id)?,
            Value::Dict(id) => locked.push(*id)?,
            _ => {}
        }
    }
    Ok(locked)
}

/// `x[i] = v`, or several targets for one value.
fn assigned(
    alloc: Global,
    targets: &[Expr],
    tree: &Expr,
    terms: Terms,
    machine: &mut Machine,
) -> Result<Answer, Fault>
    requires { IsTrue (all_in is_proper machine.old.state) }
{
    match targets {
        [place] => stored(alloc, place, tree, terms, machine),
        _ => taken(alloc, targets.len(), tree, terms, machine),
    }
}

/// What is indexed, and the index.
fn place_of(tree: &Expr) -> Result<(&Expr, &Expr), Fault> {
    let Expr::Primary(head, suffixes) = tree else {
        return Err(Fault::Unread);
    };
    match suffixes.as_slice() {
        [Suffix::Index(at)] => Ok((head.get(), at)),
        _ => Err(Fault::Unread),
    }
}

fn stored(
    alloc: Global,
    place: &Expr,
    tree: &Expr,
    terms: Terms,
    machine: &mut Machine,
) -> Result<Answer, Fault>
    requires { IsTrue (all_in is_proper machine.old.state) }
{
    let (head, at) = place_of(place)?;
    let of = value(alloc, head, machine)?;
    let at = value(alloc, at, machine)?;
    let item = value(alloc, tree, machine)?;
    let before = quoted(alloc, &of, machine)?;
    let locked = locked_by(alloc, &of, terms.locked)?;
    let mut meter = Meter { left: terms.left };
    let done = store(alloc, locked.as_slice(), &of, at, item, machine, &mut meter);
    let after = quoted(alloc, &of, machine)?;
    answered(alloc, nothing(done), meter.left, before, after, machine)
}

/// None where a call is done.
fn nothing(done: Result<(), Stop>) -> Result<Value, Stop>
    ensures { (m : MachineState) → IfOk result (λ v. Fits m v) }
{
    match done {
        Ok(()) => Ok(Value::None),
        Err(stop) => Err(stop),
    }
}

fn taken(
    alloc: Global,
    count: usize,
    tree: &Expr,
    terms: Terms,
    machine: &mut Machine,
) -> Result<Answer, Fault>
    requires { IsTrue (all_in is_proper machine.old.state) }
{
    let of = value(alloc, tree, machine)?;
    let before = quoted(alloc, &of, machine)?;
    let mut meter = Meter { left: terms.left };
    let after = quoted(alloc, &of, machine)?;
    let result = tuple_of(unpacked(alloc, count, of, machine, &mut meter));
    answered(alloc, result, meter.left, before, after, machine)
}

/// A tuple of items, where there are any.
fn tuple_of(items: Result<Values, Stop>) -> Result<Value, Stop>
    ensures { (m : MachineState) → IfOk items (λ all. AllFit m all) → IfOk result (λ v. Fits m v) }
{
    match items {
        Ok(items) => Ok(new_tuple(items)?),
        Err(stop) => Err(stop),
    }
}

/// `x[i] op= v`; the result is what is stored.
fn changed(
    alloc: Global,
    place: &Expr,
    op: BinaryOp,
    tree: &Expr,
    terms: Terms,
    machine: &mut Machine,
) -> Result<Answer, Fault>
    requires { IsTrue (all_in is_proper machine.old.state) }
{
    let (head, at) = place_of(place)?;
    let of = value(alloc, head, machine)?;
    let at = value(alloc, at, machine)?;
    let item = value(alloc, tree, machine)?;
    let before = quoted(alloc, &of, machine)?;
    check_room(machine)?;
    let mut meter = Meter { left: terms.left };
    let result = change_at(alloc, &of, at, op, item, machine, &mut meter);
    let after = quoted(alloc, &of, machine)?;
    answered(alloc, result, meter.left, before, after, machine)
}

fn change_at(
    alloc: Global,
    of: &Value,
    at: Value,
    op: BinaryOp,
    item: Value,
    machine: &mut Machine,
    meter: &mut Meter,
) -> Result<Value, Stop>
    requires of { Fits machine.old of.now }
    requires at { Fits machine.old at }
    requires item { Fits machine.old item }
    requires held { IsTrue (all_in is_proper machine.old.state) }
    requires room { HasRoom machine.old }
    ensures fits { IfOk result (λ v. Fits machine.new v) }
    ensures grows { Grows machine.old machine.new }
{
    let locked: [ObjectId; 0] = [];
    let program = no_program(alloc);
    let old = index(alloc, of, &at, machine, meter)?;
    let new = augmented(alloc, &locked, op, old, item, &program, machine, meter)?;
    let copy = new.copy(alloc)?;
    store(alloc, &locked, of, at, new, machine, meter)?;
    Ok(copy)
}

/// The answer of a call.
fn answered(
    alloc: Global,
    outcome: Result<Value, Stop>,
    left: u64,
    before: String,
    after: String,
    machine: &Machine,
) -> Result<Answer, Fault>
    requires { IfOk outcome (λ v. Fits machine.now v) }
{
    match outcome {
        Ok(value) => Ok(Answer {
            result: quoted(alloc, &value, machine)?,
            weight: value.weight(),
            is_done: true,
            left,
            before,
            after,
        }),
        Err(Stop::Failure(failure)) => Ok(Answer {
            result: format!(in alloc; "{failure:?}")?,
            weight: 1,
            is_done: false,
            left,
            before,
            after,
        }),
        Err(Stop::NoMemory) => Err(Fault::NoMemory),
    }
}

/// The quoted form of a value, or `?` where it nests too deep.
fn quoted(alloc: Global, of: &Value, machine: &Machine) -> Result<String, Fault>
    requires { Fits machine.now of.now }
{
    let program = no_program(alloc);
    let mut meter = Meter { left: AMPLE };
    let mut out = Text::new(alloc);
    match show(alloc, of, &program, machine, true, &mut meter, &mut out) {
        Ok(()) => Ok(String::from_str(alloc, out.as_str())?),
        Err(Stop::Failure(_)) => Ok(String::from_str(alloc, "?")?),
        Err(Stop::NoMemory) => Err(Fault::NoMemory),
    }
}

fn text_quoted(alloc: Global, text: Text, machine: &Machine) -> Result<String, Fault> {
    let text = text_value(text);
    quoted(alloc, &text, machine)
}
