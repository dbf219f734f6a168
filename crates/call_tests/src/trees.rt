//! The values of trees: literals, displays, signs, ranges of literals, and names. `T64` is a tuple
//! in which 63 others nest, and `L65` a new list in which 64 others do.
ghost use Rattle.std.specs.Prelude.{map, IfOk, IsTrue, OnOk};
ghost use Rattle.call_tests.specs.Growth.{Grows};
ghost use Rattle.star_builtins.specs.Reached.{AllFit, Fits};
ghost use Rattle.star_meaning.specs.Validity.{MachineState, all_in, is_proper};

use crate::fault::Fault;
use crate::names::builtin_of;
use crate::objects::{check_room, empty_dict, list_of, nested_list, nested_tuple};
use chex_base::{ObjectId, Text};
use heap_store::Machine;
use sqlite_items::Items;
use star_builtins::{Call, NamedValues, call_builtin, new_tuple, store, unary};
use star_syntax::{Cells, Expr, Named, Pair, Program, Suffix, UnaryOp};
use star_value::{Builtin, Meter, Value, Values};
use std::alloc::Global;

/// As many steps as a cell may take.
pub const AMPLE: u64 = 1_000_000;

/// A program without cells.
pub fn no_program(alloc: Global) -> Program {
    Program {
        cells: Cells::from_vec(Vec::new(alloc)),
    }
}

/// The value of a tree.
#[cycle(trees)]
#[tactic(auto, using(crate::proofs::Growing::grows_same, crate::proofs::Growing::grows_then))]
pub fn value(alloc: Global, tree: &Expr, machine: &mut Machine) -> Result<Value, Fault>
    requires { IsTrue (all_in is_proper machine.old.state) }
    ensures fits { IfOk result (λ v. Fits machine.new v) }
    ensures grows { OnOk result (Grows machine.old machine.new) }
{
    match tree {
        Expr::Paren(inner) => value(alloc, inner.get(), machine),
        Expr::Signed(signs, operand) => {
            let operand = value(alloc, operand.get(), machine)?;
            signed(signs.as_slice(), operand)
        }
        Expr::Tuple(trees, _) => tuple(alloc, trees.as_slice(), machine),
        Expr::List(trees, _) => {
            let items = values(alloc, trees.as_slice(), machine)?;
            list_of(items, machine)
        }
        Expr::Dict(pairs, _) => dict(alloc, pairs.as_slice(), machine),
        Expr::Name(name) => named_value(alloc, name, machine),
        Expr::Primary(head, suffixes) => {
            range_of(alloc, head.get(), suffixes.as_slice(), machine)
        }
        _ => literal(alloc, tree),
    }
}

#[cycle(trees)]
fn tuple(alloc: Global, trees: &[Expr], machine: &mut Machine) -> Result<Value, Fault>
    requires { IsTrue (all_in is_proper machine.old.state) }
    ensures fits { IfOk result (λ v. Fits machine.new v) }
    ensures grows { OnOk result (Grows machine.old machine.new) }
{
    let items = values(alloc, trees, machine)?;
    Ok(new_tuple(items)?)
}

/// One more value at the end.
#[tactic(auto, using(crate::proofs::Growing::push_fits))]
fn push(items: &mut Values, item: Value) -> Result<(), Fault>
    ensures { (m : MachineState) → AllFit m items.old → Fits m item → OnOk result (AllFit m items.new) }
{
    items.push(item)?;
    Ok(())
}

/// The values of trees, in order.
#[cycle(trees)]
#[tactic(auto, using(crate::proofs::Growing::none_fit, crate::proofs::Growing::all_later, crate::proofs::Growing::grows_same, crate::proofs::Growing::grows_then))]
pub fn values(alloc: Global, trees: &[Expr], machine: &mut Machine) -> Result<Values, Fault>
    requires { IsTrue (all_in is_proper machine.old.state) }
    ensures fit { IfOk result (λ items. AllFit machine.new items) }
    ensures grows { OnOk result (Grows machine.old machine.new) }
{
    let mut items = Items::new(alloc);
    for tree in trees {
        let item = value(alloc, tree, machine)?;
        push(&mut items, item)?;
    }
    Ok(items)
}

/// A new dict of pairs.
#[cycle(trees)]
#[tactic(auto, using(crate::proofs::Growing::grows_same, crate::proofs::Growing::grows_then))]
fn dict(alloc: Global, pairs: &[Pair<Expr>], machine: &mut Machine) -> Result<Value, Fault>
    requires { IsTrue (all_in is_proper machine.old.state) }
    ensures fits { IfOk result (λ v. Fits machine.new v) }
    ensures grows { OnOk result (Grows machine.old machine.new) }
{
    let dict = empty_dict(alloc, machine)?;
    for pair in pairs {
        let key = value(alloc, &pair.key, machine)?;
        let item = value(alloc, &pair.value, machine)?;
        put(alloc, &dict, key, item, machine)?;
    }
    Ok(dict)
}

#[tactic(auto, using(crate::proofs::Growing::grows_follows))]
fn put(
    alloc: Global,
    dict: &Value,
    key: Value,
    item: Value,
    machine: &mut Machine,
) -> Result<(), Fault>
    requires dict { Fits machine.old dict.now }
    requires key { Fits machine.old key }
    requires item { Fits machine.old item }
    requires held { IsTrue (all_in is_proper machine.old.state) }
    ensures { OnOk result (Grows machine.old machine.new) }
{
    let locked: [ObjectId; 0] = [];
    let mut meter = Meter { left: AMPLE };
    store(alloc, &locked, dict, key, item, machine, &mut meter)?;
    Ok(())
}

/// A value that holds no others.
fn literal(alloc: Global, tree: &Expr) -> Result<Value, Fault>
    ensures { (m : MachineState) → IfOk result (λ v. Fits m v) }
{
    match tree {
        Expr::None => Ok(Value::None),
        Expr::True => Ok(Value::Bool(true)),
        Expr::False => Ok(Value::Bool(false)),
        Expr::Int(number) => signed(&[UnaryOp::Plus], Value::Int(*number)),
        Expr::Text(text) => Ok(text_value(text.copy(alloc)?)),
        _ => Err(Fault::Unread),
    }
}

/// A text as a value.
pub fn text_value(text: Text) -> Value
    ensures { (m : MachineState) → Fits m result }
{
    let _characters = text.as_str();
    Value::Text(text)
}

fn signed(signs: &[UnaryOp], operand: Value) -> Result<Value, Fault>
    ensures { (m : MachineState) → IfOk result (λ v. Fits m v) }
{
    let [sign] = signs else {
        return Err(Fault::Unread);
    };
    let mut meter = Meter { left: AMPLE };
    Ok(unary(*sign, operand, &mut meter)?)
}

/// What a name stands for.
#[tactic(auto, using(crate::proofs::Growing::grows_same, crate::proofs::Growing::fits_builtin))]
fn named_value(alloc: Global, name: &Text, machine: &mut Machine) -> Result<Value, Fault>
    ensures fits { IfOk result (λ v. Fits machine.new v) }
    ensures grows { OnOk result (Grows machine.old machine.new) }
{
    let name = name.as_str();
    if name == "T64" {
        return nested_tuple(alloc, 63);
    }
    if name == "L65" {
        return nested_list(alloc, 64, machine);
    }
    match builtin_of(name) {
        Some(which) => Ok(Value::Builtin(which)),
        None => Err(Fault::Unread),
    }
}

/// `range(..)` of literals.
fn range_of(
    alloc: Global,
    head: &Expr,
    suffixes: &[Suffix<Expr>],
    machine: &mut Machine,
) -> Result<Value, Fault>
    requires { IsTrue (all_in is_proper machine.old.state) }
    ensures fits { IfOk result (λ v. Fits machine.new v) }
    ensures grows { OnOk result (Grows machine.old machine.new) }
{
    let (Expr::Name(name), [Suffix::Call(arguments)]) = (head, suffixes) else {
        return Err(Fault::Unread);
    };
    if name.as_str() != "range" {
        return Err(Fault::Unread);
    }
    let bounds = integers(alloc, arguments.positional.as_slice())?;
    new_range(alloc, bounds, machine)
}

#[tactic(auto, using(crate::proofs::Growing::grows_follows))]
fn new_range(alloc: Global, bounds: Values, machine: &mut Machine) -> Result<Value, Fault>
    requires bounds { AllFit machine.old bounds }
    requires held { IsTrue (all_in is_proper machine.old.state) }
    ensures fits { IfOk result (λ v. Fits machine.new v) }
    ensures grows { OnOk result (Grows machine.old machine.new) }
{
    check_room(machine)?;
    let call = Call {
        positional: bounds,
        named: Items::new(alloc),
    };
    let program = no_program(alloc);
    let mut meter = Meter { left: AMPLE };
    let mut out = Text::new(alloc);
    let range = call_builtin(
        alloc,
        Builtin::Range,
        call,
        &program,
        machine,
        &mut meter,
        &mut out,
    )?;
    Ok(range)
}

/// The integers of literals with or without a sign.
#[tactic(auto, using(crate::proofs::Growing::none_fit))]
fn integers(alloc: Global, trees: &[Expr]) -> Result<Values, Fault>
    ensures { (m : MachineState) → IfOk result (λ items. AllFit m items) }
{
    let mut items = Items::new(alloc);
    for tree in trees {
        let item = integer(tree)?;
        push(&mut items, item)?;
    }
    Ok(items)
}

fn integer(tree: &Expr) -> Result<Value, Fault>
    ensures { (m : MachineState) → IfOk result (λ v. Fits m v) }
{
    match tree {
        Expr::Int(number) => signed(&[UnaryOp::Plus], Value::Int(*number)),
        Expr::Signed(signs, operand) => match operand.get() {
            Expr::Int(number) => signed(signs.as_slice(), Value::Int(*number)),
            _ => Err(Fault::Unread),
        },
        _ => Err(Fault::Unread),
    }
}

/// One more argument by name at the end.
#[tactic(auto, using(crate::proofs::Growing::push_named_fits))]
fn push_named(named: &mut NamedValues, name: Text, item: Value) -> Result<(), Fault>
    ensures { (m : MachineState) → AllFit m (map (λ entry. entry.1) named.old) → Fits m item → OnOk result (AllFit m (map (λ entry. entry.1) named.new)) }
{
    named.push((name, item))?;
    Ok(())
}

/// The values of arguments by name.
#[tactic(auto, using(crate::proofs::Growing::none_fit, crate::proofs::Growing::all_later, crate::proofs::Growing::grows_same, crate::proofs::Growing::grows_then))]
pub fn named_values(
    alloc: Global,
    trees: &[Named<Expr>],
    machine: &mut Machine,
) -> Result<NamedValues, Fault>
    requires { IsTrue (all_in is_proper machine.old.state) }
    ensures fit { IfOk result (λ named. AllFit machine.new (map (λ entry. entry.1) named)) }
    ensures grows { OnOk result (Grows machine.old machine.new) }
{
    let mut named = Items::new(alloc);
    for tree in trees {
        let name = tree.name.copy(alloc)?;
        let item = value(alloc, &tree.value, machine)?;
        push_named(&mut named, name, item)?;
    }
    Ok(named)
}
