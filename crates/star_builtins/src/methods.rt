//! The methods of lists, dicts and texts.
ghost use Rattle.std.specs.Prelude.{map, ℕ, List, IfOk, IsTrue, slice_get};
ghost use Rattle.star_builtins.specs.MethodNames as names;
ghost use Rattle.star_builtins.specs.Reached.{AllFit, Answers, Fits, Follows, GivesWeighed, HasRoom, store};
ghost use Rattle.star_meaning.specs.Methods as spec;
ghost use Rattle.star_meaning.specs.Steps.{Gives, Outcome, Store};
ghost use Rattle.star_meaning.specs.Validity.{MachineState, all_in, is_dict, is_list, is_proper};
ghost use Rattle.star_value.specs.declared.failure.Failure.{Failure as AFailure};
ghost use Rattle.star_value.specs.declared.value.Value.{Value as AValue};
ghost use Rattle.star_value.specs.declared.value.Value.TheVariants as value;

use crate::arguments::unnamed;
use crate::method_names::{
    DictMethod, ListMethod, TextMethod, dict_method, list_method, text_method,
};
use crate::{Call, Objects, dict_methods, list_methods, text_methods};
use chex_base::{ObjectId, Text};
use heap_store::Machine;
use star_value::{Failure, Meter, Stop, Value, Values};
use std::alloc::Global;

/// A call of a method of a value, where these objects are locked. `docs/LANGUAGE.md` lists the
/// methods with their charges; another name, or a value without methods, is NoMethod. A call that
/// fails changes no object, and at most one object is made.
#[tactic(auto, using(crate::proofs::FitLemmas::held, crate::proofs::FollowLemmas::follows_equal))]
pub fn call_method(
    alloc: Global,
    name: &Text,
    of: &Value,
    call: Call,
    locked: &Objects,
    machine: &mut Machine,
    meter: &mut Meter,
) -> Result<Value, Stop>
    requires of { Fits machine.old of.now }
    requires positional { AllFit machine.old call.positional }
    requires named { AllFit machine.old (map (λ entry. entry.1) call.named) }
    requires held { IsTrue (all_in is_proper machine.old.state) }
    requires room { HasRoom machine.old }
    ensures gives { GivesWeighed (spec.call_method locked.now name.now of.now call.positional call.named (store machine.old meter.old.left)) result (store machine.new meter.new.left) }
    ensures fits { IfOk result (λ v. Fits machine.new v) }
    ensures follows { Follows machine.old machine.new }
{
    let objects = locked.as_slice();
    match of {
        Value::List(id) => list_call(alloc, name, *id, call, objects, machine, meter),
        Value::Dict(id) => dict_call(alloc, name, *id, call, objects, machine, meter),
        Value::Text(text) => text_call(alloc, name, text, call, machine, meter),
        Value::None => Err(Stop::Failure(Failure::NoMethod)),
        Value::Bool(_) => Err(Stop::Failure(Failure::NoMethod)),
        Value::Int(_) => Err(Stop::Failure(Failure::NoMethod)),
        Value::Tuple(_) => Err(Stop::Failure(Failure::NoMethod)),
        Value::Range(_) => Err(Stop::Failure(Failure::NoMethod)),
        Value::Function(_) => Err(Stop::Failure(Failure::NoMethod)),
        Value::Builtin(_) => Err(Stop::Failure(Failure::NoMethod)),
    }
}

#[tactic(auto, using(crate::proofs::FollowLemmas::follows_equal))]
fn list_call(
    alloc: Global,
    name: &Text,
    id: ObjectId,
    call: Call,
    locked: &[ObjectId],
    machine: &mut Machine,
    meter: &mut Meter,
) -> Result<Value, Stop>
    requires kind { IsTrue (is_list (slice_get machine.old.state.objects id)) }
    requires positional { AllFit machine.old call.positional }
    requires held { IsTrue (all_in is_proper machine.old.state) }
    ensures gives { Gives (spec.call_method locked.now name.now (value.List id) call.positional call.named (store machine.old meter.old.left)) result (store machine.new meter.new.left) }
    ensures fits { IfOk result (λ v. Fits machine.new v) }
    ensures follows { Follows machine.old machine.new }
{
    let Some(method) = list_method(name) else {
        return Err(Stop::Failure(Failure::NoMethod));
    };
    let arguments = unnamed(call)?;
    list_row(alloc, method, id, arguments, locked, machine, meter)
}

#[tactic(auto, using(crate::proofs::FollowLemmas::follows_equal))]
fn list_row(
    alloc: Global,
    method: ListMethod,
    id: ObjectId,
    arguments: Values,
    locked: &[ObjectId],
    machine: &mut Machine,
    meter: &mut Meter,
) -> Result<Value, Stop>
    requires kind { IsTrue (is_list (slice_get machine.old.state.objects id)) }
    requires arguments { AllFit machine.old arguments }
    requires held { IsTrue (all_in is_proper machine.old.state) }
    ensures gives { Gives (names.list_method method locked.now id arguments (store machine.old meter.old.left)) result (store machine.new meter.new.left) }
    ensures fits { IfOk result (λ v. Fits machine.new v) }
    ensures follows { Follows machine.old machine.new }
{
    match method {
        ListMethod::Append => list_methods::append(locked, id, arguments, machine),
        ListMethod::Clear => list_methods::clear(locked, id, arguments, machine),
        ListMethod::Extend => list_methods::extend(alloc, locked, id, arguments, machine, meter),
        ListMethod::Insert => list_methods::insert(locked, id, arguments, machine),
        ListMethod::Pop => list_methods::pop(locked, id, arguments, machine),
        ListMethod::Remove => list_methods::remove(locked, id, arguments, machine, meter),
        ListMethod::Index => list_methods::index(id, arguments, machine, meter),
    }
}

#[tactic(auto, using(crate::proofs::FollowLemmas::follows_equal))]
fn dict_call(
    alloc: Global,
    name: &Text,
    id: ObjectId,
    call: Call,
    locked: &[ObjectId],
    machine: &mut Machine,
    meter: &mut Meter,
) -> Result<Value, Stop>
    requires kind { IsTrue (is_dict (slice_get machine.old.state.objects id)) }
    requires positional { AllFit machine.old call.positional }
    requires held { IsTrue (all_in is_proper machine.old.state) }
    requires room { HasRoom machine.old }
    ensures gives { Gives (spec.call_method locked.now name.now (value.Dict id) call.positional call.named (store machine.old meter.old.left)) result (store machine.new meter.new.left) }
    ensures fits { IfOk result (λ v. Fits machine.new v) }
    ensures follows { Follows machine.old machine.new }
{
    let Some(method) = dict_method(name) else {
        return Err(Stop::Failure(Failure::NoMethod));
    };
    let arguments = unnamed(call)?;
    dict_row(alloc, method, id, arguments, locked, machine, meter)
}

#[tactic(auto, using(crate::proofs::FollowLemmas::follows_equal))]
fn dict_row(
    alloc: Global,
    method: DictMethod,
    id: ObjectId,
    arguments: Values,
    locked: &[ObjectId],
    machine: &mut Machine,
    meter: &mut Meter,
) -> Result<Value, Stop>
    requires kind { IsTrue (is_dict (slice_get machine.old.state.objects id)) }
    requires arguments { AllFit machine.old arguments }
    requires held { IsTrue (all_in is_proper machine.old.state) }
    requires room { HasRoom machine.old }
    ensures gives { Gives (names.dict_method method locked.now id arguments (store machine.old meter.old.left)) result (store machine.new meter.new.left) }
    ensures fits { IfOk result (λ v. Fits machine.new v) }
    ensures follows { Follows machine.old machine.new }
{
    match method {
        DictMethod::Get => dict_methods::get(alloc, id, arguments, machine, meter),
        DictMethod::Pop => dict_methods::pop(alloc, locked, id, arguments, machine, meter),
        DictMethod::SetDefault => {
            dict_methods::set_default(alloc, locked, id, arguments, machine, meter)
        }
        DictMethod::Keys => dict_methods::keys(alloc, id, arguments, machine, meter),
        DictMethod::Values => dict_methods::values(alloc, id, arguments, machine, meter),
        DictMethod::Items => dict_methods::items(alloc, id, arguments, machine, meter),
        DictMethod::Update => dict_methods::update(alloc, locked, id, arguments, machine, meter),
        DictMethod::Clear => dict_methods::clear(locked, id, arguments, machine),
    }
}

#[tactic(auto, using(crate::proofs::FollowLemmas::follows_equal))]
fn text_call(
    alloc: Global,
    name: &Text,
    text: &Text,
    call: Call,
    machine: &mut Machine,
    meter: &mut Meter,
) -> Result<Value, Stop>
    requires positional { AllFit machine.old call.positional }
    requires held { IsTrue (all_in is_proper machine.old.state) }
    requires room { HasRoom machine.old }
    ensures gives { (locked : List ℕ) → GivesWeighed (spec.call_method locked name.now (value.Text text.now) call.positional call.named (store machine.old meter.old.left)) result (store machine.new meter.new.left) }
    ensures fits { IfOk result (λ v. Fits machine.new v) }
    ensures follows { Follows machine.old machine.new }
{
    let Some(method) = text_method(name) else {
        return Err(Stop::Failure(Failure::NoMethod));
    };
    let arguments = unnamed(call)?;
    text_row(alloc, method, text, arguments, machine, meter)
}

#[tactic(auto, using(crate::proofs::FollowLemmas::follows_equal, crate::proofs::WeighedLemmas::gives_weighed))]
fn text_row(
    alloc: Global,
    method: TextMethod,
    text: &Text,
    arguments: Values,
    machine: &mut Machine,
    meter: &mut Meter,
) -> Result<Value, Stop>
    requires arguments { AllFit machine.old arguments }
    requires held { IsTrue (all_in is_proper machine.old.state) }
    requires room { HasRoom machine.old }
    ensures gives { GivesWeighed (names.text_method method text.now arguments (store machine.old meter.old.left)) result (store machine.new meter.new.left) }
    ensures fits { IfOk result (λ v. Fits machine.new v) }
    ensures follows { Follows machine.old machine.new }
{
    match method {
        TextMethod::Find => stopping(text_methods::find(text, arguments, meter)),
        TextMethod::Split => text_methods::split(alloc, text, arguments, machine, meter),
        TextMethod::Join => text_methods::join(alloc, text, arguments, machine, meter),
        TextMethod::Replace => text_methods::replace(alloc, text, arguments, meter),
        TextMethod::Strip => { text_methods::strip_ends(alloc, true, true, text, arguments, meter) }
        TextMethod::LeftStrip => {
            text_methods::strip_ends(alloc, true, false, text, arguments, meter)
        }
        TextMethod::RightStrip => {
            text_methods::strip_ends(alloc, false, true, text, arguments, meter)
        }
        TextMethod::StartsWith => stopping(text_methods::starts_with(text, arguments, meter)),
        TextMethod::EndsWith => stopping(text_methods::ends_with(text, arguments, meter)),
    }
}

/// What a call answers that takes no memory, where memory may be wanting too.
fn stopping(answer: Result<Value, Failure>) -> Result<Value, Stop>
    ensures gives { (o : Outcome (Store ℕ) AFailure AValue) (t : Store ℕ) → Answers o answer t → Gives o result t }
    ensures fits { (m : MachineState) → IfOk answer (λ v. Fits m v) → IfOk result (λ v. Fits m v) }
{
    match answer {
        Ok(value) => Ok(value),
        Err(failure) => Err(Stop::Failure(failure)),
    }
}
