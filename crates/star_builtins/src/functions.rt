//! The built-in functions: each file has the functions of one kind.
ghost use Rattle.std.specs.Prelude.{map, IfOk, IfSome, IsTrue};
ghost use Rattle.star_builtins.specs.Calling.{GivesWritten};
ghost use Rattle.star_builtins.specs.Reached.{AllFit, Fits, Follows, HasRoom, names, store};
ghost use Rattle.star_builtins.specs.Shows.{Begins};
ghost use Rattle.star_builtins.specs.Table as tables;
ghost use Rattle.star_meaning.specs.Builtins as spec;
ghost use Rattle.star_meaning.specs.Steps.{Gives};
ghost use Rattle.star_meaning.specs.Validity.{all_in, is_proper};

mod conversions;
mod numerals;
mod orders;
mod pairing;
mod printing;
mod quantifiers;
mod ranges;
mod rows;
mod sequences;
mod sorting;
mod table;

use crate::Call;
use crate::arguments::{one, one_or_two, optional, unnamed};
use chex_base::Text;
use conversions::{absolute, int, len, truth, type_name};
use heap_store::Machine;
use pairing::dict_of;
use printing::{form, print};
use quantifiers::{all, any};
use ranges::range;
use rows::{enumerate, zip};
use sequences::{list_of, reversed, tuple_of};
use sorting::{extreme, sorted};
use star_syntax::Program;
use star_value::{Builtin, Meter, Stop, Value, Values};
use std::alloc::Global;
use table::{OfMany, OfOne, OfOptional, Row, Silent, row_of};

/// A call of a built-in function, which `docs/LANGUAGE.md` lists with their charges. What is
/// written goes to the end of `out`. A call that fails changes no object and writes nothing, and at
/// most one object is made.
#[tactic(auto, using(crate::proofs::FollowLemmas::follows_same, crate::proofs::Written::begins_same))]
pub fn call_builtin(
    alloc: Global,
    which: Builtin,
    call: Call,
    program: &Program,
    machine: &mut Machine,
    meter: &mut Meter,
    out: &mut Text,
) -> Result<Value, Stop>
    requires positional { AllFit machine.old call.positional }
    requires named { AllFit machine.old (map (λ entry. entry.1) call.named) }
    requires held { IsTrue (all_in is_proper machine.old.state) }
    requires room { HasRoom machine.old }
    ensures gives { GivesWritten out.old (spec.call_builtin (names program.now) which call.positional call.named (store machine.old meter.old.left)) result (store machine.new meter.new.left) out.new }
    ensures fits { IfOk result (λ v. Fits machine.new v) }
    ensures follows { Follows machine.old machine.new }
    ensures begins { Begins out.old out.new }
{
    match row_of(which) {
        Row::Print => print(alloc, call, program, machine, meter, out),
        Row::Silent(row) => silent(alloc, row, call, program, machine, meter),
    }
}

/// A call of a function that writes nothing.
#[tactic(auto, unfolding(crate::specs::Table::silent_row))]
fn silent(
    alloc: Global,
    row: Silent,
    call: Call,
    program: &Program,
    machine: &mut Machine,
    meter: &mut Meter,
) -> Result<Value, Stop>
    requires positional { AllFit machine.old call.positional }
    requires held { IsTrue (all_in is_proper machine.old.state) }
    requires room { HasRoom machine.old }
    ensures gives { Gives (tables.silent_row (names program.now) row call.positional call.named (store machine.old meter.old.left)) result (store machine.new meter.new.left) }
    ensures fits { IfOk result (λ v. Fits machine.new v) }
    ensures follows { Follows machine.old machine.new }
{
    match row {
        Silent::Sorted => sorted(alloc, call, machine, meter),
        Silent::OfOne(row) => of_one(alloc, row, call, program, machine, meter),
        Silent::OfOptional(row) => of_optional(alloc, row, call, machine, meter),
        Silent::OfMany(row) => of_many(alloc, row, call, machine, meter),
    }
}

/// A call of a function of one argument.
#[tactic(auto, using(crate::proofs::FollowLemmas::follows_same))]
fn of_one(
    alloc: Global,
    row: OfOne,
    call: Call,
    program: &Program,
    machine: &mut Machine,
    meter: &mut Meter,
) -> Result<Value, Stop>
    requires positional { AllFit machine.old call.positional }
    requires held { IsTrue (all_in is_proper machine.old.state) }
    requires room { HasRoom machine.old }
    ensures gives { Gives (spec.unnamed call.named (spec.with_one (tables.one_row (names program.now) row) call.positional) (store machine.old meter.old.left)) result (store machine.new meter.new.left) }
    ensures fits { IfOk result (λ v. Fits machine.new v) }
    ensures follows { Follows machine.old machine.new }
{
    let values = unnamed(call)?;
    let value = one(values)?;
    at_one(alloc, row, &value, program, machine, meter)
}

/// A call of a function of one argument or none.
#[tactic(auto, using(crate::proofs::FollowLemmas::follows_same))]
fn of_optional(
    alloc: Global,
    row: OfOptional,
    call: Call,
    machine: &mut Machine,
    meter: &mut Meter,
) -> Result<Value, Stop>
    requires positional { AllFit machine.old call.positional }
    requires held { IsTrue (all_in is_proper machine.old.state) }
    requires room { HasRoom machine.old }
    ensures gives { Gives (spec.unnamed call.named (spec.with_optional (tables.optional_row row) call.positional) (store machine.old meter.old.left)) result (store machine.new meter.new.left) }
    ensures fits { IfOk result (λ v. Fits machine.new v) }
    ensures follows { Follows machine.old machine.new }
{
    let values = unnamed(call)?;
    let given = optional(values)?;
    at_optional(alloc, row, given, machine, meter)
}

/// A call of a function of several arguments.
#[tactic(auto, using(crate::proofs::FollowLemmas::follows_same))]
fn of_many(
    alloc: Global,
    row: OfMany,
    call: Call,
    machine: &mut Machine,
    meter: &mut Meter,
) -> Result<Value, Stop>
    requires positional { AllFit machine.old call.positional }
    requires held { IsTrue (all_in is_proper machine.old.state) }
    requires room { HasRoom machine.old }
    ensures gives { Gives (spec.unnamed call.named (tables.many_row row call.positional) (store machine.old meter.old.left)) result (store machine.new meter.new.left) }
    ensures fits { IfOk result (λ v. Fits machine.new v) }
    ensures follows { Follows machine.old machine.new }
{
    let values = unnamed(call)?;
    at_many(alloc, row, values, machine, meter)
}

/// A function at its argument.
#[tactic(auto, unfolding(crate::specs::Table::one_row), using(crate::proofs::FollowLemmas::follows_same))]
fn at_one(
    alloc: Global,
    row: OfOne,
    value: &Value,
    program: &Program,
    machine: &mut Machine,
    meter: &mut Meter,
) -> Result<Value, Stop>
    requires value { Fits machine.old value.now }
    requires held { IsTrue (all_in is_proper machine.old.state) }
    requires room { HasRoom machine.old }
    ensures gives { Gives (tables.one_row (names program.now) row value.now (store machine.old meter.old.left)) result (store machine.new meter.new.left) }
    ensures fits { IfOk result (λ v. Fits machine.new v) }
    ensures follows { Follows machine.old machine.new }
{
    match row {
        OfOne::Abs => absolute(value),
        OfOne::All => Ok(all(value, machine, meter)?),
        OfOne::Any => Ok(any(value, machine, meter)?),
        OfOne::Bool => Ok(truth(value, machine)),
        OfOne::Int => int(value, meter),
        OfOne::Len => len(value, machine),
        OfOne::Repr => form(alloc, value, true, program, machine, meter),
        OfOne::Reversed => reversed(alloc, value, machine, meter),
        OfOne::Str => form(alloc, value, false, program, machine, meter),
        OfOne::Type => Ok(type_name(alloc, value)?),
    }
}

/// A function at its argument, if there is one.
#[tactic(auto, unfolding(crate::specs::Table::optional_row), using(crate::proofs::FollowLemmas::follows_same))]
fn at_optional(
    alloc: Global,
    row: OfOptional,
    given: Option<Value>,
    machine: &mut Machine,
    meter: &mut Meter,
) -> Result<Value, Stop>
    requires given { IfSome given (λ v. Fits machine.old v) }
    requires held { IsTrue (all_in is_proper machine.old.state) }
    requires room { HasRoom machine.old }
    ensures gives { Gives (tables.optional_row row given (store machine.old meter.old.left)) result (store machine.new meter.new.left) }
    ensures fits { IfOk result (λ v. Fits machine.new v) }
    ensures follows { Follows machine.old machine.new }
{
    match row {
        OfOptional::Dict => dict_of(alloc, given, machine, meter),
        OfOptional::List => list_of(alloc, given, machine, meter),
        OfOptional::Tuple => tuple_of(alloc, given, machine, meter),
    }
}

/// A function at its arguments.
#[tactic(auto, unfolding(crate::specs::Table::many_row), using(crate::proofs::FollowLemmas::follows_same))]
fn at_many(
    alloc: Global,
    row: OfMany,
    values: Values,
    machine: &mut Machine,
    meter: &mut Meter,
) -> Result<Value, Stop>
    requires values { AllFit machine.old values }
    requires held { IsTrue (all_in is_proper machine.old.state) }
    requires room { HasRoom machine.old }
    ensures gives { Gives (tables.many_row row values (store machine.old meter.old.left)) result (store machine.new meter.new.left) }
    ensures fits { IfOk result (λ v. Fits machine.new v) }
    ensures follows { Follows machine.old machine.new }
{
    match row {
        OfMany::Enumerate => numbered(alloc, values, machine, meter),
        OfMany::Max => extreme(alloc, true, values, machine, meter),
        OfMany::Min => extreme(alloc, false, values, machine, meter),
        OfMany::Range => Ok(range(&values)?),
        OfMany::Zip => zip(alloc, values.as_slice(), machine, meter),
    }
}

/// `enumerate` at its arguments.
#[tactic(auto, using(crate::proofs::FollowLemmas::follows_same))]
fn numbered(
    alloc: Global,
    values: Values,
    machine: &mut Machine,
    meter: &mut Meter,
) -> Result<Value, Stop>
    requires values { AllFit machine.old values }
    requires held { IsTrue (all_in is_proper machine.old.state) }
    requires room { HasRoom machine.old }
    ensures gives { Gives (spec.with_one_or_two spec.enumerate values (store machine.old meter.old.left)) result (store machine.new meter.new.left) }
    ensures fits { IfOk result (λ v. Fits machine.new v) }
    ensures follows { Follows machine.old machine.new }
{
    let (of, start) = one_or_two(values)?;
    enumerate(alloc, &of, start, machine, meter)
}
