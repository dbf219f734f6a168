//! What names stand for.
ghost use Rattle.std.specs.Prelude.{◌≡◌};
ghost use Rattle.star_meaning.specs.Validity.{IsMachine};
ghost use Rattle.star_meaning.specs.Values as values;
ghost use Rattle.star_meaning.specs.World.{slot_of, value_in};
ghost use Rattle.star_run.specs.Names as names;
ghost use Rattle.star_run.specs.Finds.{Finds};

use crate::blocks::Blocks;
use chex_base::Text;
use heap_store::Machine;
use star_value::{Builtin, Value};

/// What a name stands for.
pub enum Found<'a> {
    /// A value that is held in a block or among the globals.
    Held(&'a Value),
    Builtin(Builtin),
    /// Nothing: the name is not bound.
    Nowhere,
}

/// What a name stands for: the innermost block that has it says so; every other name is global, or
/// else that of a built-in function.
pub fn look_for<'a>(blocks: &'a Blocks, machine: &'a Machine, name: &Text) -> Found<'a>
    ensures value { Finds (value_in machine.now.state name.now (slot_of blocks.now name.now)) result }
    ensures kept { IsMachine machine.now }
{
    let _nodes = machine.ran();
    match blocks.slot(name) {
        Some(bound) => match bound {
            Some(value) => Found::Held(value),
            None => Found::Nowhere,
        },
        None => match machine.global(name) {
            Some(value) => Found::Held(value),
            None => match builtin_of(name) {
                Some(which) => Found::Builtin(which),
                None => Found::Nowhere,
            },
        },
    }
}

/// The built-in function of a name.
#[tactic(auto, using(crate::proofs::NameLemmas::builtin_by), unfolding(star_meaning::specs::Values::builtin_of))]
fn builtin_of(name: &Text) -> Option<Builtin>
    ensures { result ≡ values.builtin_of name.now }
{
    builtin_named(name.as_str())
}

fn builtin_named(name: &str) -> Option<Builtin>
    ensures { result ≡ names.builtin_named name.now }
{
    if name == "abs" {
        Some(Builtin::Abs)
    } else if name == "all" {
        Some(Builtin::All)
    } else if name == "any" {
        Some(Builtin::Any)
    } else if name == "bool" {
        Some(Builtin::Bool)
    } else if name == "dict" {
        Some(Builtin::Dict)
    } else if name == "enumerate" {
        Some(Builtin::Enumerate)
    } else if name == "int" {
        Some(Builtin::Int)
    } else if name == "len" {
        Some(Builtin::Len)
    } else if name == "list" {
        Some(Builtin::List)
    } else if name == "max" {
        Some(Builtin::Max)
    } else if name == "min" {
        Some(Builtin::Min)
    } else if name == "print" {
        Some(Builtin::Print)
    } else if name == "range" {
        Some(Builtin::Range)
    } else if name == "repr" {
        Some(Builtin::Repr)
    } else if name == "reversed" {
        Some(Builtin::Reversed)
    } else if name == "sorted" {
        Some(Builtin::Sorted)
    } else if name == "str" {
        Some(Builtin::Str)
    } else if name == "tuple" {
        Some(Builtin::Tuple)
    } else if name == "type" {
        Some(Builtin::Type)
    } else if name == "zip" {
        Some(Builtin::Zip)
    } else {
        None
    }
}
