//! Values of a row: `None`, `len`, `int 7`, `text ab`, `range 0 9 2`, `two 4 9` for the tuple of two
//! integers, and `list 0`, `dict 0` and `function 0` for the object of a number.
ghost use Rattle.std.specs.Prelude.{ℕ, List, IfOk, IsTrue};
ghost use Rattle.star_meaning.specs.State.{Object};
ghost use Rattle.star_meaning.specs.Validity.{fits};

use crate::fault::Fault;
use crate::kinds::{check_dict, check_function, check_list};
use crate::words::{cut, integer, number_and, two_integers};
use chex_base::{ObjectId, Text};
use heap_store::Machine;
use sqlite_items::Items;
use star_value::{Builtin, Range, Value};
use std::alloc::Global;

/// A value that may stand in the machine.
#[tactic(auto, using(crate::proofs::Fitting::references))]
pub fn value(alloc: Global, text: &str, machine: &Machine) -> Result<Value, Fault>
    ensures { IfOk result (λ v. IsTrue (fits machine.now.state.objects v)) }
{
    let (word, rest) = cut(text);
    match word {
        "list" => {
            let (id, _) = number_and(rest)?;
            let id = ObjectId(id);
            check_list(machine, id)?;
            Ok(Value::List(id))
        }
        "dict" => {
            let (id, _) = number_and(rest)?;
            let id = ObjectId(id);
            check_dict(machine, id)?;
            Ok(Value::Dict(id))
        }
        "function" => {
            let (id, _) = number_and(rest)?;
            let id = ObjectId(id);
            check_function(machine, id)?;
            Ok(Value::Function(id))
        }
        _ => plain(alloc, word, rest),
    }
}

/// A value that refers to no object.
#[tactic(auto, using(crate::proofs::Fitting::plain))]
fn plain(alloc: Global, word: &str, rest: &str) -> Result<Value, Fault>
    ensures { (os : List (Object ℕ)) → IfOk result (λ v. IsTrue (fits os v)) }
{
    match word {
        "None" => Ok(Value::None),
        "len" => Ok(Value::Builtin(Builtin::Len)),
        "int" => Ok(Value::Int(integer(rest)?)),
        "text" => Ok(Value::Text(text_of(alloc, rest)?)),
        "range" => Ok(Value::Range(range(rest)?)),
        "two" => two(alloc, rest),
        _ => Err(Fault::Unread),
    }
}

/// The text, with a newline for each `\n`.
fn text_of(alloc: Global, written: &str) -> Result<Text, Fault> {
    let mut text = String::new(alloc);
    for (place, line) in written.split("\\n").enumerate() {
        if place > 0 {
            text.push('\n')?;
        }
        text.push_str(line)?;
    }
    Ok(Text::from_str(alloc, text.as_str())?)
}

fn range(text: &str) -> Result<Range, Fault> {
    let (start, rest) = cut(text);
    let start = integer(start)?;
    let (stop, step) = two_integers(rest)?;
    Ok(Range { start, stop, step })
}

#[tactic(auto, using(crate::proofs::Fitting::fits_two))]
fn two(alloc: Global, text: &str) -> Result<Value, Fault>
    ensures { (os : List (Object ℕ)) → IfOk result (λ v. IsTrue (fits os v)) }
{
    let (first, second) = two_integers(text)?;
    let mut items = Items::new(alloc);
    items.push(Value::Int(first))?;
    items.push(Value::Int(second))?;
    Ok(Value::Tuple(items))
}
