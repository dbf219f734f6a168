//! What arguments a call is given: how many there are, and of which type one is.
ghost use Rattle.std.specs.Prelude.{◌≡◌, ℕ, List, Option, None, Some, IfOk, IfSome, MatchResult};
ghost use Rattle.std.specs.Str.{chars};
ghost use Rattle.star_builtins.specs.Calling.{AnswersOr, chosen};
ghost use Rattle.star_builtins.specs.Reached.{AllFit, Fits};
ghost use Rattle.star_meaning.specs.Builtins as spec;
ghost use Rattle.star_meaning.specs.Methods as methods;
ghost use Rattle.star_meaning.specs.Steps.{Action};
ghost use Rattle.star_meaning.specs.Validity.{MachineState};
ghost use Rattle.star_meaning.specs.Values as values;
ghost use Rattle.star_value.specs.declared.failure.Failure.TheVariants as failure;
ghost use Rattle.star_value.specs.declared.value.Value.{Value};

use crate::call::{Call, NamedValues};
use crate::parts::{int_of, text_of};
use chex_base::Text;
use star_value::{Failure, Value, Values};

/// The arguments by place of a call that is given none by name.
#[tactic(auto, using(crate::proofs::CallLemmas::unnamed))]
pub fn unnamed(call: Call) -> Result<Values, Failure>
    ensures value { (p : List Value → Action ℕ Value) → spec.unnamed call.named (p call.positional) ≡ chosen result p }
    ensures fits { (m : MachineState) → AllFit m call.positional → IfOk result (λ vs. AllFit m vs) }
{
    if call.named.is_empty() {
        Ok(call.positional)
    } else {
        Err(Failure::WrongArguments)
    }
}

/// No argument.
#[tactic(auto, using(crate::proofs::CallLemmas::arguments))]
pub fn none(values: &Values) -> Result<(), Failure>
    ensures { (p : Action ℕ Value) → methods.with_none p values.now ≡ chosen result (λ done. p) }
{
    if values.is_empty() {
        Ok(())
    } else {
        Err(Failure::WrongArguments)
    }
}

/// The only argument.
#[tactic(auto, using(crate::proofs::CallLemmas::arguments))]
pub fn one(mut values: Values) -> Result<Value, Failure>
    ensures value { (f : Value → Action ℕ Value) → spec.with_one f values ≡ chosen result f }
    ensures fits { (m : MachineState) → AllFit m values → IfOk result (λ v. Fits m v) }
{
    if values.len() != 1 {
        return Err(Failure::WrongArguments);
    }
    match values.pop() {
        Some(value) => Ok(value),
        None => Err(Failure::WrongArguments),
    }
}

/// The only argument, or none.
#[tactic(auto, using(crate::proofs::CallLemmas::arguments))]
pub fn optional(mut values: Values) -> Result<Option<Value>, Failure>
    ensures value { (f : Option Value → Action ℕ Value) → spec.with_optional f values ≡ chosen result f }
    ensures fits { (m : MachineState) → AllFit m values → IfOk result (λ found. IfSome found (λ v. Fits m v)) }
{
    if values.len() > 1 {
        return Err(Failure::WrongArguments);
    }
    Ok(values.pop())
}

/// An argument, and a second one where it is given.
#[tactic(auto, using(crate::proofs::CallLemmas::arguments))]
pub fn one_or_two(values: Values) -> Result<(Value, Option<Value>), Failure>
    ensures value { (f : Value → Option Value → Action ℕ Value) → spec.with_one_or_two f values ≡ chosen result (λ both. f both.0 both.1) }
    ensures first { (m : MachineState) → AllFit m values → IfOk result (λ both. Fits m both.0) }
    ensures second { (m : MachineState) → AllFit m values → IfOk result (λ both. IfSome both.1 (λ v. Fits m v)) }
{
    if values.len() != 2 {
        let first = one(values)?;
        return Ok((first, None));
    }
    let (first, second) = two(values)?;
    Ok((first, Some(second)))
}

/// Two arguments.
#[tactic(auto, using(crate::proofs::CallLemmas::arguments))]
pub fn two(mut values: Values) -> Result<(Value, Value), Failure>
    ensures value { (f : Value → Value → Action ℕ Value) → methods.with_two f values ≡ chosen result (λ both. f both.0 both.1) }
    ensures first { (m : MachineState) → AllFit m values → IfOk result (λ both. Fits m both.0) }
    ensures second { (m : MachineState) → AllFit m values → IfOk result (λ both. Fits m both.1) }
{
    if values.len() != 2 {
        return Err(Failure::WrongArguments);
    }
    match values.pop() {
        Some(second) => {
            let first = one(values)?;
            Ok((first, second))
        }
        None => Err(Failure::WrongArguments),
    }
}

/// The argument of this name, if it is given. Another name, or more than one argument by name, is
/// WrongArguments.
#[tactic(auto, using(crate::proofs::CallLemmas::named))]
pub fn only_named(name: &Text, mut named: NamedValues) -> Result<Option<Value>, Failure>
    ensures { AnswersOr failure.WrongArguments (spec.only_named name.now named) result }
{
    let Some((given, value)) = named.pop() else {
        return Ok(None);
    };
    if named.is_empty() && given == *name {
        return Ok(Some(value));
    }
    Err(Failure::WrongArguments)
}

/// The integer that an argument is; a bool is none.
pub fn as_int(value: &Value) -> Result<i128, Failure>
    ensures { AnswersOr failure.WrongType (values.int_in value.now) result }
{
    match int_of(value) {
        Some(number) => Ok(number),
        None => Err(Failure::WrongType),
    }
}

/// The text that an argument is.
pub fn as_text(value: &Value) -> Result<&Text, Failure>
    ensures { MatchResult result (λ text. values.text_in value.now ≡ Some text.now) (λ e. (values.text_in value.now ≡ None) × (e ≡ failure.WrongType)) }
{
    match text_of(value) {
        Some(text) => Ok(text),
        None => Err(Failure::WrongType),
    }
}

/// The text that an argument is, taken out of it.
#[tactic(auto, using(crate::proofs::Outs::outs))]
pub fn into_text(value: Value) -> Result<Text, Failure>
    ensures { AnswersOr failure.WrongType (values.text_in value) result }
{
    match value {
        Value::Text(text) => Ok(text),
        _ => Err(Failure::WrongType),
    }
}
