//! The slots that a call gives to a function's parameters.
ghost use Rattle.std.specs.Prelude.{◌≡◌, ◌∷◌, ◌++◌, [], map, not, reverse, None, IfOk};
ghost use Rattle.std.specs.List.{filter, list_all};
ghost use Rattle.star_builtins.specs.Reached.{AllFit, Fits};
ghost use Rattle.star_meaning.specs.Statements as spec;
ghost use Rattle.star_meaning.specs.Statements.{body_names, parameters_of};
ghost use Rattle.star_meaning.specs.Validity.{MachineState};
ghost use Rattle.star_meaning.specs.Values.{is_empty};
ghost use Rattle.star_meaning.specs.World.{distinct, is_among, unbound};
ghost use Rattle.star_run.specs.Filling.{FillingFits, Fills, FillsOne, FillsSlots, IsGiven, filled_one, seen};

use crate::names::add_body;
use crate::slots::{Layout, Slots, same};
use chex_base::{NoMemory, Text};
use star_builtins::Call;
use star_syntax::Def;
use star_value::{Value, Values};
use std::alloc::Global;
use std::rc::Rc;

/// The slots of a call, and what its defaults weigh, or the greatest number where they weigh more.
#[derive(Drop)]
pub struct Filling {
    pub slots: Slots,
    pub weight: u64,
}

/// A parameter, with the value of its default where it has one.
#[derive(Drop)]
pub struct Parameter<'a> {
    pub name: Rc<Text>,
    pub default: Option<&'a Value>,
}

/// The block of a call of a function, each parameter filled once: by its place, by its name, or by
/// its default. None where the arguments are none of the function.
pub fn fill(
    alloc: Global,
    def: &Def,
    defaults: &[Value],
    call: Call,
) -> Result<Option<Filling>, NoMemory>
    ensures gives { IfOk result (λ filling. Fills (spec.filled (parameters_of def.now defaults.now) call.positional call.named) def.now filling) }
    ensures fits { (m : MachineState) → AllFit m defaults.now → AllFit m call.positional → AllFit m (map (λ entry. entry.1) call.named) → IfOk result (λ filling. FillingFits m filling) }
{
    let Call { positional, named } = call;
    let parameters = parameters(alloc, def, defaults)?;
    if !are_named(named.as_slice(), parameters.as_slice()) {
        return Ok(None);
    }
    let Some(filling) = filled(alloc, parameters.as_slice(), positional, named.as_slice())? else {
        return Ok(None);
    };
    let Filling { slots, weight } = filling;
    let slots = with_body(alloc, def, parameters.as_slice(), slots)?;
    Ok(Some(Filling { slots, weight }))
}

/// The parameters of a function, with the values of the defaults.
fn parameters<'a>(
    alloc: Global,
    def: &Def,
    defaults: &'a [Value],
) -> Result<Vec<Parameter<'a>>, NoMemory>
    ensures { IfOk result (λ parameters. map seen parameters.items ≡ parameters_of def.now defaults.now) }
{
    let mut parameters = Vec::new(alloc);
    for name in def.required.as_slice() {
        let name = Rc::new(alloc, name.copy(alloc)?)?;
        parameters.push(Parameter {
            name,
            default: None,
        })?;
    }
    for (place, value) in defaults.iter().enumerate() {
        let Some(named) = def.defaults.as_slice().get(place) else {
            return Ok(parameters);
        };
        let name = Rc::new(alloc, named.name.copy(alloc)?)?;
        parameters.push(Parameter {
            name,
            default: Some(value),
        })?;
    }
    Ok(parameters)
}

/// Whether each name that is given is a parameter's.
fn are_named(named: &[(Text, Value)], parameters: &[Parameter<'_>]) -> bool
    ensures { result ≡ list_all (λ entry. is_among (map (λ p. p.0) (map seen parameters.now)) entry.0) named.now }
{
    for entry in named {
        if !is_parameter(&entry.0, parameters) {
            return false;
        }
    }
    true
}

fn is_parameter(name: &Text, parameters: &[Parameter<'_>]) -> bool
    ensures { result ≡ is_among (map (λ p. p.0) (map seen parameters.now)) name.now }
{
    for parameter in parameters {
        if *name == *parameter.name {
            return true;
        }
    }
    false
}

/// The slots of the parameters, with the weight of the defaults that are used.
fn filled(
    alloc: Global,
    parameters: &[Parameter<'_>],
    positional: Values,
    named: &[(Text, Value)],
) -> Result<Option<Filling>, NoMemory>
    ensures { IfOk result (λ filling. FillsSlots (spec.filled_from (map seen parameters.now) positional named.now) filling) }
{
    let mut waiting = reversed(alloc, positional)?;
    let mut slots = Slots::new(alloc);
    let mut weight = 0u64;
    for parameter in parameters {
        let given = waiting.pop();
        let Some((value, paid)) = fill_one(alloc, parameter, given, named)? else {
            return Ok(None);
        };
        slots.push(parameter.name.clone()?, Some(value))?;
        weight = weight.saturating_add(paid);
    }
    if waiting.len() != 0 {
        return Ok(None);
    }
    Ok(Some(Filling { slots, weight }))
}

/// The value of one parameter, and the weight of its default where that is used.
fn fill_one(
    alloc: Global,
    parameter: &Parameter<'_>,
    given: Option<Value>,
    named: &[(Text, Value)],
) -> Result<Option<(Value, u64)>, NoMemory>
    ensures { IfOk result (λ filling. FillsOne (filled_one (seen parameter.now) given named.now) filling) }
{
    match given {
        Some(value) => {
            if is_given(&parameter.name, named) {
                return Ok(None);
            }
            Ok(Some((value, 0)))
        }
        None => fill_by_name(alloc, parameter, named),
    }
}

/// The value of a parameter that no place fills, and the weight of its default where that is used.
fn fill_by_name(
    alloc: Global,
    parameter: &Parameter<'_>,
    named: &[(Text, Value)],
) -> Result<Option<(Value, u64)>, NoMemory>
    ensures { IfOk result (λ filling. FillsOne (filled_one (seen parameter.now) None named.now) filling) }
{
    match given_by(&parameter.name, named) {
        Given::Once(value) => Ok(Some((value.copy(alloc)?, 0))),
        Given::Often => Ok(None),
        Given::Never => match parameter.default {
            Some(value) => Ok(Some((value.copy(alloc)?, value.weight()))),
            None => Ok(None),
        },
    }
}

/// How often a value is given by a name.
#[derive(Drop)]
enum Given<'a> {
    Never,
    Once(&'a Value),
    Often,
}

fn given_by<'a>(name: &Text, named: &'a [(Text, Value)]) -> Given<'a>
    ensures { IsGiven (spec.given_by named.now name.now) result }
{
    for (place, entry) in named.iter().enumerate() {
        if same(name, &entry.0) {
            if is_given(name, &named[place + 1..]) {
                return Given::Often;
            }
            return Given::Once(&entry.1);
        }
    }
    Given::Never
}

/// Whether a value is given by a name.
fn is_given(name: &Text, named: &[(Text, Value)]) -> bool
    ensures { result ≡ not (is_empty (spec.given_by named.now name.now)) }
{
    for entry in named {
        if same(name, &entry.0) {
            return true;
        }
    }
    false
}

/// The same values, the last first.
fn reversed(alloc: Global, mut values: Values) -> Result<Vec<Value>, NoMemory>
    ensures { IfOk result (λ vec. reverse vec.items ≡ values) }
{
    let mut vec = Vec::with_capacity(alloc, values.len())?;
    while let Some(value) = values.pop() {
        vec.push(value)?;
    }
    Ok(vec)
}

/// The slots with those of the further names that the body binds.
fn with_body(
    alloc: Global,
    def: &Def,
    parameters: &[Parameter<'_>],
    slots: Slots,
) -> Result<Slots, NoMemory>
    ensures { IfOk result (λ block. block ≡ slots ++ unbound (filter (λ name. not (is_among (map (λ p. p.0) (map seen parameters.now)) name)) (distinct (body_names def.now.body)))) }
{
    let mut names = Layout::new(alloc);
    for parameter in parameters {
        names.push_shared(parameter.name.clone()?)?;
    }
    add_body(alloc, &def.body, &mut names)?;
    let mut slots = slots;
    slots.add_unbound(&names, parameters.len())?;
    Ok(slots)
}
