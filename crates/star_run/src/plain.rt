//! Expressions without calls of others.
ghost use Rattle.std.specs.Prelude.{◌≡◌, IfOk};
ghost use Rattle.star_builtins.specs.Reached.{Fits};
ghost use Rattle.star_meaning.specs.Expressions.{turned as turned_by};
ghost use Rattle.star_meaning.specs.Steps.{Gives, pure};
ghost use Rattle.star_meaning.specs.World.{operation};
ghost use Rattle.star_value.specs.declared.value.Value.TheVariants as value;
ghost use Rattle.star_run.specs.Parts as spec;
ghost use Rattle.star_run.specs.Running.{Goes, world};

use crate::constants;
use crate::running::Run;
use chex_base::Text;
use star_value::{Stop, Value};
use std::alloc::Global;

/// A text literal, as an operation.
#[tactic(auto, using(crate::proofs::WaitLemmas::constants))]
pub fn text_value(alloc: Global, run: &mut Run, text: &Text) -> Result<Value, Stop>
    ensures gives { Gives (operation (pure (value.Text text.now)) (world run.old)) result (world run.new) }
    ensures goes { Goes run.old run.new }
    ensures fits { IfOk result (λ v. Fits run.new.machine v) }
{
    let copy = text.copy(alloc)?;
    let value = constants::text_value(copy);
    run.constant(value)
}

/// The truth of a value, turned by each `not`, of which each takes a step.
#[tactic(auto, using(crate::proofs::WaitLemmas::constants))]
pub fn negation(run: &mut Run, count: usize, value: &Value) -> Result<Value, Stop>
    requires { Fits run.old.machine value.now }
    ensures gives { Gives (spec.negation count value.now (world run.old)) result (world run.new) }
    ensures goes { Goes run.old run.new }
    ensures fits { IfOk result (λ v. Fits run.new.machine v) }
{
    run.charge(count as u64)?;
    let truth = turned(run.is_true(value), count);
    Ok(Value::Bool(truth))
}

/// A truth, turned so many times. It takes time linear in the number, which is paid.
fn turned(truth: bool, count: usize) -> bool
    ensures { result ≡ turned_by count truth }
{
    let mut turned = truth;
    for _place in 0..count {
        turned = !turned;
    }
    turned
}
