//! Code of the program, at a depth of calls.
ghost use Rattle.std.specs.Prelude.{map, IfOk};
ghost use Rattle.star_builtins.specs.Reached.{AllFit, Fits};
ghost use Rattle.star_meaning.specs.Expressions as spec;
ghost use Rattle.star_meaning.specs.Steps.{Gives};
ghost use Rattle.star_run.specs.Fixed.{callee, fixed, setting};
ghost use Rattle.star_run.specs.Nests.{Callable, Nests};
ghost use Rattle.star_run.specs.Running.{Goes, HasCredit, Makes, world};
ghost use Rattle.star_value.specs.declared.value.Value.{out-Value};

use crate::given::Given;
use crate::running::Run;
use chex_base::ObjectId;
use star_builtins::Call;
use star_value::{Failure, Stop, Value};
use std::alloc::Global;

/// Runs code of the program, with a function that makes its calls.
#[derive(Clone, Copy)]
pub struct Level<'p, F> {
    pub alloc: Global,
    pub given: Given<'p>,
    /// How many more functions may become active.
    pub depth: usize,
    pub call: F,
}

impl<'p, F: Fn(Global, &Given<'_>, usize, &mut Run, ObjectId, Call) -> Result<Value, Stop>> Level<
    'p,
    F,
> {
    /// A call of a value, as an operation.
    #[tactic(auto, unfolding(star_meaning::specs::Expressions::called, star_meaning::specs::World::operation))]
    pub fn called(&self, run: &mut Run, function: &Value, call: Call) -> Result<Value, Stop>
        requires nests { Nests self.now.depth (F.pre self.now.call) (F.post self.now.call) }
        requires function { Fits run.old.machine function.now }
        requires positional { AllFit run.old.machine call.positional }
        requires named { AllFit run.old.machine (map (λ entry. entry.1) call.named) }
        ensures gives { Gives (spec.called (setting (fixed self.now.given)) (callee (fixed self.now.given) self.now.depth) function.now call.positional call.named (world run.old)) result (world run.new) }
        ensures goes { Goes run.old run.new }
        ensures fits { IfOk result (λ v. Fits run.new.machine v) }
    {
        run.charge(1)?;
        let value = self.called_at(run, function, call)?;
        run.charge_rest(&value)?;
        Ok(value)
    }

    /// What a call of a value does, of which 1 is paid already.
    fn called_at(&self, run: &mut Run, function: &Value, call: Call) -> Result<Value, Stop>
        requires nests { Nests self.now.depth (F.pre self.now.call) (F.post self.now.call) }
        requires function { Fits run.old.machine function.now }
        requires positional { AllFit run.old.machine call.positional }
        requires named { AllFit run.old.machine (map (λ entry. entry.1) call.named) }
        requires credit { HasCredit run.old }
        ensures gives { Gives (spec.called_at (setting (fixed self.now.given)) (callee (fixed self.now.given) self.now.depth) (out-Value function.now) call.positional call.named (world run.old)) result (world run.new) }
        ensures made { Makes run.old run.new }
        ensures fits { IfOk result (λ v. Fits run.new.machine v) }
    {
        match function {
            Value::Function(id) => self.call_function(run, *id, call),
            Value::Builtin(which) => run.called_builtin(self.given.program, *which, call),
            _ => Err(Stop::Failure(Failure::WrongType)),
        }
    }

    /// A call of a function of the program, which may not be active already.
    fn call_function(&self, run: &mut Run, id: ObjectId, call: Call) -> Result<Value, Stop>
        requires nests { Nests self.now.depth (F.pre self.now.call) (F.post self.now.call) }
        requires callable { Callable run.old.machine id call }
        ensures gives { Gives (spec.call_function (callee (fixed self.now.given) self.now.depth) id call.positional call.named (world run.old)) result (world run.new) }
        ensures goes { Goes run.old run.new }
        ensures fits { IfOk result (λ v. Fits run.new.machine v) }
    {
        if run.is_active(id) {
            return Err(Stop::Failure(Failure::Recursion));
        }
        self.call(run, id, call)
    }

    /// A call of a function of the program that is not active, by the function value.
    fn call(&self, run: &mut Run, id: ObjectId, call: Call) -> Result<Value, Stop>
        requires nests { Nests self.now.depth (F.pre self.now.call) (F.post self.now.call) }
        requires callable { Callable run.old.machine id call }
        ensures gives { Gives (callee (fixed self.now.given) self.now.depth id call.positional call.named (world run.old)) result (world run.new) }
        ensures goes { Goes run.old run.new }
        ensures fits { IfOk result (λ v. Fits run.new.machine v) }
    {
        (self.call)(self.alloc, &self.given, self.depth, run, id, call)
    }
}
