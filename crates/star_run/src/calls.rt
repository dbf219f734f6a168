//! Calls of functions of the program.
ghost use Rattle.std.specs.Prelude.{◌≡◌, List, IfOk, IsTrue};
ghost use Rattle.std.specs.Option.{option_copied};
ghost use Rattle.star_builtins.specs.Reached.{Fits};
ghost use Rattle.star_meaning.specs.State.{function};
ghost use Rattle.star_meaning.specs.Statements as spec;
ghost use Rattle.star_meaning.specs.Statements.{Filled};
ghost use Rattle.star_meaning.specs.Steps.{Gives};
ghost use Rattle.star_meaning.specs.Validity.{function_at};
ghost use Rattle.star_run.specs.Filling.{IsFilling};
ghost use Rattle.star_run.specs.Fixed.{callee, fixed, setting};
ghost use Rattle.star_run.specs.Nests.{Callable, Nests};
ghost use Rattle.star_run.specs.Running.{Goes, block_fits, world};

use crate::constants::none;
use crate::filling::Filling;
use crate::given::Given;
use crate::halt::Halt;
use crate::level::Level;
use crate::running::Run;
use chex_base::{NodeId, ObjectId};
use star_builtins::Call;
use star_meaning::Flow;
use star_syntax::{Block, Def, Program, Statement};
use star_value::{Failure, Stop, Value};
use std::alloc::Global;

/// Calls a function, while so many more may become active.
pub fn call_to(
    alloc: Global,
    given: &Given<'_>,
    depth: usize,
    run: &mut Run,
    id: ObjectId,
    call: Call,
) -> Result<Value, Stop>
    requires { Callable run.old.machine id call }
    ensures gives { Gives (callee (fixed given.now) depth id call.positional call.named (world run.old)) result (world run.new) }
    ensures goes { Goes run.old run.new }
    ensures fits { IfOk result (λ v. Fits run.new.machine v) }
{
    if depth == 0 {
        return Err(Stop::Failure(Failure::TooManyCalls));
    }
    let here = Given {
        program: given.program,
        node: given.node,
        inputs: given.inputs,
    };
    Level {
        alloc,
        given: here,
        depth: depth - 1,
        call: call_to,
    }
    .run_function(run, id, call)
}

/// The function of a node's cell, by number.
#[tactic(auto, unfolding(star_meaning::specs::Validity::function_at))]
fn function_of(program: &Program, node: NodeId, number: u32) -> Option<&Def>
    ensures { option_copied result ≡ function_at program.now node number }
{
    let cell = program.cell(node)?;
    cell.function(number)
}

impl<'p, F: Fn(Global, &Given<'_>, usize, &mut Run, ObjectId, Call) -> Result<Value, Stop>> Level<
    'p,
    F,
> {
    /// Runs a function of the program.
    pub fn run_function(&self, run: &mut Run, id: ObjectId, call: Call) -> Result<Value, Stop>
        requires nests { Nests self.now.depth (F.pre self.now.call) (F.post self.now.call) }
        requires callable { Callable run.old.machine id call }
        ensures gives { Gives (spec.run_function (setting (fixed self.now.given)) (callee (fixed self.now.given) self.now.depth) id (function run.old.machine.state id) call.positional call.named (world run.old)) result (world run.new) }
        ensures goes { Goes run.old run.new }
        ensures fits { IfOk result (λ v. Fits run.new.machine v) }
    {
        let (cell, number, _) = run.machine().function(id);
        let Some(def) = function_of(self.given.program, cell, number) else {
            return Err(Stop::Failure(Failure::WrongType));
        };
        let Some(filling) = run.filling(def, id, call)? else {
            return Err(Stop::Failure(Failure::WrongArguments));
        };
        self.run_body(run, def, id, filling)
    }

    /// Charges the defaults that are used, and runs the body in a block of its own.
    fn run_body(
        &self,
        run: &mut Run,
        def: &Def,
        id: ObjectId,
        filling: Filling,
    ) -> Result<Value, Stop>
        requires nests { Nests self.now.depth (F.pre self.now.call) (F.post self.now.call) }
        requires fits { IsTrue (block_fits run.old.machine filling.slots) }
        ensures gives { (all : List Filled) → IsFilling def.now all filling → Gives (spec.run_body (setting (fixed self.now.given)) (callee (fixed self.now.given) self.now.depth) def.now id all (world run.old)) result (world run.new) }
        ensures goes { Goes run.old run.new }
        ensures fits { IfOk result (λ v. Fits run.new.machine v) }
    {
        let Filling { slots, weight } = filling;
        run.charge_sum(weight)?;
        let blocks = run.enter_function(id, slots)?;
        let value = self.body_value(run, &def.body)?;
        run.leave_function(blocks);
        Ok(value)
    }

    /// What the body of a function gives.
    fn body_value(&self, run: &mut Run, body: &Block<Statement>) -> Result<Value, Stop>
        requires { Nests self.now.depth (F.pre self.now.call) (F.post self.now.call) }
        ensures gives { Gives (spec.result_of (spec.body_of (setting (fixed self.now.given)) (callee (fixed self.now.given) self.now.depth) body.now) (world run.old)) result (world run.new) }
        ensures goes { Goes run.old run.new }
        ensures fits { IfOk result (λ v. Fits run.new.machine v) }
    {
        match self.block(run, body) {
            Ok(Flow::On) => Ok(none()),
            Ok(Flow::Break) => Ok(none()),
            Ok(Flow::Continue) => Ok(none()),
            Ok(Flow::Return(value)) => Ok(value),
            Err(Halt::Failed(failure, _)) => Err(Stop::Failure(failure)),
            Err(Halt::NoMemory) => Err(Stop::NoMemory),
        }
    }
}
