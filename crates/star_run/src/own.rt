//! The statements that stand directly in a cell.
ghost use Rattle.std.specs.Prelude.{◌≡◌, ◌≤◌, Some, length, map, IfOk};
ghost use Rattle.star_builtins.specs.Reached.{AllFit};
ghost use Rattle.star_meaning.specs.Cells.{is_def, statements_from};
ghost use Rattle.star_meaning.specs.Expressions.{values};
ghost use Rattle.star_meaning.specs.Statements as spec;
ghost use Rattle.star_meaning.specs.Steps.{Gives, and_then, pure};
ghost use Rattle.star_meaning.specs.Validity.{function_at};
ghost use Rattle.star_meaning.specs.World.{located};
ghost use Rattle.star_meaning.specs.declared.flow.Flow.TheVariants as flow;
ghost use Rattle.star_run.specs.Fixed.{callee, fixed, meaning, setting};
ghost use Rattle.star_run.specs.Halts.{Halts};
ghost use Rattle.star_run.specs.Nests.{Nests};
ghost use Rattle.star_run.specs.Own as own;
ghost use Rattle.star_run.specs.Own.{Defines, Entered, NumbersFrom, OwnGoes};
ghost use Rattle.star_run.specs.Running.{Goes, world};

use crate::given::Given;
use crate::halt::{Halt, at_line};
use crate::level::Level;
use crate::running::Run;
use chex_base::{NoMemory, ObjectId};
use sqlite_items::Items;
use star_builtins::Call;
use star_meaning::Flow;
use star_syntax::{Def, Expr, Named, Statement};
use star_value::{Stop, Value, Values};
use std::alloc::Global;

impl<'p, F: Fn(Global, &Given<'_>, usize, &mut Run, ObjectId, Call) -> Result<Value, Stop>> Level<
    'p,
    F,
> {
    /// The statements of the cell that runs, one after another, up to the first that does not end
    /// with "on".
    pub fn own_statements(&self, run: &mut Run, all: &[Statement]) -> Result<Flow, Halt>
        requires nests { Nests self.now.depth (F.pre self.now.call) (F.post self.now.call) }
        requires entered { Entered self.now.given.node run.old.machine.ran }
        requires numbers { NumbersFrom self.now.given.program.now self.now.given.node 0 all.now }
        ensures gives { Halts (statements_from (setting (fixed self.now.given)) (callee (fixed self.now.given) self.now.depth) 0 all.now (world run.old)) result (world run.new) }
        ensures goes { OwnGoes self.now.given.program.now run.old run.new }
    {
        let mut number = 0;
        for (place, statement) in all.iter().enumerate() {
            let last = place + 1 == all.len();
            match self.own_statement(run, statement, last, number)? {
                Flow::On => number += definitions_in(statement),
                Flow::Break => return Ok(Flow::Break),
                Flow::Continue => return Ok(Flow::Continue),
                Flow::Return(value) => return Ok(Flow::Return(value)),
            }
        }
        Ok(Flow::On)
    }

    /// One of them; so many functions were defined before it.
    #[tactic(auto, using(crate::proofs::OwnLemmas::own_goes))]
    fn own_statement(
        &self,
        run: &mut Run,
        statement: &Statement,
        last: bool,
        number: usize,
    ) -> Result<Flow, Halt>
        requires nests { Nests self.now.depth (F.pre self.now.call) (F.post self.now.call) }
        requires entered { Entered self.now.given.node run.old.machine.ran }
        requires defines { Defines self.now.given.program.now self.now.given.node number statement.now }
        ensures gives { Halts (spec.statement_of (setting (fixed self.now.given)) (callee (fixed self.now.given) self.now.depth) statement.now last (Some number) (world run.old)) result (world run.new) }
        ensures goes { OwnGoes self.now.given.program.now run.old run.new }
    {
        match statement {
            Statement::Line(line) => self.line(run, last, line),
            Statement::If(_, _, _, _) => self.exec(run, last, statement),
            Statement::For(_, _, _, _) => self.exec(run, last, statement),
            Statement::Def(at, def) => self.definition(run, *at, def, number),
        }
    }

    /// A `def`, with its line at a failure.
    #[tactic(auto, unfolding(star_meaning::specs::World::located))]
    fn definition(&self, run: &mut Run, at: u32, def: &Def, number: usize) -> Result<Flow, Halt>
        requires nests { Nests self.now.depth (F.pre self.now.call) (F.post self.now.call) }
        requires entered { Entered self.now.given.node run.old.machine.ran }
        requires function { function_at self.now.given.program.now self.now.given.node number ≡ Some def.now }
        ensures gives { Halts (and_then (located at (own.defined_here (fixed self.now.given) self.now.depth def.now number) (world run.old)) (λ done. pure flow.On)) result (world run.new) }
        ensures goes { OwnGoes self.now.given.program.now run.old run.new }
    {
        match self.define(run, def, number) {
            Ok(()) => Ok(Flow::On),
            Err(stop) => Err(at_line(stop, at)),
        }
    }

    /// The charge of a `def`, its defaults from left to right, and then the new function, which the
    /// cell's name is bound to.
    fn define(&self, run: &mut Run, def: &Def, number: usize) -> Result<(), Stop>
        requires nests { Nests self.now.depth (F.pre self.now.call) (F.post self.now.call) }
        requires entered { Entered self.now.given.node run.old.machine.ran }
        requires function { function_at self.now.given.program.now self.now.given.node number ≡ Some def.now }
        ensures gives { Gives (own.defined_here (fixed self.now.given) self.now.depth def.now number (world run.old)) result (world run.new) }
        ensures goes { OwnGoes self.now.given.program.now run.old run.new }
    {
        run.charge(1)?;
        let defaults = self.default_values(run, def.defaults.as_slice())?;
        let number = small(number)?;
        let function = run.made_function(self.given.node, number, defaults)?;
        run.bind(&def.name, function)
    }

    /// The values of a function's defaults, from left to right.
    fn default_values(&self, run: &mut Run, defaults: &[Named<Expr>]) -> Result<Values, Stop>
        requires { Nests self.now.depth (F.pre self.now.call) (F.post self.now.call) }
        ensures gives { Gives (values (map (λ named. meaning (fixed self.now.given) self.now.depth named.value) defaults.now) (world run.old)) result (world run.new) }
        ensures goes { Goes run.old run.new }
        ensures fits { IfOk result (λ vs. AllFit run.new.machine vs) }
        ensures count { IfOk result (λ vs. length vs ≡ length defaults.now) }
    {
        let mut values = Items::new(self.alloc);
        for named in defaults {
            let value = self.value(run, &named.value)?;
            values.push(value)?;
        }
        Ok(values)
    }
}

/// The number of a function as a machine keeps it; a cell with more functions does not fit into
/// memory.
fn small(number: usize) -> Result<u32, NoMemory>
    ensures { IfOk result (λ n. n ≡ number) }
{
    match u32::try_from(number) {
        Ok(number) => Ok(number),
        Err(_) => Err(NoMemory),
    }
}

/// How many functions a statement defines.
#[tactic(auto, using(crate::proofs::OwnLemmas::counts_of_forms))]
fn definitions_in(statement: &Statement) -> usize
    ensures count { result ≡ is_def statement.now }
    ensures few { result ≤ 1 }
{
    match statement {
        Statement::Line(_) => 0,
        Statement::If(_, _, _, _) => 0,
        Statement::For(_, _, _, _) => 0,
        Statement::Def(_, _) => 1,
    }
}
