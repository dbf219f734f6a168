//! What is indexed, cut or called, at a level of calls.
ghost use Rattle.std.specs.Prelude.{IfOk};
ghost use Rattle.star_builtins.specs.Reached.{Fits};
ghost use Rattle.star_meaning.specs.Steps.{Gives};
ghost use Rattle.star_run.specs.Fixed.{fixed};
ghost use Rattle.star_run.specs.Nests.{Nests};
ghost use Rattle.star_run.specs.Parts as spec;
ghost use Rattle.star_run.specs.Running.{Goes, world};

use crate::given::Given;
use crate::level::Level;
use crate::reads::name_read;
use crate::running::Run;
use chex_base::{ObjectId, Text};
use star_builtins::{Bounds, Call};
use star_syntax::{Arguments, Expr, Suffix};
use star_value::{Stop, Value};
use std::alloc::Global;

impl<'p, F: Fn(Global, &Given<'_>, usize, &mut Run, ObjectId, Call) -> Result<Value, Stop>> Level<
    'p,
    F,
> {
    /// What is indexed or called, and what its suffixes make of it. `input(TEXT)` is one thing.
    #[cycle(value)]
    #[inline(never)]
    #[tactic(auto, using(crate::proofs::WaitLemmas::waiting, crate::proofs::ReadLemmas::fronts))]
    pub fn primary(&self, run: &mut Run, head: &Expr, all: &[Suffix<Expr>]) -> Result<Value, Stop>
        requires { Nests self.now.depth (F.pre self.now.call) (F.post self.now.call) }
        ensures gives { Gives (spec.primary_value (fixed self.now.given) self.now.depth head.now all.now (world run.old)) result (world run.new) }
        ensures goes { Goes run.old run.new }
        ensures fits { IfOk result (λ v. Fits run.new.machine v) }
    {
        match name_read(head, all) {
            Some(name) => {
                let value = run.input(&self.given, name)?;
                match all {
                    [_, more @ ..] => self.suffixes(run, more, value),
                    [] => Ok(value),
                }
            }
            None => {
                let value = self.value(run, head)?;
                self.suffixes(run, all, value)
            }
        }
    }

    /// What suffixes make of a value, from left to right.
    #[cycle(value)]
    #[tactic(auto, using(crate::proofs::WaitLemmas::waiting))]
    pub fn suffixes(&self, run: &mut Run, all: &[Suffix<Expr>], of: Value) -> Result<Value, Stop>
        requires nests { Nests self.now.depth (F.pre self.now.call) (F.post self.now.call) }
        requires of { Fits run.old.machine of }
        ensures gives { Gives (spec.suffixes (fixed self.now.given) self.now.depth all.now of (world run.old)) result (world run.new) }
        ensures goes { Goes run.old run.new }
        ensures fits { IfOk result (λ v. Fits run.new.machine v) }
    {
        let mut value = of;
        for suffix in all {
            value = self.suffix(run, suffix, value)?;
        }
        Ok(value)
    }

    /// What one suffix makes of a value.
    #[cycle(value)]
    #[tactic(auto, using(crate::proofs::WaitLemmas::waiting))]
    pub fn suffix(&self, run: &mut Run, suffix: &Suffix<Expr>, of: Value) -> Result<Value, Stop>
        requires nests { Nests self.now.depth (F.pre self.now.call) (F.post self.now.call) }
        requires of { Fits run.old.machine of }
        ensures gives { Gives (spec.one_suffix (fixed self.now.given) self.now.depth suffix.now of (world run.old)) result (world run.new) }
        ensures goes { Goes run.old run.new }
        ensures fits { IfOk result (λ v. Fits run.new.machine v) }
    {
        match suffix {
            Suffix::Index(at) => self.index(run, at, of),
            Suffix::Slice(start, stop, step) => self.slice(run, start, stop, step, of),
            Suffix::Call(given) => self.call_of(run, given, of),
            Suffix::Method(name, given) => self.method(run, name, given, of),
        }
    }

    #[cycle(value)]
    #[inline(never)]
    #[tactic(auto, using(crate::proofs::WaitLemmas::waiting))]
    fn index(&self, run: &mut Run, at: &Expr, of: Value) -> Result<Value, Stop>
        requires nests { Nests self.now.depth (F.pre self.now.call) (F.post self.now.call) }
        requires of { Fits run.old.machine of }
        ensures gives { Gives (spec.one_suffix (fixed self.now.given) self.now.depth (Suffix.Index at.now) of (world run.old)) result (world run.new) }
        ensures goes { Goes run.old run.new }
        ensures fits { IfOk result (λ v. Fits run.new.machine v) }
    {
        let at = self.value(run, at)?;
        run.index(&of, &at)
    }

    #[cycle(value)]
    #[inline(never)]
    #[tactic(auto, using(crate::proofs::WaitLemmas::waiting))]
    fn slice(
        &self,
        run: &mut Run,
        start: &Option<Expr>,
        stop: &Option<Expr>,
        step: &Option<Option<Expr>>,
        of: Value,
    ) -> Result<Value, Stop>
        requires nests { Nests self.now.depth (F.pre self.now.call) (F.post self.now.call) }
        requires of { Fits run.old.machine of }
        ensures gives { Gives (spec.one_suffix (fixed self.now.given) self.now.depth (Suffix.Slice start.now stop.now step.now) of (world run.old)) result (world run.new) }
        ensures goes { Goes run.old run.new }
        ensures fits { IfOk result (λ v. Fits run.new.machine v) }
    {
        let start = self.optional(run, start)?;
        let stop = self.optional(run, stop)?;
        let step = self.step_of(run, step)?;
        run.slice(&of, &Bounds { start, stop, step })
    }

    #[cycle(value)]
    #[tactic(auto, using(crate::proofs::WaitLemmas::waiting))]
    fn optional(&self, run: &mut Run, tree: &Option<Expr>) -> Result<Option<Value>, Stop>
        requires { Nests self.now.depth (F.pre self.now.call) (F.post self.now.call) }
        ensures gives { Gives (spec.optional (fixed self.now.given) self.now.depth tree.now (world run.old)) result (world run.new) }
        ensures goes { Goes run.old run.new }
    {
        match tree {
            None => Ok(None),
            Some(tree) => {
                let value = self.value(run, tree)?;
                Ok(Some(value))
            }
        }
    }

    #[cycle(value)]
    #[tactic(auto, using(crate::proofs::WaitLemmas::waiting))]
    fn step_of(&self, run: &mut Run, step: &Option<Option<Expr>>) -> Result<Option<Value>, Stop>
        requires { Nests self.now.depth (F.pre self.now.call) (F.post self.now.call) }
        ensures gives { Gives (spec.slice_step (fixed self.now.given) self.now.depth step.now (world run.old)) result (world run.new) }
        ensures goes { Goes run.old run.new }
    {
        match step {
            None => Ok(None),
            Some(step) => self.optional(run, step),
        }
    }

    #[cycle(value)]
    #[inline(never)]
    #[tactic(auto, using(crate::proofs::WaitLemmas::waiting))]
    fn call_of(&self, run: &mut Run, given: &Arguments<Expr>, of: Value) -> Result<Value, Stop>
        requires nests { Nests self.now.depth (F.pre self.now.call) (F.post self.now.call) }
        requires of { Fits run.old.machine of }
        ensures gives { Gives (spec.one_suffix (fixed self.now.given) self.now.depth (Suffix.Call given.now) of (world run.old)) result (world run.new) }
        ensures goes { Goes run.old run.new }
        ensures fits { IfOk result (λ v. Fits run.new.machine v) }
    {
        let positional = self.values(run, given.positional.as_slice())?;
        let named = self.named(run, given.named.as_slice())?;
        self.called(run, &of, Call { positional, named })
    }

    #[cycle(value)]
    #[inline(never)]
    #[tactic(auto, using(crate::proofs::WaitLemmas::waiting))]
    fn method(
        &self,
        run: &mut Run,
        name: &Text,
        given: &Arguments<Expr>,
        of: Value,
    ) -> Result<Value, Stop>
        requires nests { Nests self.now.depth (F.pre self.now.call) (F.post self.now.call) }
        requires of { Fits run.old.machine of }
        ensures gives { Gives (spec.one_suffix (fixed self.now.given) self.now.depth (Suffix.Method name.now given.now) of (world run.old)) result (world run.new) }
        ensures goes { Goes run.old run.new }
        ensures fits { IfOk result (λ v. Fits run.new.machine v) }
    {
        let positional = self.values(run, given.positional.as_slice())?;
        let named = self.named(run, given.named.as_slice())?;
        run.method(name, &of, Call { positional, named })
    }
}
