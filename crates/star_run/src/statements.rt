//! Statements, at a level of calls.
ghost use Rattle.std.specs.Prelude.{◌≡◌, ◌<◌, ◌+◌, ◌==◌, ◌&&◌, ◌++◌, ◌∷◌, ℕ, List, Some, None, length, option_map, IfOk, OnOk};
ghost use Rattle.star_builtins.specs.Reached.{Fits};
ghost use Rattle.star_meaning.specs.Expressions.{next_item, store_at};
ghost use Rattle.star_meaning.specs.Operators.{index};
ghost use Rattle.star_meaning.specs.Statements as spec;
ghost use Rattle.star_meaning.specs.Steps.{Gives, and_then, charge, pure};
ghost use Rattle.star_meaning.specs.Values.{items_in};
ghost use Rattle.star_meaning.specs.World.{acting, located, located_at, lock_of, operate};
ghost use Rattle.star_meaning.specs.declared.flow.Flow.TheVariants as flow;
ghost use Rattle.star_value.specs.declared.value.Value.{Value as AValue};
ghost use Rattle.star_run.specs.Bodies as bodies;
ghost use Rattle.star_run.specs.Fixed.{callee, fixed, meaning, setting};
ghost use Rattle.star_run.specs.Halts.{Counted, FlowFits, Halts};
ghost use Rattle.star_run.specs.Nests.{Nests};
ghost use Rattle.star_run.specs.Parts as parts;
ghost use Rattle.star_run.specs.Running.{Goes, world};

use crate::given::Given;
use crate::halt::{Halt, at_line};
use crate::level::Level;
use crate::running::Run;
use chex_base::ObjectId;
use star_builtins::Call;
use star_meaning::Flow;
use star_syntax::{BinaryOp, Block, Branch, Expr, Line, Small, SmallKind, Statement, Suffix};
use star_value::{Failure, Stop, Value};
use std::alloc::Global;

impl<'p, F: Fn(Global, &Given<'_>, usize, &mut Run, ObjectId, Call) -> Result<Value, Stop>> Level<
    'p,
    F,
> {
    /// What a small statement does, without its step.
    #[tactic(auto, using(crate::proofs::WaitLemmas::waiting), unfolding(star_meaning::specs::Statements::kind_of))]
    fn kind(&self, run: &mut Run, last: bool, kind: &SmallKind) -> Result<Flow, Stop>
        requires { Nests self.now.depth (F.pre self.now.call) (F.post self.now.call) }
        ensures gives { Gives (spec.kind_of (setting (fixed self.now.given)) (callee (fixed self.now.given) self.now.depth) last kind.now (world run.old)) result (world run.new) }
        ensures goes { Goes run.old run.new }
        ensures fits { IfOk result (λ f. FlowFits run.new.machine f) }
    {
        match kind {
            SmallKind::Return(tests) => self.returned(run, tests.as_slice()),
            SmallKind::Break => Ok(Flow::Break),
            SmallKind::Continue => Ok(Flow::Continue),
            SmallKind::Pass => Ok(Flow::On),
            SmallKind::Assign(targets, tests) => {
                self.assign(run, targets.as_slice(), tests.as_slice())?;
                Ok(Flow::On)
            }
            SmallKind::Augmented(target, op, tests) => {
                self.augment(run, target, *op, tests.as_slice())?;
                Ok(Flow::On)
            }
            SmallKind::Tests(tests) => {
                self.show(run, last, tests.as_slice())?;
                Ok(Flow::On)
            }
        }
    }

    #[tactic(auto, using(crate::proofs::WaitLemmas::constants))]
    fn returned(&self, run: &mut Run, tests: &[Expr]) -> Result<Flow, Stop>
        requires { Nests self.now.depth (F.pre self.now.call) (F.post self.now.call) }
        ensures gives { Gives (and_then (spec.returned (setting (fixed self.now.given)) (callee (fixed self.now.given) self.now.depth) (parts.meanings (fixed self.now.given) self.now.depth tests.now) (world run.old)) (λ v. pure (flow.Return v))) result (world run.new) }
        ensures goes { Goes run.old run.new }
        ensures fits { IfOk result (λ f. FlowFits run.new.machine f) }
    {
        match tests {
            [] => Ok(Flow::Return(Value::None)),
            _ => {
                let value = self.tests(run, tests)?;
                Ok(Flow::Return(value))
            }
        }
    }

    #[tactic(auto, using(crate::proofs::WaitLemmas::waiting))]
    fn assign(&self, run: &mut Run, targets: &[Expr], tests: &[Expr]) -> Result<(), Stop>
        requires { Nests self.now.depth (F.pre self.now.call) (F.post self.now.call) }
        ensures gives { Gives (and_then (parts.tests (fixed self.now.given) self.now.depth tests.now (world run.old)) (parts.targets (fixed self.now.given) self.now.depth targets.now)) result (world run.new) }
        ensures goes { Goes run.old run.new }
    {
        let value = self.tests(run, tests)?;
        self.store_in(run, targets, value)
    }

    /// The old value of a name or a place, the operator, and the new value stored there.
    #[tactic(auto, using(crate::proofs::ExpressionCases::places_of_forms, crate::proofs::WaitLemmas::waiting))]
    fn augment(
        &self,
        run: &mut Run,
        target: &Expr,
        op: BinaryOp,
        tests: &[Expr],
    ) -> Result<(), Stop>
        requires { Nests self.now.depth (F.pre self.now.call) (F.post self.now.call) }
        ensures gives { Gives ((meaning (fixed self.now.given) self.now.depth target.now).update (bodies.operated (fixed self.now.given) self.now.depth op tests.now) (world run.old)) result (world run.new) }
        ensures goes { Goes run.old run.new }
    {
        match target {
            Expr::Name(name) => {
                let old = run.name(name)?;
                let new = self.operated(run, op, old, tests)?;
                run.bind(name, new)
            }
            Expr::Primary(head, all) => {
                self.augment_place(run, head.get(), all.as_slice(), op, tests)
            }
            Expr::Int(_)
            | Expr::Text(_)
            | Expr::None
            | Expr::True
            | Expr::False
            | Expr::Paren(_)
            | Expr::Tuple(_, _)
            | Expr::List(_, _)
            | Expr::ListOver(_, _)
            | Expr::Dict(_, _)
            | Expr::DictOver(_, _, _)
            | Expr::Signed(_, _)
            | Expr::Chain(_, _, _)
            | Expr::Compare(_, _, _)
            | Expr::Not(_, _)
            | Expr::Conditional(_, _) => Err(Stop::Failure(Failure::WrongType)),
        }
    }

    #[tactic(auto, using(crate::proofs::WaitLemmas::waiting))]
    fn augment_place(
        &self,
        run: &mut Run,
        head: &Expr,
        all: &[Suffix<Expr>],
        op: BinaryOp,
        tests: &[Expr],
    ) -> Result<(), Stop>
        requires { Nests self.now.depth (F.pre self.now.call) (F.post self.now.call) }
        ensures gives { Gives (and_then (parts.place_of (fixed self.now.given) self.now.depth head.now all.now (world run.old)) (λ at v. and_then (operate (index at.0 at.1) v) (λ old u. and_then (bodies.operated (fixed self.now.given) self.now.depth op tests.now old u) (λ new. store_at at.0 at.1 new)))) result (world run.new) }
        ensures goes { Goes run.old run.new }
    {
        let (of, at) = self.place(run, head, all)?;
        let old = run.index(&of, &at)?;
        let new = self.operated(run, op, old, tests)?;
        run.store(&of, at, new)
    }

    #[tactic(auto, using(crate::proofs::WaitLemmas::waiting))]
    fn operated(
        &self,
        run: &mut Run,
        op: BinaryOp,
        old: Value,
        tests: &[Expr],
    ) -> Result<Value, Stop>
        requires nests { Nests self.now.depth (F.pre self.now.call) (F.post self.now.call) }
        requires old { Fits run.old.machine old }
        ensures gives { Gives (bodies.operated (fixed self.now.given) self.now.depth op tests.now old (world run.old)) result (world run.new) }
        ensures goes { Goes run.old run.new }
        ensures fits { IfOk result (λ v. Fits run.new.machine v) }
    {
        let value = self.tests(run, tests)?;
        run.augmented(self.given.program, op, old, value)
    }

    /// An expression that stands alone; as the last statement of a cell it is written.
    #[tactic(auto, using(crate::proofs::WaitLemmas::waiting))]
    fn show(&self, run: &mut Run, last: bool, tests: &[Expr]) -> Result<(), Stop>
        requires { Nests self.now.depth (F.pre self.now.call) (F.post self.now.call) }
        ensures gives { Gives (and_then (parts.tests (fixed self.now.given) self.now.depth tests.now (world run.old)) (spec.echo_if (setting (fixed self.now.given)) (callee (fixed self.now.given) self.now.depth) last)) result (world run.new) }
        ensures goes { Goes run.old run.new }
    {
        let value = self.tests(run, tests)?;
        if !last {
            return Ok(());
        }
        run.echo(&self.given, &value)
    }

    #[tactic(auto, using(crate::proofs::WaitLemmas::waiting))]
    fn paid(&self, run: &mut Run, last: bool, kind: &SmallKind) -> Result<Flow, Stop>
        requires { Nests self.now.depth (F.pre self.now.call) (F.post self.now.call) }
        ensures gives { Gives (and_then (acting (charge 1) (world run.old)) (λ paid. spec.kind_of (setting (fixed self.now.given)) (callee (fixed self.now.given) self.now.depth) last kind.now)) result (world run.new) }
        ensures goes { Goes run.old run.new }
        ensures fits { IfOk result (λ f. FlowFits run.new.machine f) }
    {
        run.charge(1)?;
        self.kind(run, last, kind)
    }

    /// A small statement.
    #[tactic(auto, using(crate::proofs::CourseLemmas::located_rules), unfolding(star_meaning::specs::Statements::small_of, star_meaning::specs::World::located))]
    fn small(&self, run: &mut Run, last: bool, small: &Small) -> Result<Flow, Halt>
        requires { Nests self.now.depth (F.pre self.now.call) (F.post self.now.call) }
        ensures gives { Halts (spec.small_of (setting (fixed self.now.given)) (callee (fixed self.now.given) self.now.depth) last small.now (world run.old)) result (world run.new) }
        ensures goes { Goes run.old run.new }
        ensures fits { IfOk result (λ f. FlowFits run.new.machine f) }
    {
        match self.paid(run, last, &small.kind) {
            Ok(flow) => Ok(flow),
            Err(stop) => Err(at_line(stop, small.line)),
        }
    }

    /// Small statements, up to the first that does not go on.
    fn smalls(&self, run: &mut Run, last: bool, all: &[Small]) -> Result<Flow, Halt>
        requires { Nests self.now.depth (F.pre self.now.call) (F.post self.now.call) }
        ensures gives { Halts (spec.in_sequence (spec.small_of (setting (fixed self.now.given)) (callee (fixed self.now.given) self.now.depth)) last all.now (world run.old)) result (world run.new) }
        ensures goes { Goes run.old run.new }
        ensures fits { IfOk result (λ f. FlowFits run.new.machine f) }
    {
        for (place, small) in all.iter().enumerate() {
            let is_last = ends_cell(last, place, all.len());
            match self.small(run, is_last, small)? {
                Flow::On => {}
                ended => return Ok(ended),
            }
        }
        Ok(Flow::On)
    }

    /// The small statements of a line; `last` says whether the line is the cell's last statement.
    pub fn line(&self, run: &mut Run, last: bool, line: &Line) -> Result<Flow, Halt>
        requires { Nests self.now.depth (F.pre self.now.call) (F.post self.now.call) }
        ensures gives { Halts (spec.line_of (setting (fixed self.now.given)) (callee (fixed self.now.given) self.now.depth) last line.now (world run.old)) result (world run.new) }
        ensures goes { Goes run.old run.new }
        ensures fits { IfOk result (λ f. FlowFits run.new.machine f) }
    {
        self.smalls(run, last, line.smalls.as_slice())
    }

    /// Whether a condition holds, with the line of its `if` at a failure.
    #[tactic(auto, using(crate::proofs::CourseLemmas::located_rules), unfolding(star_meaning::specs::World::located))]
    fn condition(&self, run: &mut Run, at: u32, tree: &Expr) -> Result<bool, Halt>
        requires { Nests self.now.depth (F.pre self.now.call) (F.post self.now.call) }
        ensures gives { Halts (spec.condition_of (setting (fixed self.now.given)) (callee (fixed self.now.given) self.now.depth) at tree.now (world run.old)) result (world run.new) }
        ensures goes { Goes run.old run.new }
    {
        match self.value(run, tree) {
            Ok(value) => Ok(run.is_true(&value)),
            Err(stop) => Err(at_line(stop, at)),
        }
    }

    /// A step, and then expressions that are a tuple where they are several.
    #[tactic(auto, using(crate::proofs::WaitLemmas::waiting))]
    fn paid_tests(&self, run: &mut Run, trees: &[Expr]) -> Result<Value, Stop>
        requires { Nests self.now.depth (F.pre self.now.call) (F.post self.now.call) }
        ensures gives { Gives (and_then (acting (charge 1) (world run.old)) (λ paid. parts.tests (fixed self.now.given) self.now.depth trees.now)) result (world run.new) }
        ensures goes { Goes run.old run.new }
        ensures fits { IfOk result (λ v. Fits run.new.machine v) }
    {
        run.charge(1)?;
        self.tests(run, trees)
    }

    /// What a `for` goes over, with its line at a failure.
    #[tactic(auto, using(crate::proofs::CourseLemmas::located_rules))]
    fn loop_operand(&self, run: &mut Run, at: u32, over: &[Expr]) -> Result<Value, Halt>
        requires { Nests self.now.depth (F.pre self.now.call) (F.post self.now.call) }
        ensures gives { Halts (located_at at (and_then (acting (charge 1) (world run.old)) (λ paid. parts.tests (fixed self.now.given) self.now.depth over.now))) result (world run.new) }
        ensures goes { Goes run.old run.new }
        ensures fits { IfOk result (λ v. Fits run.new.machine v) }
    {
        match self.paid_tests(run, over) {
            Ok(value) => Ok(value),
            Err(stop) => Err(at_line(stop, at)),
        }
    }

    /// A statement; `last` says whether it is the cell's last one. A `def` inside a block has no
    /// number, and does nothing.
    #[cycle(exec)]
    #[tactic(auto, using(crate::proofs::StatementCases::statements_of_forms))]
    pub fn exec(&self, run: &mut Run, last: bool, statement: &Statement) -> Result<Flow, Halt>
        requires { Nests self.now.depth (F.pre self.now.call) (F.post self.now.call) }
        ensures gives { Halts (spec.statement_of (setting (fixed self.now.given)) (callee (fixed self.now.given) self.now.depth) statement.now last None (world run.old)) result (world run.new) }
        ensures goes { Goes run.old run.new }
        ensures fits { IfOk result (λ f. FlowFits run.new.machine f) }
    {
        match statement {
            Statement::Line(line) => self.line(run, last, line),
            Statement::If(at, first, more, other) => {
                self.choice(run, *at, first, more.as_slice(), other)
            }
            Statement::For(at, targets, over, body) => {
                self.repeat(run, *at, body, targets.as_slice(), over.as_slice())
            }
            Statement::Def(at, _) => {
                begin(run, *at)?;
                Ok(Flow::On)
            }
        }
    }

    /// Statements in a block, up to the first that does not go on.
    #[cycle(exec)]
    fn statements(&self, run: &mut Run, all: &[Statement]) -> Result<Flow, Halt>
        requires { Nests self.now.depth (F.pre self.now.call) (F.post self.now.call) }
        ensures gives { Halts (bodies.in_block (setting (fixed self.now.given)) (callee (fixed self.now.given) self.now.depth) all.now (world run.old)) result (world run.new) }
        ensures goes { Goes run.old run.new }
        ensures fits { IfOk result (λ f. FlowFits run.new.machine f) }
    {
        for statement in all {
            match self.exec(run, false, statement)? {
                Flow::On => {}
                ended => return Ok(ended),
            }
        }
        Ok(Flow::On)
    }

    /// The statements that a header governs.
    #[cycle(exec)]
    pub fn block(&self, run: &mut Run, body: &Block<Statement>) -> Result<Flow, Halt>
        requires { Nests self.now.depth (F.pre self.now.call) (F.post self.now.call) }
        ensures gives { Halts (spec.body_of (setting (fixed self.now.given)) (callee (fixed self.now.given) self.now.depth) body.now (world run.old)) result (world run.new) }
        ensures goes { Goes run.old run.new }
        ensures fits { IfOk result (λ f. FlowFits run.new.machine f) }
    {
        match body {
            Block::Inline(line) => self.line(run, false, line),
            Block::Indented(all) => self.statements(run, all.as_slice()),
        }
    }

    /// A step, and then the first branch whose condition holds, or else what stands after `else`.
    #[cycle(exec)]
    fn choice(
        &self,
        run: &mut Run,
        at: u32,
        first: &Branch<Statement>,
        more: &[Branch<Statement>],
        other: &Option<Block<Statement>>,
    ) -> Result<Flow, Halt>
        requires { Nests self.now.depth (F.pre self.now.call) (F.post self.now.call) }
        ensures gives { Halts (and_then (located at (acting (charge 1)) (world run.old)) (λ paid. bodies.branches_from (setting (fixed self.now.given)) (callee (fixed self.now.given) self.now.depth) at (first.now ∷ more.now) other.now)) result (world run.new) }
        ensures goes { Goes run.old run.new }
        ensures fits { IfOk result (λ f. FlowFits run.new.machine f) }
    {
        begin(run, at)?;
        if self.condition(run, at, &first.condition)? {
            return self.block(run, &first.body);
        }
        self.branches(run, at, more, other)
    }

    /// The first branch whose condition holds, or else what stands after `else`.
    #[cycle(exec)]
    fn branches(
        &self,
        run: &mut Run,
        at: u32,
        more: &[Branch<Statement>],
        other: &Option<Block<Statement>>,
    ) -> Result<Flow, Halt>
        requires { Nests self.now.depth (F.pre self.now.call) (F.post self.now.call) }
        ensures gives { Halts (bodies.branches_from (setting (fixed self.now.given)) (callee (fixed self.now.given) self.now.depth) at more.now other.now (world run.old)) result (world run.new) }
        ensures goes { Goes run.old run.new }
        ensures fits { IfOk result (λ f. FlowFits run.new.machine f) }
    {
        for branch in more {
            let holds = self.condition(run, at, &branch.condition)?;
            if holds {
                return self.block(run, &branch.body);
            }
        }
        self.otherwise(run, other)
    }

    /// What stands after `else`.
    #[cycle(exec)]
    fn otherwise(&self, run: &mut Run, other: &Option<Block<Statement>>) -> Result<Flow, Halt>
        requires { Nests self.now.depth (F.pre self.now.call) (F.post self.now.call) }
        ensures gives { Halts (bodies.otherwise (setting (fixed self.now.given)) (callee (fixed self.now.given) self.now.depth) other.now (world run.old)) result (world run.new) }
        ensures goes { Goes run.old run.new }
        ensures fits { IfOk result (λ f. FlowFits run.new.machine f) }
    {
        match other {
            Some(body) => self.block(run, body),
            None => Ok(Flow::On),
        }
    }

    /// The turns of a `for` over what is iterated over, which is locked meanwhile.
    #[cycle(exec)]
    fn repeat(
        &self,
        run: &mut Run,
        at: u32,
        body: &Block<Statement>,
        targets: &[Expr],
        over: &[Expr],
    ) -> Result<Flow, Halt>
        requires { Nests self.now.depth (F.pre self.now.call) (F.post self.now.call) }
        ensures gives { Halts (and_then (bodies.iterated_at (setting (fixed self.now.given)) (callee (fixed self.now.given) self.now.depth) at over.now (world run.old)) (spec.repeated (setting (fixed self.now.given)) (callee (fixed self.now.given) self.now.depth) at targets.now (spec.body_of (setting (fixed self.now.given)) (callee (fixed self.now.given) self.now.depth) body.now))) result (world run.new) }
        ensures goes { Goes run.old run.new }
        ensures fits { IfOk result (λ f. FlowFits run.new.machine f) }
    {
        let of = self.loop_operand(run, at, over)?;
        let count = loop_count(run, at, &of)?;
        run.lock(&of)?;
        let flow = self.for_turns(run, at, body, targets, &of, count)?;
        run.unlock(&of);
        Ok(flow)
    }

    /// The turns over the items of a value that is locked. Each item is asked for by its place.
    #[cycle(exec)]
    fn for_turns(
        &self,
        run: &mut Run,
        at: u32,
        body: &Block<Statement>,
        targets: &[Expr],
        of: &Value,
        count: u128,
    ) -> Result<Flow, Halt>
        requires nests { Nests self.now.depth (F.pre self.now.call) (F.post self.now.call) }
        requires of { Fits run.old.machine of.now }
        requires count { option_map length (items_in run.old.machine.state of.now) ≡ Some count }
        requires locked { (before : List ℕ) × (run.old.frame.locked ≡ before ++ lock_of of.now) }
        ensures gives { (items : List AValue) → items_in run.old.machine.state of.now ≡ Some items → Halts (spec.for_turns (bodies.next_at (fixed self.now.given) self.now.depth at targets.now) (spec.body_of (setting (fixed self.now.given)) (callee (fixed self.now.given) self.now.depth) body.now) items (world run.old)) result (world run.new) }
        ensures goes { Goes run.old run.new }
        ensures fits { IfOk result (λ f. FlowFits run.new.machine f) }
        ensures locked { OnOk result (run.new.frame.locked ≡ run.old.frame.locked) }
    {
        for place in 0..count {
            let item = run.item(of, place)?;
            let flow = self.for_turn(run, at, body, targets, item)?;
            match turn_end(flow) {
                None => {}
                Some(ended) => return Ok(ended),
            }
        }
        Ok(Flow::On)
    }

    /// One turn.
    #[cycle(exec)]
    fn for_turn(
        &self,
        run: &mut Run,
        at: u32,
        body: &Block<Statement>,
        targets: &[Expr],
        item: Value,
    ) -> Result<Flow, Halt>
        requires nests { Nests self.now.depth (F.pre self.now.call) (F.post self.now.call) }
        requires item { Fits run.old.machine item }
        ensures gives { Halts (and_then (bodies.next_at (fixed self.now.given) self.now.depth at targets.now item (world run.old)) (λ done. spec.body_of (setting (fixed self.now.given)) (callee (fixed self.now.given) self.now.depth) body.now)) result (world run.new) }
        ensures goes { Goes run.old run.new }
        ensures fits { IfOk result (λ f. FlowFits run.new.machine f) }
    {
        self.for_item(run, at, targets, item)?;
        self.block(run, body)
    }

    /// The item of a turn, with the line of the `for` at a failure.
    #[tactic(auto, using(crate::proofs::CourseLemmas::located_rules), unfolding(star_meaning::specs::World::located))]
    fn for_item(&self, run: &mut Run, at: u32, targets: &[Expr], item: Value) -> Result<(), Halt>
        requires nests { Nests self.now.depth (F.pre self.now.call) (F.post self.now.call) }
        requires item { Fits run.old.machine item }
        ensures gives { Halts (bodies.next_at (fixed self.now.given) self.now.depth at targets.now item (world run.old)) result (world run.new) }
        ensures goes { Goes run.old run.new }
    {
        match self.bind_item(run, targets, item) {
            Ok(()) => Ok(()),
            Err(stop) => Err(at_line(stop, at)),
        }
    }

    /// The weight of the item of a turn, which is then stored in the targets.
    #[tactic(auto, using(crate::proofs::WaitLemmas::waiting), unfolding(star_meaning::specs::Expressions::next_item))]
    fn bind_item(&self, run: &mut Run, targets: &[Expr], item: Value) -> Result<(), Stop>
        requires nests { Nests self.now.depth (F.pre self.now.call) (F.post self.now.call) }
        requires item { Fits run.old.machine item }
        ensures gives { Gives (next_item (parts.meanings (fixed self.now.given) self.now.depth targets.now) item (world run.old)) result (world run.new) }
        ensures goes { Goes run.old run.new }
    {
        run.charge_weight(&item)?;
        self.store_in(run, targets, item)
    }
}

/// Whether a small statement ends the cell, where its line does or does not.
fn ends_cell(last: bool, place: usize, count: usize) -> bool
    requires { place < count }
    ensures { result ≡ (last && (place + 1 == count)) }
{
    last && place + 1 == count
}

/// The step that a statement takes when it starts.
#[tactic(auto, using(crate::proofs::CourseLemmas::located_rules), unfolding(star_meaning::specs::World::located))]
fn begin(run: &mut Run, at: u32) -> Result<(), Halt>
    ensures gives { Halts (located at (acting (charge 1)) (world run.old)) result (world run.new) }
    ensures goes { Goes run.old run.new }
{
    match run.charge(1) {
        Ok(()) => Ok(()),
        Err(stop) => Err(at_line(stop, at)),
    }
}

/// How many items a value gives, which a `for` goes over.
fn loop_count(run: &Run, at: u32, of: &Value) -> Result<u128, Halt>
    requires { Fits run.now.machine of.now }
    ensures { Counted (items_in run.now.machine.state of.now) at result }
{
    match run.count(of) {
        Some(count) => Ok(count),
        None => Err(Halt::Failed(Failure::WrongType, at)),
    }
}

/// How a `for` ends after a turn, where no other turn follows.
fn turn_end(flow: Flow) -> Option<Flow>
    ensures { result ≡ bodies.turn_end flow }
{
    match flow {
        Flow::On => None,
        Flow::Continue => None,
        Flow::Break => Some(Flow::On),
        Flow::Return(value) => Some(Flow::Return(value)),
    }
}
