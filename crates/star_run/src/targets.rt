//! Targets and places, at a level of calls.
ghost use Rattle.std.specs.Prelude.{IfOk};
ghost use Rattle.star_builtins.specs.Reached.{AllFit, Fits};
ghost use Rattle.star_meaning.specs.Expressions.{store_at};
ghost use Rattle.star_meaning.specs.Steps.{Gives, and_then};
ghost use Rattle.star_run.specs.Fixed.{fixed};
ghost use Rattle.star_run.specs.Nests.{Nests};
ghost use Rattle.star_run.specs.Parts as spec;
ghost use Rattle.star_run.specs.Running.{Goes, world};

use crate::given::Given;
use crate::level::Level;
use crate::reads::name_read;
use crate::running::Run;
use chex_base::{ObjectId, Text};
use sqlite_items::at as item_at;
use star_builtins::Call;
use star_syntax::{Expr, Suffix};
use star_value::{Failure, Stop, Value};
use std::alloc::Global;

impl<'p, F: Fn(Global, &Given<'_>, usize, &mut Run, ObjectId, Call) -> Result<Value, Stop>> Level<
    'p,
    F,
> {
    /// A value stored in a target.
    #[cycle(value)]
    #[tactic(auto, using(crate::proofs::ExpressionCases::targets_of_forms, crate::proofs::WaitLemmas::waiting))]
    pub fn stored(&self, run: &mut Run, tree: &Expr, value: Value) -> Result<(), Stop>
        requires nests { Nests self.now.depth (F.pre self.now.call) (F.post self.now.call) }
        requires value { Fits run.old.machine value }
        ensures gives { Gives (spec.target (fixed self.now.given) self.now.depth tree.now value (world run.old)) result (world run.new) }
        ensures goes { Goes run.old run.new }
    {
        match tree {
            Expr::Name(name) => run.bind(name, value),
            Expr::Paren(inner) => self.stored(run, inner.get(), value),
            Expr::Tuple(items, _) => self.store_items(run, items.as_slice(), value),
            Expr::List(items, _) => self.store_items(run, items.as_slice(), value),
            Expr::Primary(head, all) => self.store_place(run, head.get(), all.as_slice(), value),
            Expr::Int(_)
            | Expr::Text(_)
            | Expr::None
            | Expr::True
            | Expr::False
            | Expr::ListOver(_, _)
            | Expr::Dict(_, _)
            | Expr::DictOver(_, _, _)
            | Expr::Signed(_, _)
            | Expr::Chain(_, _, _)
            | Expr::Compare(_, _, _)
            | Expr::Not(_, _)
            | Expr::Conditional(_, _) => Err(Stop::Failure(Failure::WrongType)),
        }
    }

    /// The items of a value stored in as many targets; each is wholly stored before the next.
    #[cycle(value)]
    #[inline(never)]
    #[tactic(auto, using(crate::proofs::WaitLemmas::waiting), unfolding(star_meaning::specs::Expressions::store_items))]
    fn store_items(&self, run: &mut Run, trees: &[Expr], value: Value) -> Result<(), Stop>
        requires nests { Nests self.now.depth (F.pre self.now.call) (F.post self.now.call) }
        requires value { Fits run.old.machine value }
        ensures gives { Gives (spec.target_items (fixed self.now.given) self.now.depth trees.now value (world run.old)) result (world run.new) }
        ensures goes { Goes run.old run.new }
    {
        let items = run.unpacked(trees.len(), value)?;
        self.store_each(run, trees, items.as_slice())
    }

    #[cycle(value)]
    #[tactic(auto, using(crate::proofs::WaitLemmas::waiting))]
    fn store_each(&self, run: &mut Run, trees: &[Expr], items: &[Value]) -> Result<(), Stop>
        requires nests { Nests self.now.depth (F.pre self.now.call) (F.post self.now.call) }
        requires items { AllFit run.old.machine items.now }
        ensures gives { Gives (spec.each_target (fixed self.now.given) self.now.depth trees.now items.now (world run.old)) result (world run.new) }
        ensures goes { Goes run.old run.new }
    {
        for (place, tree) in trees.iter().enumerate() {
            let Some(item) = item_at(items, place) else {
                return Ok(());
            };
            let item = item.copy(self.alloc)?;
            self.stored(run, tree, item)?;
        }
        Ok(())
    }

    /// A value stored in targets, which are a tuple where they are several.
    #[cycle(value)]
    #[tactic(auto, using(crate::proofs::WaitLemmas::waiting))]
    pub fn store_in(&self, run: &mut Run, trees: &[Expr], value: Value) -> Result<(), Stop>
        requires nests { Nests self.now.depth (F.pre self.now.call) (F.post self.now.call) }
        requires value { Fits run.old.machine value }
        ensures gives { Gives (spec.targets (fixed self.now.given) self.now.depth trees.now value (world run.old)) result (world run.new) }
        ensures goes { Goes run.old run.new }
    {
        match trees {
            [only] => self.stored(run, only, value),
            _ => self.store_items(run, trees, value),
        }
    }

    #[cycle(value)]
    #[inline(never)]
    #[tactic(auto, using(crate::proofs::WaitLemmas::waiting))]
    fn store_place(
        &self,
        run: &mut Run,
        head: &Expr,
        all: &[Suffix<Expr>],
        value: Value,
    ) -> Result<(), Stop>
        requires nests { Nests self.now.depth (F.pre self.now.call) (F.post self.now.call) }
        requires value { Fits run.old.machine value }
        ensures gives { Gives (and_then (spec.place_of (fixed self.now.given) self.now.depth head.now all.now (world run.old)) (λ at. store_at at.0 at.1 value)) result (world run.new) }
        ensures goes { Goes run.old run.new }
    {
        let (of, at) = self.place(run, head, all)?;
        run.store(&of, at, value)
    }

    /// What is indexed, and the index, of a place.
    #[cycle(value)]
    #[tactic(auto, using(crate::proofs::WaitLemmas::waiting))]
    pub fn place(
        &self,
        run: &mut Run,
        head: &Expr,
        all: &[Suffix<Expr>],
    ) -> Result<(Value, Value), Stop>
        requires { Nests self.now.depth (F.pre self.now.call) (F.post self.now.call) }
        ensures gives { Gives (spec.place_of (fixed self.now.given) self.now.depth head.now all.now (world run.old)) result (world run.new) }
        ensures goes { Goes run.old run.new }
        ensures of { IfOk result (λ parts. Fits run.new.machine parts.0) }
        ensures at { IfOk result (λ parts. Fits run.new.machine parts.1) }
    {
        match name_read(head, all) {
            Some(name) => {
                let value = run.input(&self.given, name)?;
                match all {
                    [_, more @ ..] => self.parts(run, more, value),
                    [] => Err(Stop::Failure(Failure::WrongType)),
                }
            }
            None => {
                let value = self.value(run, head)?;
                self.parts(run, all, value)
            }
        }
    }

    #[cycle(value)]
    #[tactic(auto, using(crate::proofs::WaitLemmas::waiting))]
    fn parts(&self, run: &mut Run, all: &[Suffix<Expr>], of: Value) -> Result<(Value, Value), Stop>
        requires nests { Nests self.now.depth (F.pre self.now.call) (F.post self.now.call) }
        requires of { Fits run.old.machine of }
        ensures gives { Gives (spec.place_parts (fixed self.now.given) self.now.depth all.now of (world run.old)) result (world run.new) }
        ensures goes { Goes run.old run.new }
        ensures of { IfOk result (λ parts. Fits run.new.machine parts.0) }
        ensures at { IfOk result (λ parts. Fits run.new.machine parts.1) }
    {
        let [front @ .., last] = all else {
            return Err(Stop::Failure(Failure::WrongType));
        };
        let value = self.suffixes(run, front, of)?;
        self.last_part(run, last, value)
    }

    /// What is indexed, with the index that the last suffix of a place is.
    #[cycle(value)]
    #[tactic(auto, using(crate::proofs::WaitLemmas::waiting))]
    fn last_part(
        &self,
        run: &mut Run,
        last: &Suffix<Expr>,
        of: Value,
    ) -> Result<(Value, Value), Stop>
        requires nests { Nests self.now.depth (F.pre self.now.call) (F.post self.now.call) }
        requires of { Fits run.old.machine of }
        ensures gives { Gives (spec.last_part (fixed self.now.given) self.now.depth last.now of (world run.old)) result (world run.new) }
        ensures goes { Goes run.old run.new }
        ensures of { IfOk result (λ parts. Fits run.new.machine parts.0) }
        ensures at { IfOk result (λ parts. Fits run.new.machine parts.1) }
    {
        match last {
            Suffix::Index(at) => {
                let at = self.value(run, at)?;
                Ok((of, at))
            }
            _ => {
                let _value = self.suffix(run, last, of)?;
                Err(Stop::Failure(Failure::WrongType))
            }
        }
    }
}
