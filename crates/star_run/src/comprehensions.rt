//! Comprehensions, at a level of calls. The loops of their `for` clauses stand in a list, since a
//! cell may have as many clauses as it is long.
ghost use Rattle.std.specs.Prelude.{◌≡◌, ◌≤◌, drop, IfOk, OnOk};
ghost use Rattle.star_builtins.specs.Reached.{Fits};
ghost use Rattle.star_meaning.specs.Steps.{Gives, and_then};
ghost use Rattle.star_meaning.specs.Values.{new_dict, new_list};
ghost use Rattle.star_meaning.specs.World.{acting};
ghost use Rattle.star_run.specs.Fixed.{fixed};
ghost use Rattle.star_run.specs.Gathers as gathers;
ghost use Rattle.star_run.specs.Gathers.{GatheredFit, GivesMade};
ghost use Rattle.star_run.specs.Loops as looping;
ghost use Rattle.star_run.specs.Loops.{IfReached, IsFor, IsReached, Stays};
ghost use Rattle.star_run.specs.Nests.{Nests};
ghost use Rattle.star_run.specs.Parts as spec;
ghost use Rattle.star_run.specs.Running.{Goes, HasCredit, IsPaid, world};

use crate::entries::put_entry;
use crate::gathered::{Element, Gathered};
use crate::given::Given;
use crate::level::Level;
use crate::loops::{Loop, Reached, begun, place_after};
use crate::names::unbound_of;
use crate::running::Run;
use chex_base::ObjectId;
use sqlite_items::Items;
use star_builtins::Call;
use star_syntax::{Clause, Expr};
use star_value::{Stop, Value};
use std::alloc::Global;

impl<'p, F: Fn(Global, &Given<'_>, usize, &mut Run, ObjectId, Call) -> Result<Value, Stop>> Level<
    'p,
    F,
> {
    /// The list of a comprehension.
    #[cycle(value)]
    #[inline(never)]
    #[tactic(auto, using(crate::proofs::WaitLemmas::waiting))]
    pub fn list_over(&self, run: &mut Run, item: &Expr, all: &[Clause<Expr>]) -> Result<Value, Stop>
        requires { Nests self.now.depth (F.pre self.now.call) (F.post self.now.call) }
        ensures gives { Gives (and_then (spec.listed (fixed self.now.given) self.now.depth all.now item.now (world run.old)) (λ vs. acting (new_list vs))) result (world run.new) }
        ensures goes { Goes run.old run.new }
        ensures fits { IfOk result (λ v. Fits run.new.machine v) }
    {
        let mut gathered = Gathered::new(self.alloc);
        self.comprehension(run, all, Element::Item(item), &mut gathered)?;
        let Gathered { items, pairs: _ } = gathered;
        run.made_list(items)
    }

    /// The dict of a comprehension.
    #[cycle(value)]
    #[inline(never)]
    #[tactic(auto, using(crate::proofs::WaitLemmas::waiting))]
    pub fn dict_over(
        &self,
        run: &mut Run,
        key: &Expr,
        value: &Expr,
        all: &[Clause<Expr>],
    ) -> Result<Value, Stop>
        requires { Nests self.now.depth (F.pre self.now.call) (F.post self.now.call) }
        ensures gives { Gives (and_then (spec.paired (fixed self.now.given) self.now.depth all.now key.now value.now (world run.old)) (λ done. acting (new_dict done))) result (world run.new) }
        ensures goes { Goes run.old run.new }
        ensures fits { IfOk result (λ v. Fits run.new.machine v) }
    {
        let mut gathered = Gathered::new(self.alloc);
        self.comprehension(run, all, Element::Pair(key, value), &mut gathered)?;
        let Gathered { items: _, pairs } = gathered;
        run.made_dict(pairs)
    }

    /// The first operand outside the block of the comprehension, a step, and the turns in the block.
    /// A first clause that is no `for`, as no text has it, makes no turns.
    #[cycle(value)]
    #[tactic(auto, using(crate::proofs::WaitLemmas::waiting))]
    fn comprehension(
        &self,
        run: &mut Run,
        all: &[Clause<Expr>],
        element: Element<'_>,
        gathered: &mut Gathered,
    ) -> Result<(), Stop>
        requires nests { Nests self.now.depth (F.pre self.now.call) (F.post self.now.call) }
        requires gathered { GatheredFit run.old.machine gathered.old }
        ensures gives { GivesMade (gathers.gathering (fixed self.now.given) self.now.depth all.now element.entry gathered.old (world run.old)) result gathered.new (world run.new) }
        ensures goes { Goes run.old run.new }
        ensures fit { OnOk result (GatheredFit run.new.machine gathered.new) }
        ensures credit { OnOk result (HasCredit run.new) }
        ensures paid { OnOk result (IsPaid run.old run.new) }
    {
        let [first, ..] = all else {
            return run.charge(1);
        };
        let Clause::For(_, over) = first else {
            return run.charge(1);
        };
        let of = self.value(run, over)?;
        run.charge(1)?;
        let block = unbound_of(self.alloc, all)?;
        run.enter_block(block)?;
        self.over(run, all, Reached { clause: 0, of }, element, gathered)?;
        run.leave_block();
        Ok(())
    }

    /// The turns of the clause that is reached, and of those after it. The innermost loop stands
    /// last in the list.
    #[cycle(value)]
    #[tactic(auto, using(crate::proofs::WaitLemmas::waiting))]
    fn over(
        &self,
        run: &mut Run,
        all: &[Clause<Expr>],
        first: Reached,
        element: Element<'_>,
        gathered: &mut Gathered,
    ) -> Result<(), Stop>
        requires nests { Nests self.now.depth (F.pre self.now.call) (F.post self.now.call) }
        requires first { IsReached all.now run.old.machine first }
        requires gathered { GatheredFit run.old.machine gathered.old }
        ensures gives { GivesMade (looping.loop_at (fixed self.now.given) self.now.depth all.now element.entry first.clause first.of gathered.old (world run.old)) result gathered.new (world run.new) }
        ensures goes { Goes run.old run.new }
        ensures fit { OnOk result (GatheredFit run.new.machine gathered.new) }
    {
        let mut loops = Items::new(self.alloc);
        loops.push(begun(run, first)?)?;
        while let Some(inner) = loops.pop() {
            let Loop {
                clause,
                of,
                count,
                place,
            } = inner;
            if place == count {
                run.unlock(&of);
                continue;
            }
            let item = run.item(&of, place)?;
            loops.push(Loop {
                clause,
                of,
                count,
                place: place_after(place, count),
            })?;
            let Some(next) = self.turn(run, all, clause, item, element, gathered)? else {
                continue;
            };
            loops.push(begun(run, next)?)?;
        }
        Ok(())
    }

    /// A turn of the clause at a place: its item is stored, and the clauses after it follow.
    #[cycle(value)]
    #[tactic(auto, using(crate::proofs::WaitLemmas::waiting))]
    fn turn(
        &self,
        run: &mut Run,
        all: &[Clause<Expr>],
        at: usize,
        item: Value,
        element: Element<'_>,
        gathered: &mut Gathered,
    ) -> Result<Option<Reached>, Stop>
        requires nests { Nests self.now.depth (F.pre self.now.call) (F.post self.now.call) }
        requires at { IsFor all.now at }
        requires item { Fits run.old.machine item }
        requires gathered { GatheredFit run.old.machine gathered.old }
        ensures gives { looping.Reaches (fixed self.now.given) self.now.depth all.now element.entry (looping.turn_at (fixed self.now.given) self.now.depth all.now element.entry at item gathered.old (world run.old)) result gathered.new (world run.new) }
        ensures goes { Goes run.old run.new }
        ensures fit { OnOk result (GatheredFit run.new.machine gathered.new) }
        ensures reached { IfReached result (λ next. IsReached all.now run.new.machine next) }
        ensures stays { OnOk result (Stays self.now.given.node run.old run.new) }
        ensures paid { OnOk result (IsPaid run.old run.new) }
    {
        let count = all.len();
        prove!(at < count);
        match &all[at] {
            Clause::For(targets, _) => {
                run.charge_weight(&item)?;
                self.store_in(run, targets.as_slice(), item)?;
                self.clauses(run, all, at + 1, element, gathered)
            }
            Clause::If(_) => unreachable!(),
        }
    }

    /// The clauses from a place on, until a `for` is reached. After the last the element is gathered.
    #[cycle(value)]
    #[tactic(auto, using(crate::proofs::WaitLemmas::waiting))]
    fn clauses(
        &self,
        run: &mut Run,
        all: &[Clause<Expr>],
        from: usize,
        element: Element<'_>,
        gathered: &mut Gathered,
    ) -> Result<Option<Reached>, Stop>
        requires nests { Nests self.now.depth (F.pre self.now.call) (F.post self.now.call) }
        requires gathered { GatheredFit run.old.machine gathered.old }
        ensures gives { looping.Reaches (fixed self.now.given) self.now.depth all.now element.entry (gathers.clauses (fixed self.now.given) self.now.depth (drop from all.now) element.entry gathered.old (world run.old)) result gathered.new (world run.new) }
        ensures goes { Goes run.old run.new }
        ensures fit { OnOk result (GatheredFit run.new.machine gathered.new) }
        ensures reached { IfReached result (λ next. IsReached all.now run.new.machine next) }
        ensures stays { OnOk result (Stays self.now.given.node run.old run.new) }
    {
        for at in from..all.len() {
            match &all[at] {
                Clause::If(condition) => {
                    let test = self.value(run, condition)?;
                    if !run.is_true(&test) {
                        return Ok(None);
                    }
                }
                Clause::For(_, over) => {
                    let of = self.value(run, over)?;
                    return Ok(Some(Reached { clause: at, of }));
                }
            }
        }
        self.gather(run, element, gathered)?;
        Ok(None)
    }

    /// The element of a turn: an item behind the others, or an entry.
    #[cycle(value)]
    #[tactic(auto, using(crate::proofs::WaitLemmas::waiting))]
    fn gather(
        &self,
        run: &mut Run,
        element: Element<'_>,
        gathered: &mut Gathered,
    ) -> Result<(), Stop>
        requires nests { Nests self.now.depth (F.pre self.now.call) (F.post self.now.call) }
        requires gathered { GatheredFit run.old.machine gathered.old }
        ensures gives { GivesMade (gathers.gather (fixed self.now.given) self.now.depth element.entry gathered.old (world run.old)) result gathered.new (world run.new) }
        ensures goes { Goes run.old run.new }
        ensures fit { OnOk result (GatheredFit run.new.machine gathered.new) }
    {
        match element {
            Element::Item(item) => {
                let value = self.value(run, item)?;
                gathered.items.push(value)?;
                Ok(())
            }
            Element::Pair(key, value) => {
                let key = self.value(run, key)?;
                let value = self.value(run, value)?;
                put_entry(self.alloc, run, &mut gathered.pairs, &key, value)
            }
        }
    }
}
