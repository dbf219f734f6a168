//! Expressions, at a level of calls.
ghost use Rattle.std.specs.Prelude.{map, IfOk};
ghost use Rattle.star_builtins.specs.Changes.{PairsFit};
ghost use Rattle.star_builtins.specs.Reached.{AllFit, Fits};
ghost use Rattle.star_meaning.specs.Expressions.{compared as comparison, signed as signs_of};
ghost use Rattle.star_meaning.specs.Steps.{Gives, and_then};
ghost use Rattle.star_meaning.specs.Values.{new_dict, new_list, new_tuple};
ghost use Rattle.star_meaning.specs.World.{operate};
ghost use Rattle.star_run.specs.Fixed.{fixed, meaning};
ghost use Rattle.star_run.specs.Nests.{Nests};
ghost use Rattle.star_run.specs.Parts as spec;
ghost use Rattle.star_run.specs.Running.{Goes, world};

use crate::entries::new_entry;
use crate::given::Given;
use crate::level::Level;
use crate::plain::{negation, text_value};
use crate::running::Run;
use chex_base::ObjectId;
use heap_store::Pairs;
use sqlite_items::Items;
use star_builtins::{Call, NamedValues};
use star_syntax::{Arm, ChainOp, CompareOp, Expr, Link, Named, Pair, UnaryOp};
use star_value::{Stop, Value, Values};
use std::alloc::Global;

impl<'p, F: Fn(Global, &Given<'_>, usize, &mut Run, ObjectId, Call) -> Result<Value, Stop>> Level<
    'p,
    F,
> {
    /// The value of an expression.
    #[cycle(value)]
    #[tactic(auto, using(crate::proofs::ExpressionCases::values_of_forms, crate::proofs::WaitLemmas::constants))]
    pub fn value(&self, run: &mut Run, tree: &Expr) -> Result<Value, Stop>
        requires { Nests self.now.depth (F.pre self.now.call) (F.post self.now.call) }
        ensures gives { Gives ((meaning (fixed self.now.given) self.now.depth tree.now).value (world run.old)) result (world run.new) }
        ensures goes { Goes run.old run.new }
        ensures fits { IfOk result (λ v. Fits run.new.machine v) }
    {
        match tree {
            Expr::Name(name) => run.name(name),
            Expr::Int(number) => run.constant(Value::Int(*number)),
            Expr::None => run.constant(Value::None),
            Expr::True => run.constant(Value::Bool(true)),
            Expr::False => run.constant(Value::Bool(false)),
            Expr::Paren(inner) => self.value(run, inner.get()),
            Expr::Text(text) => text_value(self.alloc, run, text),
            Expr::Tuple(items, _) => self.tuple(run, items.as_slice()),
            Expr::List(items, _) => self.list(run, items.as_slice()),
            Expr::ListOver(item, all) => self.list_over(run, item.get(), all.as_slice()),
            Expr::Dict(all, _) => self.dict(run, all.as_slice()),
            Expr::DictOver(key, value, all) => self.dict_over(
                run,
                key.get(),
                value.get(),
                all.as_slice(),
            ),
            Expr::Primary(head, all) => self.primary(run, head.get(), all.as_slice()),
            Expr::Signed(signs, operand) => self.signed(run, signs.as_slice(), operand.get()),
            Expr::Chain(_, first, links) => self.chain(run, first.get(), links.as_slice()),
            Expr::Compare(left, op, right) => self.compare(run, left.get(), *op, right.get()),
            Expr::Not(count, operand) => self.negated(run, *count, operand.get()),
            Expr::Conditional(arms, last) => self.conditional(run, arms.as_slice(), last.get()),
        }
    }

    /// The values of operands, from left to right.
    #[cycle(value)]
    #[tactic(auto, using(crate::proofs::WaitLemmas::waiting), unfolding(star_meaning::specs::Expressions::values, star_meaning::specs::Expressions::named_values))]
    pub fn values(&self, run: &mut Run, trees: &[Expr]) -> Result<Values, Stop>
        requires { Nests self.now.depth (F.pre self.now.call) (F.post self.now.call) }
        ensures gives { Gives (spec.operands (fixed self.now.given) self.now.depth trees.now (world run.old)) result (world run.new) }
        ensures goes { Goes run.old run.new }
        ensures fits { IfOk result (λ vs. AllFit run.new.machine vs) }
    {
        let mut values = Items::new(self.alloc);
        for tree in trees {
            let value = self.value(run, tree)?;
            values.push(value)?;
        }
        Ok(values)
    }

    /// The values of named arguments, with their names.
    #[cycle(value)]
    #[tactic(auto, using(crate::proofs::WaitLemmas::waiting), unfolding(star_meaning::specs::Expressions::values, star_meaning::specs::Expressions::named_values))]
    pub fn named(&self, run: &mut Run, all: &[Named<Expr>]) -> Result<NamedValues, Stop>
        requires { Nests self.now.depth (F.pre self.now.call) (F.post self.now.call) }
        ensures gives { Gives (spec.named_operands (fixed self.now.given) self.now.depth all.now (world run.old)) result (world run.new) }
        ensures goes { Goes run.old run.new }
        ensures fits { IfOk result (λ entries. AllFit run.new.machine (map (λ entry. entry.1) entries)) }
    {
        let mut values = Items::new(self.alloc);
        for one in all {
            let value = self.value(run, &one.value)?;
            let name = one.name.copy(self.alloc)?;
            values.push((name, value))?;
        }
        Ok(values)
    }

    /// Expressions that are a tuple where they are several.
    #[tactic(auto, using(crate::proofs::WaitLemmas::waiting))]
    pub fn tests(&self, run: &mut Run, trees: &[Expr]) -> Result<Value, Stop>
        requires { Nests self.now.depth (F.pre self.now.call) (F.post self.now.call) }
        ensures gives { Gives (spec.tests (fixed self.now.given) self.now.depth trees.now (world run.old)) result (world run.new) }
        ensures goes { Goes run.old run.new }
        ensures fits { IfOk result (λ v. Fits run.new.machine v) }
    {
        match trees {
            [only] => self.value(run, only),
            _ => self.tuple(run, trees),
        }
    }

    #[cycle(value)]
    #[inline(never)]
    #[tactic(auto, using(crate::proofs::WaitLemmas::waiting))]
    fn tuple(&self, run: &mut Run, items: &[Expr]) -> Result<Value, Stop>
        requires { Nests self.now.depth (F.pre self.now.call) (F.post self.now.call) }
        ensures gives { Gives (and_then (spec.operands (fixed self.now.given) self.now.depth items.now (world run.old)) (λ vs. operate (new_tuple vs))) result (world run.new) }
        ensures goes { Goes run.old run.new }
        ensures fits { IfOk result (λ v. Fits run.new.machine v) }
    {
        let values = self.values(run, items)?;
        run.tuple(values)
    }

    #[cycle(value)]
    #[inline(never)]
    #[tactic(auto, using(crate::proofs::WaitLemmas::waiting))]
    fn list(&self, run: &mut Run, items: &[Expr]) -> Result<Value, Stop>
        requires { Nests self.now.depth (F.pre self.now.call) (F.post self.now.call) }
        ensures gives { Gives (and_then (spec.operands (fixed self.now.given) self.now.depth items.now (world run.old)) (λ vs. operate (new_list vs))) result (world run.new) }
        ensures goes { Goes run.old run.new }
        ensures fits { IfOk result (λ v. Fits run.new.machine v) }
    {
        let values = self.values(run, items)?;
        run.list(values)
    }

    #[cycle(value)]
    #[inline(never)]
    #[tactic(auto, using(crate::proofs::WaitLemmas::waiting))]
    fn dict(&self, run: &mut Run, all: &[Pair<Expr>]) -> Result<Value, Stop>
        requires { Nests self.now.depth (F.pre self.now.call) (F.post self.now.call) }
        ensures gives { Gives (and_then (spec.pairs (fixed self.now.given) self.now.depth all.now (world run.old)) (λ done. operate (new_dict done))) result (world run.new) }
        ensures goes { Goes run.old run.new }
        ensures fits { IfOk result (λ v. Fits run.new.machine v) }
    {
        let pairs = self.pairs(run, all)?;
        run.dict(pairs)
    }

    /// The pairs of a display: a key, its value, the weight of the key, before the next pair.
    #[cycle(value)]
    #[tactic(auto, using(crate::proofs::WaitLemmas::waiting, crate::proofs::LoopLemmas::pairs_form))]
    fn pairs(&self, run: &mut Run, all: &[Pair<Expr>]) -> Result<Pairs, Stop>
        requires { Nests self.now.depth (F.pre self.now.call) (F.post self.now.call) }
        ensures gives { Gives (spec.pairs (fixed self.now.given) self.now.depth all.now (world run.old)) result (world run.new) }
        ensures goes { Goes run.old run.new }
        ensures fits { IfOk result (λ pairs. PairsFit run.new.machine pairs) }
    {
        let mut pairs = Pairs::new(self.alloc);
        for pair in all {
            let key = self.value(run, &pair.key)?;
            let value = self.value(run, &pair.value)?;
            new_entry(self.alloc, run, &mut pairs, &key, value)?;
        }
        Ok(pairs)
    }

    /// A value, and what the further operands of its chain make of it. `or` and `and` stop early.
    #[cycle(value)]
    #[inline(never)]
    #[tactic(auto, using(crate::proofs::WaitLemmas::waiting))]
    fn chain(&self, run: &mut Run, first: &Expr, links: &[Link<Expr>]) -> Result<Value, Stop>
        requires { Nests self.now.depth (F.pre self.now.call) (F.post self.now.call) }
        ensures gives { Gives (and_then ((meaning (fixed self.now.given) self.now.depth first.now).value (world run.old)) (spec.linked (fixed self.now.given) self.now.depth links.now)) result (world run.new) }
        ensures goes { Goes run.old run.new }
        ensures fits { IfOk result (λ v. Fits run.new.machine v) }
    {
        let mut value = self.value(run, first)?;
        for link in links {
            match link.op {
                ChainOp::Or => {
                    if run.is_true(&value) {
                        return Ok(value);
                    }
                    drop(value);
                    run.charge(1)?;
                    value = self.value(run, &link.operand)?;
                }
                ChainOp::And => {
                    if !run.is_true(&value) {
                        return Ok(value);
                    }
                    drop(value);
                    run.charge(1)?;
                    value = self.value(run, &link.operand)?;
                }
                ChainOp::Binary(op) => {
                    let right = self.value(run, &link.operand)?;
                    value = run.binary(self.given.program, op, value, right)?;
                }
            }
        }
        Ok(value)
    }

    #[cycle(value)]
    #[inline(never)]
    #[tactic(auto, using(crate::proofs::WaitLemmas::waiting))]
    fn compare(
        &self,
        run: &mut Run,
        left: &Expr,
        op: CompareOp,
        right: &Expr,
    ) -> Result<Value, Stop>
        requires { Nests self.now.depth (F.pre self.now.call) (F.post self.now.call) }
        ensures gives { Gives (and_then ((meaning (fixed self.now.given) self.now.depth left.now).value (world run.old)) (λ x v. and_then ((meaning (fixed self.now.given) self.now.depth right.now).value v) (λ y. operate (comparison op x y)))) result (world run.new) }
        ensures goes { Goes run.old run.new }
        ensures fits { IfOk result (λ v. Fits run.new.machine v) }
    {
        let left = self.value(run, left)?;
        let right = self.value(run, right)?;
        run.compared(op, &left, &right)
    }

    #[cycle(value)]
    #[inline(never)]
    #[tactic(auto, using(crate::proofs::WaitLemmas::waiting))]
    fn signed(&self, run: &mut Run, signs: &[UnaryOp], operand: &Expr) -> Result<Value, Stop>
        requires { Nests self.now.depth (F.pre self.now.call) (F.post self.now.call) }
        ensures gives { Gives (and_then ((meaning (fixed self.now.given) self.now.depth operand.now).value (world run.old)) (signs_of signs.now)) result (world run.new) }
        ensures goes { Goes run.old run.new }
        ensures fits { IfOk result (λ v. Fits run.new.machine v) }
    {
        let value = self.value(run, operand)?;
        run.signed(signs, value)
    }

    /// Each `not` turns the truth of the operand, and takes a step.
    #[cycle(value)]
    #[inline(never)]
    #[tactic(auto, using(crate::proofs::WaitLemmas::waiting))]
    fn negated(&self, run: &mut Run, count: usize, operand: &Expr) -> Result<Value, Stop>
        requires { Nests self.now.depth (F.pre self.now.call) (F.post self.now.call) }
        ensures gives { Gives (and_then ((meaning (fixed self.now.given) self.now.depth operand.now).value (world run.old)) (spec.negation count)) result (world run.new) }
        ensures goes { Goes run.old run.new }
        ensures fits { IfOk result (λ v. Fits run.new.machine v) }
    {
        let value = self.value(run, operand)?;
        negation(run, count, &value)
    }

    /// The value of the first arm whose condition holds, or else the last value.
    #[cycle(value)]
    #[inline(never)]
    #[tactic(auto, using(crate::proofs::WaitLemmas::waiting))]
    fn conditional(&self, run: &mut Run, arms: &[Arm<Expr>], last: &Expr) -> Result<Value, Stop>
        requires { Nests self.now.depth (F.pre self.now.call) (F.post self.now.call) }
        ensures gives { Gives (spec.arms (fixed self.now.given) self.now.depth arms.now last.now (world run.old)) result (world run.new) }
        ensures goes { Goes run.old run.new }
        ensures fits { IfOk result (λ v. Fits run.new.machine v) }
    {
        for arm in arms {
            let test = self.value(run, &arm.condition)?;
            run.charge(1)?;
            if run.is_true(&test) {
                return self.value(run, &arm.value);
            }
        }
        self.value(run, last)
    }
}
