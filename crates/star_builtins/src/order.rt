//! The order of two values, by a walk through what they hold, with its charges.
ghost use Rattle.std.specs.Prelude.{◌≡◌, ℕ, IsTrue, slice_get};
ghost use Rattle.std.specs.List.{list_all};
ghost use Rattle.star_builtins.specs.Reached.{Answers, store};
ghost use Rattle.star_builtins.specs.Weighing as weighing;
ghost use Rattle.star_builtins.specs.Weighing.{Weighs, verdict_of};
ghost use Rattle.star_meaning.specs.Comparing as spec;
ghost use Rattle.star_meaning.specs.State as state;
ghost use Rattle.star_meaning.specs.Steps.{Store};
ghost use Rattle.star_value.specs.declared.value.Value.{out-Value};
ghost use Rattle.star_meaning.specs.Validity.{fits, is_dict, is_list};

use crate::charges::charge_key;
use crate::parts::{dict_of, int_of, list_of, text_of, tuple_of};
use crate::weighing::{
    is_same, own_part, weigh_bool, weigh_builtin, weigh_function, weigh_int, weigh_none,
    weigh_range, weigh_text,
};
use chex_base::ObjectId;
use heap_store::Machine;
use star_value::{Failure, Meter, Value};
use std::cmp::Ordering;

/// How many containers may nest in one another.
const DEEPEST: u32 = 64;

/// Whether two values are equal.
#[tactic(auto, using(crate::proofs::Weighed::equal_failed, crate::proofs::Weighed::equal_went))]
pub fn equal(
    left: &Value,
    right: &Value,
    machine: &Machine,
    meter: &mut Meter,
) -> Result<bool, Failure>
    requires left { IsTrue (fits machine.now.state.objects left.now) }
    requires right { IsTrue (fits machine.now.state.objects right.now) }
    ensures { Answers (spec.equal left.now right.now (store machine.now meter.old.left)) result (store machine.now meter.new.left) }
{
    let walk = Walk {
        machine,
        by_length: true,
    };
    let order = walk.compared(left, right, DEEPEST, meter)?;
    Ok(is_same(order))
}

/// What an operator of order answers, by the order of its operands.
#[derive(Clone, Copy)]
pub struct Holds {
    pub before: bool,
    pub same: bool,
    pub after: bool,
}

/// Whether the order of two values is one of those that hold. Values that have no order are of a
/// wrong type.
#[tactic(auto, using(crate::proofs::Ordered::orders))]
pub fn in_order(
    holds: Holds,
    left: &Value,
    right: &Value,
    machine: &Machine,
    meter: &mut Meter,
) -> Result<bool, Failure>
    requires left { IsTrue (fits machine.now.state.objects left.now) }
    requires right { IsTrue (fits machine.now.state.objects right.now) }
    ensures { Answers (spec.by_order (spec.ordered_as holds.before holds.same holds.after) left.now right.now (store machine.now meter.old.left)) result (store machine.now meter.new.left) }
{
    if !are_ordered(left, right) {
        return Err(Failure::WrongType);
    }
    let walk = Walk {
        machine,
        by_length: false,
    };
    let order = walk.compared(left, right, DEEPEST, meter)?;
    answer(holds, order)
}

/// Whether two values have an order, if their items have.
#[tactic(auto, using(crate::proofs::Outs::outs, crate::proofs::Ordered::kinds))]
fn are_ordered(left: &Value, right: &Value) -> bool
    ensures { result ≡ spec.are_ordered (out-Value left.now) (out-Value right.now) }
{
    match left {
        Value::Int(_) => int_of(right).is_some(),
        Value::Text(_) => text_of(right).is_some(),
        Value::Tuple(_) => tuple_of(right).is_some(),
        Value::List(_) => list_of(right).is_some(),
        _ => false,
    }
}

fn answer(holds: Holds, order: Option<Ordering>) -> Result<bool, Failure>
    ensures { (s : Store ℕ) → Answers (spec.ordered_as holds.before holds.same holds.after (verdict_of order) s) result s }
{
    match order {
        Some(Ordering::Less) => Ok(holds.before),
        Some(Ordering::Equal) => Ok(holds.same),
        Some(Ordering::Greater) => Ok(holds.after),
        None => Err(Failure::WrongType),
    }
}

/// How containers are walked: with `by_length` two lists of different lengths are unequal before
/// any item is looked at.
#[derive(Clone, Copy)]
struct Walk<'a> {
    machine: &'a Machine,
    by_length: bool,
}

impl<'a> Walk<'a> {
    /// The order of two values, inside which so many more containers may nest.
    #[cycle(compared)]
    #[tactic(auto, using(crate::proofs::Weighed::forms, crate::proofs::Held::references, crate::proofs::Held::shapes))]
    fn compared(
        &self,
        left: &Value,
        right: &Value,
        deeper: u32,
        meter: &mut Meter,
    ) -> Result<Option<Ordering>, Failure>
        requires left { IsTrue (fits self.now.machine.now.state.objects left.now) }
        requires right { IsTrue (fits self.now.machine.now.state.objects right.now) }
        ensures { Weighs (spec.compared self.now.by_length deeper left.now right.now (store self.now.machine.now meter.old.left)) result (store self.now.machine.now meter.new.left) }
    {
        meter.charge(own_part(left, right))?;
        match left {
            Value::None => Ok(weigh_none(right)),
            Value::Bool(left) => Ok(weigh_bool(*left, right)),
            Value::Int(left) => Ok(weigh_int(*left, right)),
            Value::Text(left) => Ok(weigh_text(left, right)),
            Value::Tuple(items) => match tuple_of(right) {
                Some(others) => self.sequences(items.as_slice(), others, deeper, meter),
                None => Ok(None),
            },
            Value::Range(left) => Ok(weigh_range(left, right)),
            Value::List(id) => match list_of(right) {
                Some(other) => self.lists(*id, other, deeper, meter),
                None => Ok(None),
            },
            Value::Dict(id) => match dict_of(right) {
                Some(other) => self.tables(*id, other, deeper, meter),
                None => Ok(None),
            },
            Value::Function(left) => Ok(weigh_function(*left, right)),
            Value::Builtin(left) => Ok(weigh_builtin(*left, right)),
        }
    }

    /// The order of two lists, by their items.
    #[cycle(compared)]
    #[tactic(auto, using(crate::proofs::Weighed::forms, crate::proofs::Held::references, crate::proofs::Held::shapes))]
    fn lists(
        &self,
        left: ObjectId,
        right: ObjectId,
        deeper: u32,
        meter: &mut Meter,
    ) -> Result<Option<Ordering>, Failure>
        requires left { IsTrue (is_list (slice_get self.now.machine.now.state.objects left)) }
        requires right { IsTrue (is_list (slice_get self.now.machine.now.state.objects right)) }
        ensures { Weighs (weighing.sequences self.now.by_length deeper (state.list self.now.machine.now.state left) (state.list self.now.machine.now.state right) (store self.now.machine.now meter.old.left)) result (store self.now.machine.now meter.new.left) }
    {
        let items = self.machine.list(left);
        let others = self.machine.list(right);
        self.sequences(items, others, deeper, meter)
    }

    /// The order of two containers, by their items.
    #[cycle(compared)]
    #[tactic(auto, using(crate::proofs::Weighed::forms, crate::proofs::Held::references, crate::proofs::Held::shapes))]
    fn sequences(
        &self,
        left: &[Value],
        right: &[Value],
        deeper: u32,
        meter: &mut Meter,
    ) -> Result<Option<Ordering>, Failure>
        requires left { IsTrue (list_all (fits self.now.machine.now.state.objects) left.now) }
        requires right { IsTrue (list_all (fits self.now.machine.now.state.objects) right.now) }
        ensures { Weighs (weighing.sequences self.now.by_length deeper left.now right.now (store self.now.machine.now meter.old.left)) result (store self.now.machine.now meter.new.left) }
    {
        if deeper == 0 {
            return Err(Failure::TooDeep);
        }
        if self.by_length && left.len() != right.len() {
            return Ok(None);
        }
        self.items(left, right, deeper - 1, meter)
    }

    /// The order of the first unequal items, and else that of the lengths.
    #[cycle(compared)]
    #[tactic(auto, using(crate::proofs::Weighed::forms, crate::proofs::Held::references, crate::proofs::Held::shapes))]
    fn items(
        &self,
        left: &[Value],
        right: &[Value],
        inner: u32,
        meter: &mut Meter,
    ) -> Result<Option<Ordering>, Failure>
        requires left { IsTrue (list_all (fits self.now.machine.now.state.objects) left.now) }
        requires right { IsTrue (list_all (fits self.now.machine.now.state.objects) right.now) }
        ensures { Weighs (weighing.items self.now.by_length inner left.now right.now (store self.now.machine.now meter.old.left)) result (store self.now.machine.now meter.new.left) }
    {
        for (place, item) in left.iter().enumerate() {
            if place >= right.len() {
                return Ok(Some(Ordering::Greater));
            }
            let order = self.compared(item, &right[place], inner, meter)?;
            if !is_same(order) {
                return Ok(order);
            }
        }
        if left.len() < right.len() {
            return Ok(Some(Ordering::Less));
        }
        Ok(Some(Ordering::Equal))
    }

    /// Whether two dicts are equal, by their pairs.
    #[cycle(compared)]
    #[tactic(auto, using(crate::proofs::Weighed::forms, crate::proofs::Held::references, crate::proofs::Held::shapes))]
    fn tables(
        &self,
        left: ObjectId,
        right: ObjectId,
        deeper: u32,
        meter: &mut Meter,
    ) -> Result<Option<Ordering>, Failure>
        requires left { IsTrue (is_dict (slice_get self.now.machine.now.state.objects left)) }
        requires right { IsTrue (is_dict (slice_get self.now.machine.now.state.objects right)) }
        ensures { Weighs (weighing.tables self.now.by_length deeper (state.dict self.now.machine.now.state left) (state.dict self.now.machine.now.state right) (store self.now.machine.now meter.old.left)) result (store self.now.machine.now meter.new.left) }
    {
        if deeper == 0 {
            return Err(Failure::TooDeep);
        }
        if self.machine.dict_len(left) != self.machine.dict_len(right) {
            return Ok(None);
        }
        self.pairs(left, right, deeper - 1, meter)
    }

    /// Whether each pair of a dict has an equal one in another dict.
    #[cycle(compared)]
    #[tactic(auto, using(crate::proofs::Weighed::forms, crate::proofs::Held::references, crate::proofs::Held::shapes))]
    fn pairs(
        &self,
        left: ObjectId,
        right: ObjectId,
        inner: u32,
        meter: &mut Meter,
    ) -> Result<Option<Ordering>, Failure>
        requires left { IsTrue (is_dict (slice_get self.now.machine.now.state.objects left)) }
        requires right { IsTrue (is_dict (slice_get self.now.machine.now.state.objects right)) }
        ensures { Weighs (weighing.pairs self.now.by_length inner (state.dict self.now.machine.now.state left) (state.dict self.now.machine.now.state right) (store self.now.machine.now meter.old.left)) result (store self.now.machine.now meter.new.left) }
    {
        for place in 0..self.machine.dict_len(left) {
            let (key, value) = self.machine.dict_at(left, place);
            charge_key(key, meter)?;
            let Some(other) = self.machine.dict_get(right, key) else {
                return Ok(None);
            };
            let order = self.compared(value, other, inner, meter)?;
            if !is_same(order) {
                return Ok(None);
            }
        }
        Ok(Some(Ordering::Equal))
    }
}
