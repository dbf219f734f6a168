//! Equality and order of keys.
ghost use Rattle.std.proofs.Common.{refl};
ghost use Rattle.std.specs.Prelude.{◌≡◌, map};
ghost use Rattle.std.specs.Cmp.{partial_equiv_from_equiv, po};
ghost use Rattle.std.specs.Cmp.Lexicographic.{slice_cmp};
ghost use Rattle.std.specs.Ordering.{as_partial_cmp, int_eq};
ghost use Rattle.star_value.specs.KeyLaws.{same_key_equiv};
ghost use Rattle.star_value.specs.KeyOrder as spec;
ghost use Rattle.star_value.specs.OrderLaws.{key_cmp_total, key_ties};
ghost use Rattle.star_value.specs.declared.key.Key.{out-Key};

use crate::Key;
use std::cmp::Ordering;

/// Two keys are equal where they are one value; a bool is no integer.
impl PartialEq for Key {
    ghost eq = { spec.same_key };

    ghost laws = { partial_equiv_from_equiv same_key_equiv };

    fn eq(&self, other: &Key) -> bool {
        same(self, other)
    }
}

impl Eq for Key {
    ghost laws = { same_key_equiv };
}

impl PartialOrd for Key {
    ghost partial_cmp = { as_partial_cmp spec.key_cmp };

    ghost laws = { po key_cmp_total key_ties };

    fn partial_cmp(&self, other: &Key) -> Option<Ordering> {
        Some(self.cmp(other))
    }
}

/// None, then bools, integers, texts and tuples. Of one kind the values are compared, and tuples by
/// their first part that differs; a tuple stands before those that it begins.
impl Ord for Key {
    ghost cmp = { spec.key_cmp };

    ghost total = { key_cmp_total };

    ghost matches_partial_cmp = { λ _ _. refl };

    ghost matches_eq = { key_ties };

    fn cmp(&self, other: &Key) -> Ordering {
        order(self, other)
    }
}

#[cycle(same)]
#[tactic(auto, using(crate::proofs::SameKeys::cases))]
fn same(key: &Key, other: &Key) -> bool
    ensures { result ≡ spec.same_key key.now other.now }
{
    match (key, other) {
        (Key::None, Key::None) => true,
        (Key::Bool(a), Key::Bool(b)) => a == b,
        (Key::Int(a), Key::Int(b)) => same_int(*a, *b),
        (Key::Text(a), Key::Text(b)) => a == b,
        (Key::Tuple(a), Key::Tuple(b)) => same_parts(a.as_slice(), b.as_slice()),
        _ => false,
    }
}

#[cycle(same)]
#[tactic(auto, using(crate::proofs::SameKeys::other_length))]
fn same_parts(keys: &[Key], others: &[Key]) -> bool
    ensures { result ≡ spec.all_hold (map spec.same_key keys.now) others.now }
{
    if keys.len() != others.len() {
        return false;
    }
    for (at, key) in keys.iter().enumerate() {
        if !same(key, &others[at]) {
            return false;
        }
    }
    true
}

fn same_int(a: i128, b: i128) -> bool
    ensures { result ≡ int_eq a b }
{
    a == b
}

#[cycle(order)]
#[tactic(auto, using(crate::proofs::KeyOrders::cases))]
fn order(key: &Key, other: &Key) -> Ordering
    ensures { result ≡ spec.key_cmp key.now other.now }
{
    match (key, other) {
        (Key::Bool(a), Key::Bool(b)) => a.cmp(b),
        (Key::Int(a), Key::Int(b)) => a.cmp(b),
        (Key::Text(a), Key::Text(b)) => a.cmp(b),
        (Key::Tuple(a), Key::Tuple(b)) => order_of_parts(a.as_slice(), b.as_slice()),
        _ => kind_place(key).cmp(&kind_place(other)),
    }
}

#[cycle(order)]
fn order_of_parts(keys: &[Key], others: &[Key]) -> Ordering
    ensures { result ≡ slice_cmp spec.key_cmp keys.now others.now }
{
    for (at, key) in keys.iter().enumerate() {
        let Some(other) = others.get(at) else {
            return Ordering::Greater;
        };
        let order = order(key, other);
        if order != Ordering::Equal {
            return order;
        }
    }
    keys.len().cmp(&others.len())
}

fn kind_place(key: &Key) -> u8
    ensures { result ≡ spec.kind_place (out-Key key.now) }
{
    match key {
        Key::None => 0,
        Key::Bool(_) => 1,
        Key::Int(_) => 2,
        Key::Text(_) => 3,
        Key::Tuple(_) => 4,
    }
}
