//! The integer that a text spells.
ghost use Rattle.std.specs.Prelude.{◌≡◌, ◌+◌, ◌*◌, ◌^◌, ◌∷◌, ℕ, List, [], min, option_map};
ghost use Rattle.star_builtins.specs.Numerals.{continued, whole as signed};
ghost use Rattle.star_meaning.specs.Builtins as spec;
ghost use Rattle.star_meaning.specs.Values.{in_range};

use crate::integers::{below_zero, positive};
use chex_base::Text;

/// A size that no integer of 128 bits has; a greater one counts as this one.
const TOO_LARGE: u128 = (1 << 127) + 1;

/// What was read of a numeral: nothing, its sign, its sign and the size of its digits so far, or
/// that it is none.
#[derive(Clone, Copy)]
enum Reading {
    Nothing,
    Sign(bool),
    Size(bool, u128),
    Bad,
}

/// The integer of a text of an optional sign and one or more decimal digits: None where the text is
/// another one, and none in it where the integer does not fit 128 bits. It takes time linear in the
/// text, and no memory.
pub fn read_int(text: &Text) -> Option<Option<i128>>
    ensures { result ≡ option_map in_range (spec.read_int text.now) }
{
    let mut reading = Reading::Nothing;
    for c in text.as_str().chars() {
        reading = reading.after(c);
    }
    reading.integer()
}

impl Reading {
    /// What is read after one more character.
    #[tactic(auto, unfolding(crate::specs::Numerals::continued), using(crate::proofs::NumeralLemmas::after_sign))]
    fn after(self, c: char) -> Reading
        ensures { (more : List ℕ) → continued self (c ∷ more) ≡ continued result more }
    {
        match self {
            Reading::Nothing => first(c),
            Reading::Sign(negative) => with_digit(negative, 0, c),
            Reading::Size(negative, size) => with_digit(negative, size, c),
            Reading::Bad => Reading::Bad,
        }
    }

    /// The integer, if one was read.
    #[tactic(auto, unfolding(crate::specs::Numerals::continued, star_meaning::specs::Builtins::read_int))]
    fn integer(self) -> Option<Option<i128>>
        ensures { result ≡ continued self [] }
    {
        match self {
            Reading::Nothing => None,
            Reading::Sign(_) => None,
            Reading::Size(negative, size) => Some(whole(negative, size)),
            Reading::Bad => None,
        }
    }
}

/// What is read after the first character.
#[tactic(auto, using(crate::proofs::NumeralLemmas::firsts))]
fn first(c: char) -> Reading
    ensures { (more : List ℕ) → option_map in_range (spec.read_int (c ∷ more)) ≡ continued result more }
{
    match c {
        '-' => Reading::Sign(true),
        '+' => Reading::Sign(false),
        _ => with_digit(false, 0, c),
    }
}

/// What is read after one more digit behind others.
#[tactic(auto, using(crate::proofs::NumeralLemmas::digits_read))]
fn with_digit(negative: bool, size: u128, c: char) -> Reading
    ensures { (more : List ℕ) → option_map (signed negative) (spec.digits_from (Some size) (c ∷ more)) ≡ continued result more }
{
    match digit(c) {
        Some(digit) => Reading::Size(negative, behind(size, digit)),
        None => Reading::Bad,
    }
}

/// The decimal digit that a character is, if it is one.
fn digit(c: char) -> Option<u128>
    ensures { result ≡ spec.digit c }
{
    match c {
        '0'..='9' => Some((c as u32 - '0' as u32) as u128),
        _ => None,
    }
}

/// A size with one more digit behind it, where that is not too large.
fn behind(size: u128, digit: u128) -> u128
    ensures { result ≡ min (10 * size + digit) (2 ^ 127 + 1) }
{
    size.saturating_mul(10).saturating_add(digit).min(TOO_LARGE)
}

/// A size with its sign, where it fits 128 bits.
fn whole(negative: bool, size: u128) -> Option<i128>
    ensures { result ≡ signed negative size }
{
    if !negative {
        positive(size)
    } else if size == 0 {
        positive(0)
    } else {
        below_zero(size - 1)
    }
}
