//! Numbers.
ghost use Rattle.std.specs.Prelude.{◌≡◌, ◌≤◌, ◌<◌, true, pos};
ghost use Rattle.std.specs.List.{list_all};
ghost use Rattle.std.specs.Char.{digit_value};
ghost use Rattle.std.specs.Str.Parse.{digits_value};
ghost use Rattle.star_lexer.specs.Numbers as spec;
ghost use Rattle.star_lexer.specs.Chars.{is_in};

use crate::chars::{Class, is_in};
use crate::error::LexKind;

/// The widest number that a literal may write: 2^127 - 1.
const WIDEST: u128 = 170141183460469231731687303715884105727;

/// Each character is in the class.
pub fn all_in(class: Class, word: &[char]) -> bool
    ensures { result ≡ list_all (is_in class) word.now }
{
    word.iter().all(|c| is_in(class, *c))
}

fn digit(c: char) -> u32
    ensures value { result ≡ digit_value c }
    ensures within { result ≤ 36 }
{
    c.to_digit(36).unwrap_or(36)
}

/// The value of these digits, where it is not too wide.
pub fn value_of(digits: &[char], radix: u128) -> Result<i128, LexKind>
    requires some { 0 < radix }
    requires few { radix ≤ 16 }
    ensures { spec.fitting (digits_value radix digits.now) ≡ result }
{
    let mut value: u128 = 0;
    for c in digits {
        let digit = digit(*c) as u128;
        value = match value.checked_mul(radix) {
            Some(shifted) if shifted <= WIDEST - digit => shifted + digit,
            _ => return Err(LexKind::WideNumber),
        };
    }
    Ok(value as i128)
}

/// The digits that a prefix announces, where there are some and each is one.
#[tactic(auto, unfolding(crate::specs::Numbers::based))]
fn based(digit: Class, radix: u128, digits: &[char]) -> Result<i128, LexKind>
    requires some { 0 < radix }
    requires few { radix ≤ 16 }
    ensures { spec.fits (spec.based digit radix digits.now) ≡ result }
{
    if all_in(digit, digits) && !digits.is_empty() {
        value_of(digits, radix)
    } else {
        Err(LexKind::BadNumber)
    }
}

/// The digits of a decimal number, which has no 0 in front but where it is 0.
#[tactic(auto, unfolding(crate::specs::Numbers::decimal))]
fn decimal(word: &[char]) -> Result<i128, LexKind>
    ensures { spec.fits (spec.decimal word.now) ≡ result }
{
    if all_in(Class::Digit, word) && !(matches!(word, ['0', ..]) && word.len() > 1) {
        value_of(word, 10)
    } else {
        Err(LexKind::BadNumber)
    }
}

/// The number that a whole word writes.
#[tactic(auto, unfolding(crate::specs::Numbers::number, crate::specs::Numbers::numeral))]
pub fn number(word: &[char]) -> Result<i128, LexKind>
    ensures { spec.number word.now ≡ result }
{
    match word {
        ['0', 'x' | 'X', digits @ ..] => based(Class::Hex, 16, digits),
        ['0', 'o' | 'O', digits @ ..] => based(Class::Octal, 8, digits),
        _ => decimal(word),
    }
}
