//! Texts.
ghost use Rattle.std.specs.Prelude.{◌≡◌, ◌≤◌, ◌<◌, ◌++◌, suc, true, length, IfOk, OnOk};
ghost use Rattle.star_lexer.specs.Texts as spec;
ghost use Rattle.star_lexer.specs.Verdict.{Gives, blame, meant, of_char, of_meaning, of_part};

use crate::chars::{Class, first_chars, is_quote};
use crate::error::{Fault, LexKind};
use crate::number::{all_in, value_of};
use chex_base::Text;
use std::alloc::{AllocError, AllocFailed, Global};

/// How a text is written.
#[derive(Clone, Copy, Debug)]
pub struct Style {
    /// The quote that stands around the text.
    pub quote: char,
    /// It stands there three times.
    pub is_wide: bool,
    /// An `r` stands before: a backslash stands for itself.
    pub is_raw: bool,
}

/// What is wrong within a text.
#[derive(Clone, Copy, Debug)]
pub enum TextFault {
    /// It does not end.
    Open,
    /// No escape begins with a backslash.
    Escape,
}

/// What a part of a text stands for.
#[derive(Clone, Copy, Debug)]
pub enum Meaning {
    Nothing,
    Character(char),
    /// A backslash and this character.
    Kept(char),
}

/// A text begins here: a quote, or an `r` directly before one.
pub fn is_text_start(text: &[char]) -> bool
    ensures { result ≡ spec.is_text_start text.now }
{
    match text {
        ['r', c, ..] => is_quote(*c),
        [c, ..] => is_quote(*c),
        [] => false,
    }
}

/// How the text is written whose quotes are at the front.
fn quoted(is_raw: bool, text: &[char]) -> Style
    requires { 0 < length text.now }
    ensures { result ≡ spec.quoted is_raw text.now }
{
    let quote = text[0];
    let is_wide = matches!(text, [_, b, c, ..] if *b == quote && *c == quote);
    Style {
        quote,
        is_wide,
        is_raw,
    }
}

/// How the text at the front is written.
#[tactic(auto, unfolding(crate::specs::Texts::style_at))]
fn style_at(text: &[char]) -> Style
    requires { spec.is_text_start text.now ≡ true }
    ensures { result ≡ spec.style_at text.now }
{
    match text {
        ['r', more @ ..] => quoted(true, more),
        _ => quoted(false, text),
    }
}

/// How many quotes close a text.
fn delimiter_len(style: Style) -> usize
    ensures { result ≡ length (spec.delimiter style) }
{
    if style.is_wide { 3 } else { 1 }
}

/// How many characters open a text.
fn opening_len(style: Style) -> usize
    ensures value { result ≡ length (spec.opening style) }
    ensures some { 0 < result }
{
    if style.is_raw {
        1 + delimiter_len(style)
    } else {
        delimiter_len(style)
    }
}

/// The closing quotes are at the front.
fn closes(style: Style, text: &[char]) -> bool
    ensures { result ≡ spec.closes style text.now }
{
    let quote = style.quote;
    if style.is_wide {
        matches!(text, [a, b, c, ..] if *a == quote && *b == quote && *c == quote)
    } else {
        matches!(text, [a, ..] if *a == quote)
    }
}

/// The character that so many hexadecimal digits code, where its code is at most `most`.
#[tactic(auto, unfolding(crate::specs::Texts::code))]
fn code(count: usize, most: u32, digits: &[char]) -> Option<char>
    ensures { spec.code count most digits.now ≡ of_char result }
{
    if digits.len() != count || !all_in(Class::Hex, digits) {
        return None;
    }
    match value_of(digits, 16) {
        Ok(value) if value <= most as i128 => char::from_u32(value as u32),
        _ => None,
    }
}

/// What one character after a backslash stands for.
#[tactic(auto, unfolding(crate::specs::Texts::short_escape))]
fn short_escape(c: char) -> Option<Meaning>
    ensures { spec.short_escape c ≡ of_meaning result }
{
    match c {
        '\n' => Some(Meaning::Nothing),
        'n' => Some(Meaning::Character('\n')),
        'r' => Some(Meaning::Character('\r')),
        't' => Some(Meaning::Character('\t')),
        '\\' | '\'' | '"' => Some(Meaning::Character(c)),
        _ => None,
    }
}

/// A coded character, where there is one.
fn coded(c: Option<char>) -> Option<Meaning>
    ensures { of_meaning result ≡ of_char c }
{
    c.map(Meaning::Character)
}

/// What a whole escape stands for, given without its backslash.
#[tactic(auto, unfolding(crate::specs::Texts::escape))]
fn escape(word: &[char]) -> Option<Meaning>
    ensures { spec.escape word.now ≡ of_meaning result }
{
    match word {
        ['x', digits @ ..] => coded(code(2, 0x7F, digits)),
        ['u', digits @ ..] => coded(code(4, 0x10FFFF, digits)),
        ['U', digits @ ..] => coded(code(8, 0x10FFFF, digits)),
        [c] => short_escape(*c),
        _ => None,
    }
}

/// The escape at the front, after its backslash, and its length with the backslash.
fn escape_at(text: &[char]) -> Result<(Meaning, usize), TextFault>
    ensures value { spec.escape_at text.now ≡ of_part result }
    ensures within { IfOk result (λ p. (0 < p.1) × (p.1 ≤ suc (length text.now))) }
{
    let len = match text {
        ['x', ..] => 3,
        ['u', ..] => 5,
        ['U', ..] => 9,
        _ => 1,
    };
    let word = first_chars(text, len);
    match escape(word) {
        Some(meaning) => Ok((meaning, 1 + word.len())),
        None => Err(TextFault::Escape),
    }
}

/// The part at the front of the rest of a text, and its length.
#[tactic(auto, unfolding(crate::specs::Texts::part_at))]
fn part_at(style: Style, text: &[char]) -> Result<(Meaning, usize), TextFault>
    ensures value { spec.part_at style text.now ≡ of_part result }
    ensures within { IfOk result (λ p. (0 < p.1) × (p.1 ≤ length text.now)) }
{
    match text {
        [] => Err(TextFault::Open),
        ['\\', more @ ..] if !style.is_raw => escape_at(more),
        ['\\', c, ..] => Ok((Meaning::Kept(*c), 2)),
        ['\\'] => Err(TextFault::Open),
        ['\n', ..] if !style.is_wide => Err(TextFault::Open),
        [c, ..] => Ok((Meaning::Character(*c), 1)),
    }
}

/// Adds what a part stands for.
fn add(points: &mut Vec<char>, meaning: Meaning) -> Result<(), AllocFailed<char>>
    ensures { OnOk result (points.new.items ≡ points.old.items ++ meant meaning) }
{
    match meaning {
        Meaning::Nothing => Ok(()),
        Meaning::Character(c) => points.push(c),
        Meaning::Kept(c) => {
            points.push('\\')?;
            points.push(c)
        }
    }
}

/// An open text is at fault where it starts, an escape where it stands.
fn refusal(fault: TextFault, at: usize) -> Fault
    ensures { result ≡ blame fault at }
{
    match fault {
        TextFault::Open => Fault::Bad {
            kind: LexKind::OpenString,
            place: 0,
        },
        TextFault::Escape => Fault::Bad {
            kind: LexKind::BadEscape,
            place: at,
        },
    }
}

/// The value of the text at the front, and how many characters it takes. Takes time in proportion to it.
pub fn literal(alloc: Global, text: &[char]) -> Result<(Text, usize), Fault>
    requires { spec.is_text_start text.now ≡ true }
    ensures value { Gives result (spec.literal text.now) }
    ensures within { IfOk result (λ p. (0 < p.1) × (p.1 ≤ length text.now)) }
{
    let style = style_at(text);
    let mut points: Vec<char> = Vec::new(alloc);
    let mut at = opening_len(style);
    while at < text.len() {
        let left = &text[at..];
        if closes(style, left) {
            let value = Text::from_chars(alloc, points.as_slice())?;
            return Ok((value, at + delimiter_len(style)));
        }
        match part_at(style, left) {
            Ok((meaning, len)) => {
                add(&mut points, meaning)?;
                at += len;
            }
            Err(fault) => return Err(refusal(fault, at)),
        }
    }
    Err(refusal(TextFault::Open, at))
}
