//! The piece at the front of a text.
ghost use Rattle.std.specs.Prelude.{◌≡◌, ◌≤◌, ◌<◌, length, take, Ok, IfOk};
ghost use Rattle.star_lexer.specs.Flaws as flaws;
ghost use Rattle.star_lexer.specs.Reading as spec;
ghost use Rattle.star_lexer.specs.Verdict.{Gives};

use crate::chars::{Class, first_chars, is_name_start, run_len};
use crate::error::{Fault, LexKind};
use crate::keywords::keyword_of;
use crate::literal::{is_text_start, literal};
use crate::marks::{mark_of, mark_text};
use crate::number::number;
use crate::reserved::reserved_of;
use chex_base::Text;
use star_syntax::{Mark, Token};
use std::alloc::Global;

/// How many characters of no token stand at the front.
#[tactic(auto, unfolding(crate::specs::Reading::blank_at))]
pub fn blank_at(text: &[char]) -> usize
    requires { 0 < length text.now }
    ensures value { result ≡ spec.blank_at text.now }
    ensures within { result ≤ length text.now }
{
    match text {
        [' ' | '\t', ..] => 1,
        ['#', ..] => run_len(Class::Line, text),
        ['\\', '\n', ..] => 2,
        _ => 0,
    }
}

/// The longest mark at the front.
#[tactic(auto, unfolding(crate::specs::Reading::mark_at))]
fn mark_at(text: &[char]) -> Result<(Mark, usize), LexKind>
    ensures value { result ≡ spec.mark_at text.now }
    ensures within { IfOk result (λ p. (0 < p.1) × (p.1 ≤ length text.now)) }
{
    let found = match mark_of(first_chars(text, 3)) {
        Some(mark) => Some(mark),
        None => match mark_of(first_chars(text, 2)) {
            Some(mark) => Some(mark),
            None => mark_of(first_chars(text, 1)),
        },
    };
    match found {
        Some(mark) => Ok((mark, mark_text(mark).len())),
        None => Err(LexKind::BadCharacter),
    }
}

/// What is wrong with a token as a whole.
fn at_start(kind: LexKind) -> Fault
    ensures { result ≡ Fault.Bad kind 0 }
{
    Fault::Bad { kind, place: 0 }
}

/// The name or keyword that a word is.
fn word_token(alloc: Global, word: &[char]) -> Result<Token, Fault>
    ensures { Gives result (flaws.here (spec.word_token word.now)) }
{
    match (keyword_of(word), reserved_of(word)) {
        (Some(keyword), _) => Ok(Token::Word(keyword)),
        (None, Some(_)) => Err(at_start(LexKind::ReservedWord)),
        (None, None) => Ok(Token::Name(Text::from_chars(alloc, word)?)),
    }
}

/// The token at the front, and its length.
#[tactic(auto, unfolding(crate::specs::Reading::token_at))]
pub fn token_at(alloc: Global, text: &[char]) -> Result<(Token, usize), Fault>
    requires { 0 < length text.now }
    ensures given { Gives result (spec.token_at text.now) }
    ensures within { IfOk result (λ p. (0 < p.1) × (p.1 ≤ length text.now)) }
{
    let c = text[0];
    if is_text_start(text) {
        let (value, n) = literal(alloc, text)?;
        Ok((Token::Text(value), n))
    } else if is_name_start(c) {
        let n = run_len(Class::Name, text);
        Ok((word_token(alloc, &text[..n])?, n))
    } else if c.is_ascii_digit() {
        let n = run_len(Class::Name, text);
        match number(&text[..n]) {
            Ok(value) => Ok((Token::Int(value), n)),
            Err(kind) => Err(at_start(kind)),
        }
    } else {
        match mark_at(text) {
            Ok((mark, n)) => Ok((Token::Mark(mark), n)),
            Err(kind) => Err(at_start(kind)),
        }
    }
}
