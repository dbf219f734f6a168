//! White space, and code points that are taken off the ends of a text.
ghost use Rattle.std.specs.Prelude.{◌≡◌, ◌∷◌, ◌++◌, [], length, IfOk, OnOk, true, option_map};
ghost use Rattle.std.specs.List.{filter};
ghost use Rattle.std.specs.Str.{all_scalars, chars};
ghost use Rattle.star_value.specs.Cutting.{CutsAtPoint};
ghost use Rattle.star_value.specs.Texts as spec;

use crate::cutting::Texts;
use chex_base::{NoMemory, Text};
use sqlite_items::Items;
use std::alloc::Global;

/// The pieces of `of` between runs of white space, of which none is empty. White space is space,
/// `\t`, `\n`, `\r`, U+000B and U+000C, and nothing else. It takes time linear in `of`.
#[tactic(auto, using(crate::proofs::Places::spells, crate::proofs::Words::steps), unfolding(crate::specs::Texts::split_white))]
pub fn split_white(alloc: Global, of: &Text) -> Result<Texts, NoMemory>
    ensures { IfOk result (λ words. words ≡ spec.split_white of.now) }
{
    let mut words = Items::new(alloc);
    let mut rest = of.as_str();
    while let Some((word, after)) = cut_white(rest) {
        push_word(alloc, &mut words, word)?;
        rest = after;
    }
    push_word(alloc, &mut words, rest)?;
    Ok(words)
}

/// `of` without the code points of `set` at its left end, at its right end or at both, as asked for;
/// without white space where no set is given. It takes time linear in `of` for each code point of
/// the set.
#[tactic(auto, using(crate::proofs::Places::spells))]
pub fn strip(
    alloc: Global,
    of: &Text,
    set: Option<&Text>,
    left: bool,
    right: bool,
) -> Result<Text, NoMemory>
    ensures { IfOk result (λ text. text ≡ spec.strip of.now (option_map (λ set. set.now) set.entry) left right) }
{
    match set {
        None => Text::from_str(alloc, stripped(of.as_str(), &WHITE, left, right)),
        Some(set) => {
            let points = points(alloc, set)?;
            Text::from_str(alloc, stripped(of.as_str(), &points, left, right))
        }
    }
}

const WHITE: [char; 6] = [' ', '\t', '\n', '\r', '\u{b}', '\u{c}'];

/// The code points of a text.
fn points(alloc: Global, text: &Text) -> Result<Vec<char>, NoMemory>
    ensures points { IfOk result (λ points. points.items ≡ text.now) }
    ensures scalars { all_scalars text.now ≡ true }
{
    Ok(text.as_str().chars().collect::<Vec<char>>(alloc)?)
}

fn cut_white(text: &str) -> Option<(&str, &str)>
    ensures { CutsAtPoint (spec.is_among spec.white) (chars text.now) result }
{
    text.split_once(WHITE)
}

#[tactic(auto, using(crate::proofs::Words::pushes))]
fn push_word(alloc: Global, words: &mut Texts, word: &str) -> Result<(), NoMemory>
    ensures { OnOk result (words.new ≡ words.old ++ filter spec.is_some_text (chars word.now ∷ [])) }
{
    if !word.is_empty() {
        words.push(Text::from_str(alloc, word)?)?;
    }
    Ok(())
}

#[tactic(auto, unfolding(crate::specs::Texts::stripped))]
fn stripped<'a>(text: &'a str, set: &[char], left: bool, right: bool) -> &'a str
    requires { all_scalars set.now ≡ true }
    ensures { chars result.now ≡ spec.stripped (chars text.now) set.now left right }
{
    let rest = if left { without_front(text, set) } else { text };
    if right {
        return without_end(rest, set);
    }
    rest
}

fn without_front<'a>(text: &'a str, set: &[char]) -> &'a str
    ensures { chars result.now ≡ spec.without_front set.now (chars text.now) }
{
    text.trim_start_matches(set)
}

fn without_end<'a>(text: &'a str, set: &[char]) -> &'a str
    requires { all_scalars set.now ≡ true }
    ensures { chars result.now ≡ spec.without_end set.now (chars text.now) }
{
    text.trim_end_matches(set)
}
