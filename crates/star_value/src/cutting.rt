//! Texts that are cut into pieces, and pieces that are joined.
ghost use Rattle.std.specs.Prelude.{◌≡◌, ◌<◌, length, IfOk};
ghost use Rattle.star_value.specs.Texts as spec;

use crate::finding::cut;
use chex_base::{NoMemory, Text};
use sqlite_items::Items;
use std::alloc::Global;

/// Texts in order, which contracts see as a list.
pub type Texts = Items<Text>;

/// The pieces of `of` between the places of `by`, which are found from the left and do not overlap.
/// A piece may be empty, and there is one piece more than there are places. It takes time linear in
/// `of` and, for each piece, in `by`.
#[tactic(auto, using(crate::proofs::Places::spells, crate::proofs::Pieces::split_steps))]
pub fn split(alloc: Global, of: &Text, by: &Text) -> Result<Texts, NoMemory>
    requires { 0 < length by.now }
    ensures pieces { IfOk result (λ pieces. pieces ≡ spec.split of.now by.now) }
    ensures cuts { IfOk result (λ pieces. spec.IsSplit of.now by.now pieces) }
{
    let mut pieces = Items::new(alloc);
    let mut rest = of.as_str();
    while let Some((piece, after)) = cut(rest, by) {
        pieces.push(Text::from_str(alloc, piece)?)?;
        rest = after;
    }
    pieces.push(Text::from_str(alloc, rest)?)?;
    Ok(pieces)
}

/// `of` with `new` in place of each `old`, which are found from the left and do not overlap. It
/// takes time linear in `of`, in what it answers and, for each place, in `old`.
#[tactic(auto, using(crate::proofs::Places::spells, crate::proofs::Pieces::replace_steps))]
pub fn replace(alloc: Global, of: &Text, old: &Text, new: &Text) -> Result<Text, NoMemory>
    requires { 0 < length old.now }
    ensures { IfOk result (λ text. text ≡ spec.replace of.now old.now new.now) }
{
    let mut text = Text::new(alloc);
    let mut rest = of.as_str();
    while let Some((piece, left)) = cut(rest, old) {
        text.push_str(piece)?;
        text.push_text(new)?;
        rest = left;
    }
    text.push_str(rest)?;
    Ok(text)
}

/// The texts in order, with `by` between each two; no texts give the empty text. It takes time
/// linear in what it answers.
pub fn join(alloc: Global, by: &Text, parts: &[Text]) -> Result<Text, NoMemory>
    ensures { IfOk result (λ text. text ≡ spec.join by.now parts.now) }
{
    let [first, rest @ ..] = parts else {
        return Ok(Text::new(alloc));
    };
    let mut text = first.copy(alloc)?;
    for part in rest {
        text.push_text(by)?;
        text.push_text(part)?;
    }
    Ok(text)
}
