//! Where a text stands in another.
ghost use Rattle.std.specs.Prelude.{◌≡◌, length};
ghost use Rattle.std.specs.Str.{chars};
ghost use Rattle.star_value.specs.Cutting.{CutsAt};
ghost use Rattle.star_value.specs.Texts as spec;

use chex_base::Text;

/// The first place of `what` in `of`, in code points from 0. The empty text stands at place 0. It
/// takes no memory, and time linear in both texts.
#[tactic(auto, using(crate::proofs::Places::spells))]
pub fn find(of: &Text, what: &Text) -> Option<usize>
    ensures { result ≡ spec.find of.now what.now }
{
    let (before, _) = cut(of.as_str(), what)?;
    Some(points(before))
}

/// Whether `of` starts with `what`. It takes no memory, and time linear in `what`.
pub fn starts_with(of: &Text, what: &Text) -> bool
    ensures { result ≡ spec.starts_with of.now what.now }
{
    of.as_str().starts_with(what.as_str())
}

/// Whether `of` ends with `what`. It takes no memory, and time linear in `what`.
pub fn ends_with(of: &Text, what: &Text) -> bool
    ensures { result ≡ spec.ends_with of.now what.now }
{
    of.as_str().ends_with(what.as_str())
}

/// What comes before the first place of `by` and what comes after it, if it stands in `text`.
pub(crate) fn cut<'a>(text: &'a str, by: &Text) -> Option<(&'a str, &'a str)>
    ensures { CutsAt (chars text.now) by.now result }
{
    text.split_once(by.as_str())
}

fn points(text: &str) -> usize
    ensures { result ≡ length (chars text.now) }
{
    text.chars().count()
}
