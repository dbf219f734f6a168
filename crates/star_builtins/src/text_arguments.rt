//! Arguments that are texts. How many there are is looked at first, and then each of them in order.
ghost use Rattle.std.specs.Prelude.{◌<◌, OnOk, length};
ghost use Rattle.star_builtins.specs.TextRows.{ChecksText, ChoosesOne, ChoosesOptional, ChoosesTwo};

use crate::arguments::{into_text, one, optional, two};
use chex_base::Text;
use star_value::{Failure, Values};

/// The only argument, a text.
pub fn one_text(values: Values) -> Result<Text, Failure>
    ensures { ChoosesOne values result }
{
    let value = one(values)?;
    into_text(value)
}

/// The only argument, a text, or none.
pub fn optional_text(values: Values) -> Result<Option<Text>, Failure>
    ensures { ChoosesOptional values result }
{
    let Some(value) = optional(values)? else {
        return Ok(None);
    };
    let text = into_text(value)?;
    Ok(Some(text))
}

/// Two arguments, both texts.
pub fn two_texts(values: Values) -> Result<(Text, Text), Failure>
    ensures { ChoosesTwo values result }
{
    let (first, second) = two(values)?;
    let left = into_text(first)?;
    let right = into_text(second)?;
    Ok((left, right))
}

/// An empty text is BadText.
#[tactic(auto, using(crate::proofs::TextLemmas::is_empty, crate::proofs::TextLemmas::is_some))]
pub fn check_not_empty(text: &Text) -> Result<(), Failure>
    ensures row { ChecksText text.now result }
    ensures ok { OnOk result (0 < length text.now) }
{
    if text.len() == 0 {
        return Err(Failure::BadText);
    }
    Ok(())
}
