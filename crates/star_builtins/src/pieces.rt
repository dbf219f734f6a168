//! The pieces of text in which values are written. Each is charged, one step a code point, before
//! it is put at the end of a text.
ghost use Rattle.std.specs.Prelude.{◌≡◌, ℕ, length};
ghost use Rattle.std.specs.Str.{chars};
ghost use Rattle.star_builtins.specs.Pieces as spec;
ghost use Rattle.star_builtins.specs.Pieces.{Keeps};
ghost use Rattle.star_builtins.specs.Shows.{Shows, onto};
ghost use Rattle.star_meaning.specs.Showing.{made};
ghost use Rattle.star_meaning.specs.State.{State};

use chex_base::Text;
use star_value::{Meter, Stop};

/// Charges a word and writes it.
#[tactic(auto, using(crate::proofs::Written::writing))]
pub fn write_word(word: &str, meter: &mut Meter, out: &mut Text) -> Result<(), Stop>
    ensures gives { (s : State ℕ) → Shows (onto out.old (made (chars word.now)) (record { state = s; left = meter.old.left })) result (record { state = s; left = meter.new.left }) out.new }
    ensures keeps { Keeps out.old out.new }
{
    meter.charge(points(word) as u64)?;
    out.push_str(word)?;
    Ok(())
}

/// Charges a text and writes it.
#[tactic(auto, using(crate::proofs::Written::writing))]
pub fn write_text(text: &Text, meter: &mut Meter, out: &mut Text) -> Result<(), Stop>
    ensures gives { (s : State ℕ) → Shows (onto out.old (made text.now) (record { state = s; left = meter.old.left })) result (record { state = s; left = meter.new.left }) out.new }
    ensures keeps { Keeps out.old out.new }
{
    meter.charge(text.len() as u64)?;
    out.push_text(text)?;
    Ok(())
}

/// Charges and writes the separator before the piece of a place.
#[tactic(auto, using(crate::proofs::Written::writing))]
pub fn write_separator(place: usize, meter: &mut Meter, out: &mut Text) -> Result<(), Stop>
    ensures gives { (s : State ℕ) → Shows (onto out.old (spec.separator place) (record { state = s; left = meter.old.left })) result (record { state = s; left = meter.new.left }) out.new }
    ensures keeps { Keeps out.old out.new }
{
    if place > 0 {
        write_word(", ", meter, out)?;
    }
    Ok(())
}

/// The mark after so many items of a tuple: a tuple of one item has a comma after it.
#[tactic(auto, using(crate::proofs::Words::words), unfolding(crate::specs::Pieces::tuple_end))]
pub fn tuple_end(count: usize) -> &'static str
    ensures { chars result.now ≡ spec.tuple_end count }
{
    if count == 1 { ",)" } else { ")" }
}

/// How many code points a word has.
fn points(word: &str) -> usize
    ensures { result ≡ length (chars word.now) }
{
    word.chars().count()
}
