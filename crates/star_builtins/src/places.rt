//! Places among items, and the integers of ranges.
ghost use Rattle.std.specs.Prelude.{◌≡◌, ◌<◌, IfSome};
ghost use Rattle.star_meaning.specs.Values as values;
ghost use Rattle.star_value.specs.Ranges.{range_count};

use star_value::Range;

/// The place that an integer names among so many, where a negative one counts from the end.
#[tactic(auto, unfolding(star_meaning::specs::Values::place_of))]
pub fn place_of(number: i128, count: u128) -> Option<u128>
    ensures value { result ≡ values.place_of number count }
    ensures within { IfSome result (λ place. place < count) }
{
    let size = number.unsigned_abs();
    if number >= 0 {
        if size < count { Some(size) } else { None }
    } else if size <= count {
        Some(count - size)
    } else {
        None
    }
}

/// The integer that a range gives at a place.
pub fn range_item(range: &Range, place: u128) -> i128
    requires { place < range_count range.now }
    ensures { result ≡ values.range_item range.now place }
{
    range.item(place)
}
