//! Ranges of integers.
ghost use Rattle.std.specs.Prelude.{◌≡◌, ◌<◌, ◌↔◌, ℕ};
ghost use Rattle.star_value.specs.Ranges as spec;

/// The integers `start`, `start + step` and so on that lie before `stop`: below it where the step
/// is positive, above it where the step is negative. A range that a cell makes has a step other
/// than 0.
#[derive(Clone, Copy, Debug, PartialEq, Eq)]
pub struct Range {
    pub start: i128,
    pub stop: i128,
    pub step: i128,
}

impl Range {
    /// How many integers the range gives; none where the step is 0. It takes no memory, and the same
    /// time for every range.
    pub fn len(&self) -> u128
        ensures count { result ≡ spec.range_count self.now }
        ensures places { (place : ℕ) → (place < result) ↔ spec.IsGiven self.now place }
    {
        let is_ahead = if self.step > 0 {
            self.start < self.stop
        } else {
            self.step < 0 && self.stop < self.start
        };
        if !is_ahead {
            return 0;
        }
        (self.start.abs_diff(self.stop) - 1) / self.step.unsigned_abs() + 1
    }

    /// The integer that the range gives at a place, counted from 0. It is computed from the place.
    pub fn item(&self, place: u128) -> i128
        requires { place < spec.range_count self.now }
        ensures { result ≡ spec.range_item self.now place }
    {
        let distance = place * self.step.unsigned_abs();
        if self.step > 0 {
            self.start.saturating_add_unsigned(distance)
        } else {
            self.start.saturating_sub_unsigned(distance)
        }
    }
}
