//! What a key feeds a hasher: a byte for its kind, and then its parts.
ghost use Rattle.std.specs.Prelude.{◌≡◌, fold, map};
ghost use Rattle.star_value.specs.KeyHash as spec;

use crate::Key;
use std::hash::{Hash, Hasher};

impl Hash for Key {
    ghost hash_input = { spec.writes };

    ghost respects_eq = { spec.writes_Alike.fed };

    fn hash<H: Hasher>(&self, state: &mut H) {
        feed(self, state);
    }
}

#[cycle(feed)]
#[tactic(auto, using(crate::proofs::KeyWrites::cases))]
fn feed<H: Hasher>(key: &Key, state: &mut H)
    ensures { state.new ≡ fold H.write state.old (spec.writes key.now) }
{
    match key {
        Key::None => state.write_u8(0),
        Key::Bool(truth) => {
            state.write_u8(1);
            truth.hash(state);
        }
        Key::Int(number) => {
            state.write_u8(2);
            state.write_i128(*number);
        }
        Key::Text(text) => {
            state.write_u8(3);
            text.as_str().hash(state);
        }
        Key::Tuple(parts) => {
            state.write_u8(4);
            state.write_usize(parts.len());
            feed_all(parts.as_slice(), state);
        }
    }
}

#[cycle(feed)]
fn feed_all<H: Hasher>(keys: &[Key], state: &mut H)
    ensures { state.new ≡ fold H.write state.old (spec.concat (map spec.writes keys.now)) }
{
    for key in keys {
        feed(key, state);
    }
}
