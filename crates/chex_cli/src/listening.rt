//! Which listeners there are, and what they report.
ghost use Rattle.std.specs.Prelude.{◌≡◌, map, string_bytes, bytes_eq};
ghost use Rattle.std.specs.List.{list_any};

use chex_base::NoMemory;
use std::alloc::Global;
use tap_list::Tap;

/// Whether this word is among the words.
pub fn stands(words: &[String], word: &str) -> bool
    ensures { result ≡ list_any (bytes_eq word.now) (map string_bytes words.now) }
{
    for other in words {
        if word == other.as_str() {
            return true;
        }
    }
    false
}

/// Writes to standard error what each of these listeners reports, in order. A standard error that
/// takes nothing changes nothing else.
pub fn report<R: Eprint + AllocGlobal>(rt: &R, taps: &[Box<dyn Tap>]) -> Result<(), NoMemory> {
    for tap in taps {
        let text = tap.report(rt.alloc())?;
        let _ = eprint!(rt; "{}", text.as_str());
    }
    Ok(())
}
