//! A number by which most sources are told apart.
ghost use Rattle.std.specs.Prelude.{◌≡◌};
ghost use Rattle.exec_tree.specs.Growths as spec;

use chex_base::Text;
use std::hash::{FoldHasher, Hasher};

/// The hash of a source. Equal sources have equal hashes; its time is linear in the source.
#[tactic(auto, unfolding(crate::specs::Growths::hash_of))]
pub fn hash_of(source: &Text) -> u64
    ensures { result ≡ spec.hash_of source.now }
{
    let mut hasher = FoldHasher::default();
    hasher.write(source.as_str().as_bytes());
    hasher.finish()
}
