//! A tap that keeps a digest of what it heard.
ghost use Rattle.std.specs.Prelude.{◌≡◌, ◌∷◌, ◌++◌, [], IfOk, OnOk, OnErr, string_bytes};
ghost use Rattle.std.specs.Str.{chars};
ghost use Rattle.sha2.specs.Sha256.{sha256};
ghost use Rattle.tap_list.specs.Chains.{digest_of, chain_text};

use crate::lines::line;
use crate::{Tap, TapFault};
use chex_base::{NoMemory, Text};
use plan_type::Operation;
use sha2::{Digest, Sha256};
use std::alloc::Global;

/// A tap whose digest tells all that it heard, in its order: at first it is the SHA-256 of no
/// bytes, and after an event that of its own bytes with the event's line. It reports its digits
/// in lower-case hexadecimal, and never fails.
#[derive(Drop)]
pub struct Chain {
    alloc: Global,
    heard: Vec<Operation>,
    digest: [u8; 32],
    wants: u64,
    ghost linked: { digest ≡ digest_of heard.items },
}

impl Chain {
    /// A chain that has heard nothing. It takes no memory.
    pub fn new(alloc: Global) -> Chain
        ensures { (result.heard.items ≡ []) × (result.wants ≡ 0) }
    {
        let digest = digest("".as_bytes(), "".as_bytes());
        Chain {
            alloc,
            heard: Vec::new(alloc),
            digest,
            wants: 0,
        }
    }

    /// Hears an event, or nothing where memory is wanting.
    fn link(&mut self, event: Operation) -> Result<(), NoMemory>
        ensures ok { OnOk result (self.new.heard.items ≡ self.old.heard.items ++ event ∷ []) }
        ensures err { OnErr result (self.new.heard.items ≡ self.old.heard.items) }
        ensures wants { self.new.wants ≡ self.old.wants }
    {
        let line = line(self.alloc, &event)?;
        let digest = digest(self.digest.as_slice(), line.as_bytes());
        self.heard.push(event)?;
        self.digest = digest;
        Ok(())
    }
}

impl Tap for Chain {
    ghost heard = { λ t. t.heard.items };

    ghost faults = { λ t. 0 };

    ghost wants = { λ t. t.wants };

    ghost reported = { λ t. chain_text (digest_of t.heard.items) };

    fn hear(&mut self, event: Operation) -> Result<(), TapFault> {
        match self.link(event) {
            Ok(()) => Ok(()),
            Err(_) => {
                self.wants = self.wants.saturating_add(1);
                Err(TapFault::NoMemory)
            }
        }
    }

    fn wants(&self) -> u64 {
        self.wants
    }

    fn faults(&self) -> u64 {
        0
    }

    fn report(&self, alloc: Global) -> Result<Text, NoMemory> {
        digits(alloc, &self.digest)
    }
}

/// The digest of these bytes and those after them.
fn digest(before: &[u8], after: &[u8]) -> [u8; 32]
    ensures { result ≡ sha256 (before.now ++ after.now) }
{
    let mut hasher = Sha256::new();
    hasher.update(before);
    hasher.update(after);
    hasher.finalize()
}

/// The digits of a digest, and a newline.
fn digits(alloc: Global, digest: &[u8; 32]) -> Result<Text, NoMemory>
    ensures { IfOk result (λ text. text ≡ chain_text digest.now) }
{
    let digits = hex::encode(alloc, digest.as_slice())?;
    let mut text = Text::from_str(alloc, &digits)?;
    text.push_str("\n")?;
    Ok(text)
}
