//! The text of a cell, and its digest.
ghost use Rattle.std.specs.Prelude.{◌≡◌, ◌++◌, IfOk, OnOk};
ghost use Rattle.std.specs.Str.{chars, encode_utf8_all};
ghost use Rattle.sha2.specs.Sha256.{sha256};
ghost use Rattle.star_meaning.specs.Cells as meaning;

use chex_base::{NoMemory, Text};
use sha2::{Digest, Sha256};
use star_meaning::{End, Ran};
use star_value::Failure;
use std::alloc::Global;

/// What the cell of this number writes in its version, and after a failure the line of the failure.
#[tactic(auto, using(crate::proofs::TextLemmas::text_is))]
pub fn text_of(alloc: Global, number: usize, ran: Ran) -> Result<Text, NoMemory>
    ensures { IfOk result (λ text. text ≡ meaning.cell_text number ran) }
{
    let mut text = ran.out;
    match ran.end {
        End::Done => Ok(text),
        End::Failed { failure, line } => {
            add_failed(alloc, number, failure, line, &mut text)?;
            Ok(text)
        }
    }
}

/// Adds the line of a failed cell.
fn add_failed(
    alloc: Global,
    cell: usize,
    failure: Failure,
    line: u32,
    text: &mut Text,
) -> Result<(), NoMemory>
    ensures { OnOk result (text.new ≡ text.old ++ meaning.end_text cell (End.Failed failure line)) }
{
    text.push_str("error: ")?;
    text.push_str(failure_name(failure))?;
    text.push_str(" at cell ")?;
    text.push_text(&Text::from_int(alloc, cell as i128)?)?;
    text.push_str(" line ")?;
    text.push_text(&Text::from_int(alloc, line as i128)?)?;
    text.push_str("\n")?;
    Ok(())
}

/// How a failure is named.
fn failure_name(failure: Failure) -> &'static str
    ensures { chars result.now ≡ meaning.failure_name failure }
{
    match failure {
        Failure::NoMethod => "NoMethod",
        Failure::WrongArguments => "WrongArguments",
        Failure::WrongType => "WrongType",
        Failure::Unhashable => "Unhashable",
        Failure::ChangedWhileIterated => "ChangedWhileIterated",
        Failure::Unbound => "Unbound",
        Failure::NoInput => "NoInput",
        Failure::Recursion => "Recursion",
        Failure::TooManyCalls => "TooManyCalls",
        Failure::BadUnpack => "BadUnpack",
        Failure::BadIndex => "BadIndex",
        Failure::NoKey => "NoKey",
        Failure::NoElement => "NoElement",
        Failure::RepeatedKey => "RepeatedKey",
        Failure::ZeroDivisor => "ZeroDivisor",
        Failure::IntegerTooLarge => "IntegerTooLarge",
        Failure::BadText => "BadText",
        Failure::TooDeep => "TooDeep",
        Failure::StepLimit => "StepLimit",
    }
}

/// The SHA-256 of a text's UTF-8 bytes.
pub fn digest(text: &Text) -> [u8; 32]
    ensures { result ≡ sha256 (encode_utf8_all text.now) }
{
    digest_of(text.as_str().as_bytes())
}

fn digest_of(bytes: &[u8]) -> [u8; 32]
    ensures { result ≡ sha256 bytes.now }
{
    let mut hasher = Sha256::new();
    hasher.update(bytes);
    hasher.finalize()
}
