//! Reads the state of a machine from bytes, over a program.
ghost use Rattle.std.specs.Prelude.{◌≡◌, ◌<◌, ◌^◌, ℕ, length, get_or, IfOk, IsTrue, Ok};
ghost use Rattle.star_meaning.specs.Snapshot.{is_canonical, state_bytes};
ghost use Rattle.star_meaning.specs.Validity.{IsValid, MachineState};
ghost use Rattle.snapshot_codec.specs.Contents.{state_of};
ghost use Rattle.snapshot_codec.specs.Reading.{Gives, state_at};

use crate::SnapFault;
use crate::parts::{Parts, parts_at};
use crate::refers::refers;
use crate::stop::Stop;
use star_syntax::Program;
use std::alloc::Global;

/// How many bytes there are.
fn measured(bytes: &[u8]) -> usize
    ensures few { length bytes.now < 2 ^ 64 }
    ensures each { (i : ℕ) → get_or bytes.now i 0 < 256 }
{
    bytes.len()
}

#[tactic(auto, unfolding(crate::specs::Reading::state_at))]
fn checked_at(alloc: Global, bytes: &[u8], program: &Program) -> Result<Parts, Stop>
    ensures { Gives state_of result (state_at program.now bytes.now) }
{
    let parts = parts_at(alloc, bytes)?;
    let all = refers(alloc, program, &parts)?;
    if !all {
        return Err(Stop::Fault(SnapFault::BadReference));
    }
    Ok(parts)
}

/// The state whose snapshot the bytes are, over the program, or the first fault from left to right.
pub fn state_at(alloc: Global, bytes: &[u8], program: &Program) -> Result<Parts, Stop>
    // What is read is a valid state, numbered as its objects are met, and these are its bytes.
    ensures found { IfOk result (λ parts. IsValid program.now (state_of parts) × IsTrue (is_canonical (state_of parts)) × (bytes.now ≡ state_bytes (state_of parts))) }
    // Each such state is read from its bytes, unless memory is wanting.
    ensures only { (m : MachineState) → IsValid program.now m → IsTrue (is_canonical m) → bytes.now ≡ state_bytes m → Gives state_of result (Ok m) }
    // Which fault it is.
    ensures exact { Gives state_of result (state_at program.now bytes.now) }
{
    let _size = measured(bytes);
    checked_at(alloc, bytes, program)
}
