//! Reads a machine from its bytes.
ghost use Rattle.std.specs.Prelude.{◌≡◌, IfOk, IsTrue, Ok};
ghost use Rattle.star_meaning.specs.Snapshot.{is_canonical, state_bytes};
ghost use Rattle.star_meaning.specs.Validity.{IsValid, MachineState};
ghost use Rattle.snapshot_codec.specs.Decoding.{Decodes, fault_of};
ghost use Rattle.snapshot_codec.specs.Reading.{Gives, state_at};

use crate::SnapFault;
use crate::build::build;
use crate::reading::state_at;
use crate::stop::Stop;
use heap_store::Machine;
use star_syntax::Program;
use std::alloc::Global;

fn machine_at(alloc: Global, bytes: &[u8], program: &Program) -> Result<Machine, Stop>
    ensures found { IfOk result (λ m. IsValid program.now m × IsTrue (is_canonical m) × (bytes.now ≡ state_bytes m)) }
    ensures only { (m : MachineState) → IsValid program.now m → IsTrue (is_canonical m) → bytes.now ≡ state_bytes m → Gives (λ x. x) result (Ok m) }
    ensures exact { Gives (λ x. x) result (state_at program.now bytes.now) }
{
    let parts = state_at(alloc, bytes, program)?;
    let machine = build(alloc, parts)?;
    Ok(machine)
}

fn fault_of(stop: Stop) -> SnapFault
    ensures { result ≡ fault_of stop }
{
    match stop {
        Stop::Fault(fault) => fault,
        Stop::NoMemory => SnapFault::NoMemory,
    }
}

/// The machine whose snapshot the bytes are, over the program, or else the first fault from left to
/// right. No count in the bytes is trusted for room: memory is taken for what was read alone. The
/// bytes are read once, and each pair of a dict is put by the hash of its key.
pub fn decode(alloc: Global, bytes: &[u8], program: &Program) -> Result<Machine, SnapFault>
    // What is answered is a valid machine, numbered as its objects are met, and these are its bytes.
    ensures found { IfOk result (λ m. IsValid program.now m × IsTrue (is_canonical m) × (bytes.now ≡ state_bytes m)) }
    // Each such machine is answered for its bytes, unless memory is wanting.
    ensures only { (m : MachineState) → IsValid program.now m → IsTrue (is_canonical m) → bytes.now ≡ state_bytes m → Decodes result (Ok m) }
    // Which fault it is.
    ensures exact { Decodes result (state_at program.now bytes.now) }
{
    match machine_at(alloc, bytes, program) {
        Ok(machine) => Ok(machine),
        Err(stop) => Err(fault_of(stop)),
    }
}
