//! Machines from their snapshots.
ghost use Rattle.std.specs.Prelude.{◌≡◌, Err, IfOk};
ghost use Rattle.star_meaning.specs.Snapshot.{IsBytesOf, IsSnapshot};
ghost use Rattle.star_meaning.specs.Validity.{IsValid};
ghost use Rattle.kernel_api.specs.Live.{IsSizeOf};
ghost use Rattle.star_kernel.specs.Restoring.{fault_of};

use heap_store::Machine;
use kernel_api::RestoreFault;
use snapshot_codec::{SnapFault, decode};
use star_syntax::Program;
use std::alloc::Global;

/// The machine whose snapshot the bytes are, over the program, and its size.
pub(crate) fn restored(
    alloc: Global,
    bytes: &[u8],
    program: &Program,
) -> Result<(Machine, u64), RestoreFault>
    ensures valid { IfOk result (λ r. IsValid program.now r.0) }
    ensures told { IfOk result (λ r. IsBytesOf r.0 bytes.now) }
    ensures sized { IfOk result (λ r. IsSizeOf r.0 r.1) }
    ensures damaged { result ≡ Err RestoreFault.Damaged → IsSnapshot program.now bytes.now → ⊥ }
    ensures cause { result ≡ Err RestoreFault.KernelFailed → ⊥ }
{
    let size = bytes.len() as u64;
    match decode(alloc, bytes, program) {
        Ok(machine) => Ok((machine, size)),
        Err(fault) => Err(fault_of(fault)),
    }
}

/// Why a kernel does not restore what has this fault.
fn fault_of(fault: SnapFault) -> RestoreFault
    ensures { result ≡ fault_of fault }
{
    match fault {
        SnapFault::NoMemory => RestoreFault::NoMemory,
        _ => RestoreFault::Damaged,
    }
}
