//! Snapshots of machines, put into a store.
ghost use Rattle.std.specs.Prelude.{◌≡◌, ◌≤◌, false, Err, OnErr, OnOk};
ghost use Rattle.chex_base.specs.Outside.{Rose};
ghost use Rattle.kernel_api.specs.Live.{PutsSnapshot, SnapshotPasses};
ghost use Rattle.kernel_api.specs.Stock.{holds};

use chex_base::NodeId;
use heap_store::Machine;
use kernel_api::{PutFault, SaveFault, Store};
use snapshot_codec::encode;
use std::alloc::Global;

/// Puts the snapshot of a machine into a store, at a node that is not held.
pub(crate) fn put_snapshot<S: Store>(
    alloc: Global,
    machine: &Machine,
    store: &mut S,
    node: NodeId,
) -> Result<(), SaveFault>
    requires { holds node (S.stock store.old).held ≡ false }
    ensures ok { OnOk result (PutsSnapshot machine.now node (S.stock store.old) (S.stock store.new)) }
    ensures err { OnErr result (S.stock store.new ≡ S.stock store.old) }
    ensures full { result ≡ Err SaveFault.Full → SnapshotPasses machine.now (S.stock store.old) }
    ensures always { SnapshotPasses machine.now (S.stock store.old) → OnOk result ⊥ }
    ensures cause { result ≡ Err SaveFault.KernelFailed → ⊥ }
    ensures store_cause { result ≡ Err SaveFault.StoreFailed → Rose (S.faults store.old) (S.faults store.new) }
    ensures store_later { S.faults store.old ≤ S.faults store.new }
{
    // It tells what each machine keeps.
    let _nodes = machine.ran();
    let bytes = encode(alloc, machine)?;
    match store.put(alloc, node, bytes) {
        Ok(()) => Ok(()),
        Err(PutFault::Full) => Err(SaveFault::Full),
        Err(PutFault::Failed) => Err(SaveFault::StoreFailed),
        Err(PutFault::NoMemory) => Err(SaveFault::NoMemory),
    }
}
