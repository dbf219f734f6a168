//! The digests of the nodes of a forest.
ghost use Rattle.std.specs.Prelude.{◌≡◌, ◌≤◌, ◌++◌, length, IfOk};
ghost use Rattle.sha2.specs.Sha256.{sha256};
ghost use Rattle.exec_tree.specs.Forests.{IsNode, cells_of, inputs_of, parent_of};
ghost use Rattle.exec_tree.specs.Keys.{key_of};
ghost use Rattle.audit_record.specs.Digests.{digest_at, digests_of, key_bytes};

use crate::key_bytes::put_key;
use crate::recorded::Digests;
use chex_base::{Inputs, NoMemory, NodeId};
use exec_tree::Forest;
use sha2::{Digest, Sha256};
use star_syntax::Cell;
use std::alloc::Global;

/// The digest of each node. It takes time linear in the sources and the inputs of the nodes.
pub fn digests_of(alloc: Global, forest: &Forest) -> Result<Digests, NoMemory>
    ensures digests { IfOk result (λ digests. digests ≡ digests_of forest.now) }
    ensures few { IfOk result (λ digests. length digests ≤ 512) }
{
    let mut digests = Digests::new(alloc);
    let count = forest.count();
    for place in 0..count {
        let node = NodeId(place + 1);
        let above = digest_at(digests.as_slice(), forest.parent(node));
        let digest = digest_below(alloc, &above, forest.cell(node), forest.inputs(node))?;
        digests.push(digest)?;
    }
    Ok(digests)
}

/// The digest of a node among those of the first nodes, and zeros for number 0.
fn digest_at(digests: &[[u8; 32]], node: NodeId) -> [u8; 32]
    ensures { result ≡ digest_at digests.now node }
{
    match node.0.checked_sub(1) {
        Some(at) => digests.get(at as usize).copied().unwrap_or([0; 32]),
        None => [0; 32],
    }
}

/// The digest of a cell under these inputs, below a node of this digest.
fn digest_below(
    alloc: Global,
    above: &[u8; 32],
    cell: &Cell,
    inputs: &Inputs,
) -> Result<[u8; 32], NoMemory>
    ensures { IfOk result (λ digest. digest ≡ sha256 (above.now ++ key_bytes (key_of inputs.now cell.now))) }
{
    let mut key = Vec::new(alloc);
    put_key(&mut key, cell, inputs)?;
    let mut hasher = Sha256::new();
    hasher.update(above.as_slice());
    hasher.update(key.as_slice());
    Ok(hasher.finalize())
}
