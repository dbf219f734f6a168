//! Calls to a store, and what they must answer.
use chex_base::{NoMemory, NodeId};
use kernel_api::{PutFault, Store, StoreFault};
use std::alloc::Global;
use std::process::Abort;
use std::test::Fail;

/// A call to a store.
#[derive(Clone, Copy, Debug, PartialEq, Eq)]
pub enum Call {
    /// With so many bytes in a block, and so many blocks.
    Begin(u32, u32),
    /// At this node, with so many bytes.
    Put(u32, u32),
    Get(u32),
    Evict(u32),
}

/// What a store answers.
#[derive(Clone, Copy, Debug, PartialEq, Eq)]
pub enum Answer {
    Done,
    /// So many bytes, which are those that `Put` hands over.
    Gave(u32),
    /// Bytes that are others.
    GaveOthers,
    Full,
    Failed,
    NoMemory,
    /// A store may not be asked this: a limit is out of its range, or a node is held that must not
    /// be, or is not held that must be.
    NotAsked,
}

/// A call with its answer, and what is told after it: the held blocks, the peak and the faults.
#[derive(Clone, Copy, Debug, PartialEq, Eq)]
pub struct Row(pub Call, pub Answer, pub u32, pub u32, pub u64);

/// The bytes of a node: they rise from its number, and begin again after 251 of them.
fn bytes_of(alloc: Global, node: u32, count: u32) -> Result<Vec<u8>, NoMemory> {
    let mut bytes = Vec::new(alloc);
    for place in 0..count {
        bytes.push(((u64::from(node) + u64::from(place)) % 251) as u8)?;
    }
    Ok(bytes)
}

fn begun(outcome: Result<(), StoreFault>) -> Answer {
    match outcome {
        Ok(()) => Answer::Done,
        Err(StoreFault::Failed) => Answer::Failed,
        Err(StoreFault::NoMemory) => Answer::NoMemory,
    }
}

fn begin<S: Store>(alloc: Global, store: &mut S, block: u32, most: u32) -> Answer {
    if 256 <= block && block <= 1_048_576 && most <= 1024 {
        begun(store.begin(alloc, block, most))
    } else {
        Answer::NotAsked
    }
}

fn put<S: Store>(alloc: Global, store: &mut S, node: u32, count: u32) -> Answer {
    if store.holds(NodeId(node)) {
        return Answer::NotAsked;
    }
    let Ok(bytes) = bytes_of(alloc, node, count) else {
        return Answer::NoMemory;
    };
    match store.put(alloc, NodeId(node), bytes) {
        Ok(()) => Answer::Done,
        Err(PutFault::Full) => Answer::Full,
        Err(PutFault::Failed) => Answer::Failed,
        Err(PutFault::NoMemory) => Answer::NoMemory,
    }
}

/// Whether the bytes of a node came back, and how many.
fn given(alloc: Global, node: u32, bytes: &[u8]) -> Answer {
    let Ok(count) = u32::try_from(bytes.len()) else {
        return Answer::GaveOthers;
    };
    match bytes_of(alloc, node, count) {
        Ok(wanted) if wanted.as_slice() == bytes => Answer::Gave(count),
        Ok(_) => Answer::GaveOthers,
        Err(_) => Answer::NoMemory,
    }
}

fn get<S: Store>(alloc: Global, store: &mut S, node: u32) -> Answer {
    if !store.holds(NodeId(node)) {
        return Answer::NotAsked;
    }
    match store.get(alloc, NodeId(node)) {
        Ok(bytes) => given(alloc, node, &bytes),
        Err(StoreFault::Failed) => Answer::Failed,
        Err(StoreFault::NoMemory) => Answer::NoMemory,
    }
}

fn evict<S: Store>(store: &mut S, node: u32) -> Answer {
    if !store.holds(NodeId(node)) {
        return Answer::NotAsked;
    }
    match store.evict(NodeId(node)) {
        Ok(()) => Answer::Done,
        Err(_) => Answer::Failed,
    }
}

fn make_call<S: Store>(alloc: Global, store: &mut S, call: Call) -> Answer {
    match call {
        Call::Begin(block, most) => begin(alloc, store, block, most),
        Call::Put(node, count) => put(alloc, store, node, count),
        Call::Get(node) => get(alloc, store, node),
        Call::Evict(node) => evict(store, node),
    }
}

/// Makes the calls one after another, and compares what is answered and told.
pub fn check<S: Store>(
    rt: &impl Abort,
    alloc: Global,
    store: &mut S,
    rows: &[Row],
) -> Result<(), Fail> {
    for Row(call, wanted, used, peak, faults) in rows {
        let answer = make_call(alloc, store, *call);
        assert_eq!(rt; answer, *wanted, "{call:?}");
        assert_eq!(rt; store.used(), *used, "used after {call:?}");
        assert_eq!(rt; store.peak(), *peak, "peak after {call:?}");
        assert_eq!(rt; store.faults(), *faults, "faults after {call:?}");
    }
    Ok(())
}
