//! Rows of calls to the stores in memory.
use crate::calls::{Answer, Call, Row, check};
use chex_base::{Calls, NoMemory};
use snap_store::{BlockStore, FailingStore};
use std::alloc::Global;
use std::test::Fail;

fn listed(alloc: Global, numbers: &[u64]) -> Result<Calls, NoMemory> {
    let mut calls = Calls::new(alloc);
    for number in numbers {
        calls.add(*number)?;
    }
    Ok(calls)
}

#[test]
fn a_block_is_counted_whole_and_no_bytes_take_none(rt: HostRuntime) -> Result<(), Fail> {
    let alloc = rt.alloc();
    let mut store = BlockStore::new(alloc);
    check(
        &rt,
        alloc,
        &mut store,
        &[
            Row(Call::Begin(256, 1024), Answer::Done, 0, 0, 0),
            Row(Call::Put(1, 0), Answer::Done, 0, 0, 0),
            Row(Call::Put(2, 1), Answer::Done, 1, 1, 0),
            Row(Call::Put(3, 256), Answer::Done, 2, 2, 0),
            Row(Call::Put(4, 257), Answer::Done, 4, 4, 0),
            Row(Call::Put(5, 1000), Answer::Done, 8, 8, 0),
            Row(Call::Get(1), Answer::Gave(0), 8, 8, 0),
            Row(Call::Get(2), Answer::Gave(1), 8, 8, 0),
            Row(Call::Get(4), Answer::Gave(257), 8, 8, 0),
            Row(Call::Get(5), Answer::Gave(1000), 8, 8, 0),
        ],
    )
}

#[test]
fn one_block_over_is_full(rt: HostRuntime) -> Result<(), Fail> {
    let alloc = rt.alloc();
    let mut store = BlockStore::new(alloc);
    check(
        &rt,
        alloc,
        &mut store,
        &[
            Row(Call::Begin(256, 3), Answer::Done, 0, 0, 0),
            Row(Call::Put(1, 769), Answer::Full, 0, 0, 0),
            Row(Call::Get(1), Answer::NotAsked, 0, 0, 0),
            Row(Call::Put(1, 512), Answer::Done, 2, 2, 0),
            Row(Call::Put(2, 257), Answer::Full, 2, 2, 0),
            Row(Call::Put(2, 256), Answer::Done, 3, 3, 0),
            Row(Call::Put(3, 1), Answer::Full, 3, 3, 0),
            Row(Call::Put(3, 0), Answer::Done, 3, 3, 0),
            Row(Call::Get(1), Answer::Gave(512), 3, 3, 0),
        ],
    )
}

#[test]
fn the_peak_stays_where_a_node_is_taken_out(rt: HostRuntime) -> Result<(), Fail> {
    let alloc = rt.alloc();
    let mut store = BlockStore::new(alloc);
    check(
        &rt,
        alloc,
        &mut store,
        &[
            Row(Call::Begin(256, 4), Answer::Done, 0, 0, 0),
            Row(Call::Put(7, 300), Answer::Done, 2, 2, 0),
            Row(Call::Put(9, 256), Answer::Done, 3, 3, 0),
            Row(Call::Put(8, 10), Answer::Done, 4, 4, 0),
            Row(Call::Evict(9), Answer::Done, 3, 4, 0),
            Row(Call::Get(7), Answer::Gave(300), 3, 4, 0),
            Row(Call::Get(8), Answer::Gave(10), 3, 4, 0),
            Row(Call::Get(9), Answer::NotAsked, 3, 4, 0),
            Row(Call::Evict(7), Answer::Done, 1, 4, 0),
            Row(Call::Put(9, 512), Answer::Done, 3, 4, 0),
            Row(Call::Put(7, 257), Answer::Full, 3, 4, 0),
            Row(Call::Put(7, 1), Answer::Done, 4, 4, 0),
            Row(Call::Get(9), Answer::Gave(512), 4, 4, 0),
        ],
    )
}

#[test]
fn a_store_that_begins_again_is_empty(rt: HostRuntime) -> Result<(), Fail> {
    let alloc = rt.alloc();
    let mut store = BlockStore::new(alloc);
    check(
        &rt,
        alloc,
        &mut store,
        &[
            // Before it begins there is no room.
            Row(Call::Put(1, 1), Answer::Full, 0, 0, 0),
            Row(Call::Put(1, 0), Answer::Done, 0, 0, 0),
            Row(Call::Begin(256, 2), Answer::Done, 0, 0, 0),
            Row(Call::Put(1, 512), Answer::Done, 2, 2, 0),
            Row(Call::Begin(512, 1), Answer::Done, 0, 0, 0),
            Row(Call::Evict(1), Answer::NotAsked, 0, 0, 0),
            Row(Call::Put(1, 512), Answer::Done, 1, 1, 0),
            Row(Call::Put(2, 1), Answer::Full, 1, 1, 0),
        ],
    )
}

#[test]
fn a_listed_call_changes_the_count_alone(rt: HostRuntime) -> Result<(), Fail> {
    let alloc = rt.alloc();
    let mut store = FailingStore::new(alloc, listed(alloc, &[1, 3, 5, 7, 9])?);
    check(
        &rt,
        alloc,
        &mut store,
        &[
            Row(Call::Begin(256, 2), Answer::Failed, 0, 0, 1),
            Row(Call::Begin(256, 2), Answer::Done, 0, 0, 1),
            Row(Call::Put(1, 100), Answer::Failed, 0, 0, 2),
            Row(Call::Put(1, 100), Answer::Done, 1, 1, 2),
            Row(Call::Get(1), Answer::Failed, 1, 1, 3),
            Row(Call::Get(1), Answer::Gave(100), 1, 1, 3),
            Row(Call::Evict(1), Answer::Failed, 1, 1, 4),
            Row(Call::Get(1), Answer::Gave(100), 1, 1, 4),
            Row(Call::Begin(512, 9), Answer::Failed, 1, 1, 5),
            Row(Call::Put(2, 257), Answer::Full, 1, 1, 5),
            Row(Call::Evict(1), Answer::Done, 0, 1, 5),
        ],
    )
}

#[test]
fn a_listed_put_without_room_is_full(rt: HostRuntime) -> Result<(), Fail> {
    let alloc = rt.alloc();
    let mut store = FailingStore::new(alloc, listed(alloc, &[2, 4])?);
    check(
        &rt,
        alloc,
        &mut store,
        &[
            Row(Call::Begin(256, 1), Answer::Done, 0, 0, 0),
            Row(Call::Put(1, 257), Answer::Full, 0, 0, 0),
            Row(Call::Put(1, 256), Answer::Done, 1, 1, 0),
            Row(Call::Put(2, 0), Answer::Failed, 1, 1, 1),
            Row(Call::Put(2, 0), Answer::Done, 1, 1, 1),
        ],
    )
}

#[test]
fn a_store_with_an_empty_list_never_fails(rt: HostRuntime) -> Result<(), Fail> {
    let alloc = rt.alloc();
    let mut store = FailingStore::new(alloc, Calls::new(alloc));
    check(
        &rt,
        alloc,
        &mut store,
        &[
            Row(Call::Put(1, 1), Answer::Full, 0, 0, 0),
            Row(Call::Begin(4096, 1), Answer::Done, 0, 0, 0),
            Row(Call::Put(1, 86), Answer::Done, 1, 1, 0),
            Row(Call::Get(1), Answer::Gave(86), 1, 1, 0),
            Row(Call::Evict(1), Answer::Done, 0, 1, 0),
        ],
    )
}
