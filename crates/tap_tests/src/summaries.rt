//! The summary of a run.
use chex_report::{Numbers, summary};
use std::test::Fail;

/// How many versions and nodes there are, the steps alone and replayed; the most blocks held, the most
/// that may be, and the bytes of one; the cost, where there is one; and the text.
type Row = (
    (u32, u32, u64, u64),
    (u64, u32, u32),
    Option<u64>,
    &'static str,
);

/// Two versions that share their first cell, with a budget of one block or none, without prices and
/// with them; no version at all; and the greatest numbers.
const ROWS: [Row; 6] = [
    (
        (2, 3, 37, 31),
        (1, 1, 4096),
        None,
        "-- versions 2, nodes 3, alone 37 steps, replayed 31 steps, peak 1 of 1 blocks of 4096 bytes\n",
    ),
    (
        (2, 3, 37, 37),
        (0, 0, 4096),
        None,
        "-- versions 2, nodes 3, alone 37 steps, replayed 37 steps, peak 0 of 0 blocks of 4096 bytes\n",
    ),
    (
        (2, 3, 37, 31),
        (1, 1, 4096),
        Some(34),
        "-- versions 2, nodes 3, alone 37 steps, replayed 31 steps, peak 1 of 1 blocks of 4096 bytes\n-- cost 34 steps\n",
    ),
    (
        (2, 3, 37, 37),
        (0, 1, 4096),
        Some(37),
        "-- versions 2, nodes 3, alone 37 steps, replayed 37 steps, peak 0 of 1 blocks of 4096 bytes\n-- cost 37 steps\n",
    ),
    (
        (0, 0, 0, 0),
        (0, 0, 4096),
        None,
        "-- versions 0, nodes 0, alone 0 steps, replayed 0 steps, peak 0 of 0 blocks of 4096 bytes\n",
    ),
    (
        (u32::MAX, u32::MAX, u64::MAX, u64::MAX),
        (u64::MAX, u32::MAX, u32::MAX),
        Some(u64::MAX),
        "-- versions 4294967295, nodes 4294967295, alone 18446744073709551615 steps, replayed 18446744073709551615 steps, peak 18446744073709551615 of 4294967295 blocks of 4294967295 bytes\n-- cost 18446744073709551615 steps\n",
    ),
];

#[test]
fn numbers_and_cost_stand_in_their_lines(rt: HostRuntime) -> Result<(), Fail> {
    for ((versions, nodes, alone, replayed), (peak, most, block), cost, text) in ROWS {
        let numbers = Numbers {
            versions,
            nodes,
            alone,
            replayed,
            peak,
            most,
            block,
            cost,
        };
        let due = summary(rt.alloc(), &numbers)?;
        assert_eq!(rt; due.as_str(), text);
    }
    Ok(())
}
