//! What listeners hear and report.
use chex_base::{NoMemory, NodeId, Text};
use plan_type::Operation;
use std::alloc::Global;
use std::process::Abort;
use std::test::Fail;
use tap_list::{Chain, FailingTap, Tally, Tap, TapFault, Taps, Transcript};

/// The operations of two versions that share their first cell, whose snapshot is held for the
/// second: the lines are in `LINES`.
const OPERATIONS: [Operation; 7] = [
    Operation::Reset,
    Operation::Compute {
        node: NodeId(1),
        steps: 6,
    },
    Operation::Checkpoint {
        node: NodeId(1),
        blocks: 1,
    },
    Operation::Compute {
        node: NodeId(2),
        steps: 16,
    },
    Operation::Restore { node: NodeId(1) },
    Operation::Evict { node: NodeId(1) },
    Operation::Compute {
        node: NodeId(3),
        steps: 9,
    },
];

const LINES: &str =
    "reset\ncompute 1 6\ncheckpoint 1 1\ncompute 2 16\nrestore 1\nevict 1\ncompute 3 9\n";

const TALLY: &str = "computes 3 checkpoints 1 restores 1 evicts 1 steps 31\n";

/// By another program's SHA-256, over the seven lines in turn.
const DIGEST: &str = "db16779016cad928bd08598fb834bef03400c9c78cf11617f5e8eac843c7dbee\n";

/// How often each of these taps failed.
const WELL: u64 = 0;

const FAILED: u64 = 1;

fn check_tap(
    rt: &impl Abort,
    alloc: Global,
    tap: &Box<dyn Tap>,
    faults: u64,
    report: &str,
) -> Result<(), Fail> {
    let text = tap.report(alloc)?;
    assert_eq!(rt; text.as_str(), report);
    assert_eq!(rt; tap.faults(), faults);
    assert_eq!(rt; tap.wants(), 0);
    Ok(())
}

/// Looks at each tap's report and counts.
fn check(
    rt: &impl Abort,
    alloc: Global,
    taps: &[Box<dyn Tap>],
    faults: u64,
    reports: &[&str],
) -> Result<(), Fail> {
    assert_eq!(rt; taps.len(), reports.len());
    for place in 0..taps.len().min(reports.len()) {
        check_tap(rt, alloc, &taps[place], faults, reports[place])?;
    }
    Ok(())
}

fn tell_all(taps: &mut Taps) {
    for operation in &OPERATIONS {
        taps.tell(*operation);
    }
}

#[test]
fn each_kind_reports_what_it_heard(rt: HostRuntime) -> Result<(), Fail> {
    let alloc = rt.alloc();
    let mut live: Vec<Box<dyn Tap>> = Vec::new(alloc);
    live.push(Box::new(alloc, Transcript::new(alloc))?)?;
    live.push(Box::new(alloc, Tally::new(alloc))?)?;
    live.push(Box::new(alloc, Chain::new(alloc))?)?;
    let mut taps = Taps::new(alloc, live)?;
    check(
        &rt,
        alloc,
        taps.live(),
        WELL,
        &[
            "",
            "computes 0 checkpoints 0 restores 0 evicts 0 steps 0\n",
            "e3b0c44298fc1c149afbf4c8996fb92427ae41e4649b934ca495991b7852b855\n",
        ],
    )?;
    tell_all(&mut taps);
    check(&rt, alloc, taps.live(), WELL, &[LINES, TALLY, DIGEST])?;
    check(&rt, alloc, taps.retired(), FAILED, &[])
}

#[test]
fn a_tap_that_fails_at_once_goes_and_the_others_keep_their_order(
    rt: HostRuntime,
) -> Result<(), Fail> {
    let alloc = rt.alloc();
    let mut live: Vec<Box<dyn Tap>> = Vec::new(alloc);
    live.push(Box::new(alloc, Transcript::new(alloc))?)?;
    live.push(Box::new(alloc, FailingTap::new(alloc, 1))?)?;
    live.push(Box::new(alloc, Tally::new(alloc))?)?;
    let mut taps = Taps::new(alloc, live)?;
    tell_all(&mut taps);
    check(&rt, alloc, taps.live(), WELL, &[LINES, TALLY])?;
    check(&rt, alloc, taps.retired(), FAILED, &[""])
}

#[test]
fn a_tap_that_fails_at_its_third_event_heard_two(rt: HostRuntime) -> Result<(), Fail> {
    let alloc = rt.alloc();
    let mut live: Vec<Box<dyn Tap>> = Vec::new(alloc);
    live.push(Box::new(alloc, FailingTap::new(alloc, 3))?)?;
    live.push(Box::new(alloc, Transcript::new(alloc))?)?;
    let mut taps = Taps::new(alloc, live)?;
    tell_all(&mut taps);
    check(&rt, alloc, taps.live(), WELL, &[LINES])?;
    check(
        &rt,
        alloc,
        taps.retired(),
        FAILED,
        &["reset\ncompute 1 6\n"],
    )
}

#[test]
fn taps_are_retired_in_the_order_in_which_they_fail(rt: HostRuntime) -> Result<(), Fail> {
    let alloc = rt.alloc();
    let mut live: Vec<Box<dyn Tap>> = Vec::new(alloc);
    for event in [2, 0, 1, 7, 2, 8] {
        live.push(Box::new(alloc, FailingTap::new(alloc, event))?)?;
    }
    let mut taps = Taps::new(alloc, live)?;
    tell_all(&mut taps);
    check(&rt, alloc, taps.live(), WELL, &[LINES, LINES])?;
    check(
        &rt,
        alloc,
        taps.retired(),
        FAILED,
        &[
            "",
            "reset\n",
            "reset\n",
            "reset\ncompute 1 6\ncheckpoint 1 1\ncompute 2 16\nrestore 1\nevict 1\n",
        ],
    )
}

#[test]
fn no_taps_are_told_nothing(rt: HostRuntime) -> Result<(), Fail> {
    let alloc = rt.alloc();
    let mut taps = Taps::new(alloc, Vec::new(alloc))?;
    tell_all(&mut taps);
    check(&rt, alloc, taps.live(), WELL, &[])?;
    check(&rt, alloc, taps.retired(), FAILED, &[])
}

/// The sum of two events' steps is past the greatest `u64`.
#[test]
fn the_greatest_steps_are_added_exactly(rt: HostRuntime) -> Result<(), Fail> {
    let alloc = rt.alloc();
    let mut tally = Tally::new(alloc);
    for _ in 0..2u8 {
        let heard = tally.hear(Operation::Compute {
            node: NodeId(u32::MAX),
            steps: u64::MAX,
        });
        assert_eq!(rt; heard, Ok(()));
    }
    let text = tally.report(alloc)?;
    assert_eq!(rt;
        text.as_str(),
        "computes 2 checkpoints 0 restores 0 evicts 0 steps 36893488147419103230\n"
    );
    Ok(())
}

#[test]
fn a_tap_fails_once(rt: HostRuntime) -> Result<(), Fail> {
    let alloc = rt.alloc();
    let mut tap = FailingTap::new(alloc, 2);
    let heard = [
        tap.hear(Operation::Reset),
        tap.hear(Operation::Evict {
            node: NodeId(4_294_967_295),
        }),
        tap.hear(Operation::Checkpoint {
            node: NodeId(1),
            blocks: u32::MAX,
        }),
    ];
    assert_eq!(rt; heard, [Ok(()), Err(TapFault::Failed), Ok(())]);
    let text = tap.report(alloc)?;
    assert_eq!(rt; text.as_str(), "reset\ncheckpoint 1 4294967295\n");
    Ok(())
}
