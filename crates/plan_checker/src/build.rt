//! The plan that lines tell.
ghost use Rattle.std.specs.Prelude.{◌≡◌, ◌≤◌, ◌<◌, ◌+◌, ◌++◌, ◌^◌, length, take, drop, IfOk};
ghost use Rattle.plan_checker.specs.PlanLines.{lines_of, is_at, IsUnder, IsChain};

use crate::line::Line;
use chex_base::NoMemory;
use plan_type::{Entry, Plan};
use sqlite_items::Items;
use std::alloc::Global;

#[tactic(auto, using(crate::proofs::Built::build_begin))]
/// The plan at the front of these lines, whose entries stand below the depth `above`, and how many
/// lines tell it.
pub fn build(alloc: Global, lines: &[Line], above: u32) -> Result<(Plan, usize), NoMemory>
    requires chain { IsChain lines.now }
    requires under { IsUnder (above + 1) lines.now }
    requires shallow { above ≤ 9999 }
    ensures within { IfOk result (λ x. x.1 ≤ length lines.now) }
    ensures lines_of { IfOk result (λ x. lines_of x.0 (above + 1) ≡ take x.1 lines.now) }
    ensures chain { IfOk result (λ x. IsChain (drop x.1 lines.now)) }
    ensures under { IfOk result (λ x. IsUnder above (drop x.1 lines.now)) }
{
    let mut entries = Vec::new(alloc);
    let mut at = 0;
    while goes_on(lines, at, above + 1) {
        let line = lines[at];
        let (rest, taken) = build(alloc, &lines[at + 1..], above + 1)?;
        entries.push(Entry {
            child: line.node,
            hold: line.hold,
            rest,
        })?;
        at += 1 + taken;
    }
    Ok((Plan::of(Items::from_vec(entries)), at))
}

/// Whether a line of this depth stands at this place.
fn goes_on(lines: &[Line], at: usize, depth: u32) -> bool
    requires { at ≤ length lines.now }
    ensures { result ≡ is_at depth (drop at lines.now) }
{
    at < lines.len() && lines[at].depth == depth
}
