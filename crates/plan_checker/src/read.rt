//! Reads the lines of a plan text.
ghost use Rattle.std.specs.Prelude.{◌≡◌, ◌≢◌, ◌≤◌, ◌++◌, ℕ, List, length, MatchOption};
ghost use Rattle.plan_checker.specs.Lines.{head};
ghost use Rattle.plan_checker.specs.Reads.{ReadsTo};

use crate::fault::CheckFault;
use crate::line::{Line, take_line};
use std::alloc::Global;

/// The first line of each plan text.
const HEAD: &[u8] = b"chex-plan 1\n";

/// What stands after the first line.
#[tactic(auto, unfolding(crate::specs::Lines::head))]
fn after_head(text: &[u8]) -> Option<&[u8]>
    ensures { MatchOption result ((rest : List ℕ) → text.now ≢ head ++ rest) (λ rest. text.now ≡ head ++ rest.now) }
{
    text.strip_prefix(HEAD)
}

#[tactic(auto, using(crate::proofs::Readings::begin, crate::proofs::Readings::read_all, crate::proofs::Readings::stopped, crate::proofs::Readings::unspelled, crate::proofs::Readings::misplaced, crate::proofs::Readings::read_more, crate::proofs::Readings::shorter))]
/// The lines of the entries, or the first faulty line; it takes one pass over the bytes.
pub fn read(alloc: Global, text: &[u8]) -> Result<Vec<Line>, CheckFault>
    requires { length text.now ≤ 16777216 }
    ensures { ReadsTo text.now result }
{
    let Some(rest) = after_head(text) else {
        return Err(CheckFault::NotPlan { line: 1 });
    };
    let mut rest = rest;
    let mut lines = Vec::new(alloc);
    let mut before = 0;
    while !rest.is_empty() {
        let number = lines.len() as u32 + 2;
        let Some((line, more)) = take_line(rest) else {
            return Err(CheckFault::NotPlan { line: number });
        };
        if !line.follows(before) {
            return Err(CheckFault::NotPlan { line: number });
        }
        lines.push(line)?;
        before = line.depth;
        rest = more;
    }
    Ok(lines)
}
