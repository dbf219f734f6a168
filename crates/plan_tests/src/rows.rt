//! Rows: what is asked, and behind the last tab what is answered. A line without a tab is no row.

use crate::fault::Fault;
use crate::{all_plans, costs, measures, planned, verdicts};
use std::alloc::Global;

/// What the rows of a table ask.
#[derive(Clone, Copy)]
pub enum Table {
    /// Whether costs are sound.
    Sound,
    /// What a plan costs, holds and does.
    Plans,
    /// The least plan.
    Least,
    /// The cost and the peak of the least plan, whose text is long.
    Long,
    /// The verdict of a text.
    Texts,
    /// The verdict of the text of a wrong planner, beside the least plan.
    Wrong,
    /// With how many budgets no plan is cheaper.
    AllPlans,
}

/// How many rows agree, and a line for each that differs.
#[derive(Drop)]
pub struct Played {
    pub agree: u64,
    pub differing: String,
}

fn answer(alloc: Global, table: Table, asked: &str) -> Result<String, Fault> {
    match table {
        Table::Sound => costs::soundness(alloc, asked),
        Table::Plans => measures::measured(alloc, asked),
        Table::Least => planned::written(alloc, asked),
        Table::Long => planned::priced(alloc, asked),
        Table::Texts => verdicts::judged(alloc, asked),
        Table::Wrong => verdicts::beside_least(alloc, asked),
        Table::AllPlans => all_plans::against_all(alloc, asked),
    }
}

/// Compares each row of a table with what is answered.
pub fn play(alloc: Global, table: Table, text: &str) -> Result<Played, Fault> {
    let mut agree: u64 = 0;
    let mut differing = String::new(alloc);
    for line in text.lines() {
        let Some((asked, wanted)) = line.rsplit_once('\t') else {
            continue;
        };
        let found = answer(alloc, table, asked)?;
        if found.as_str() == wanted {
            agree = agree.saturating_add(1);
        } else {
            let difference = format!(in alloc; "{line}: {found}\n")?;
            differing.push_str(difference.as_str())?;
        }
    }
    Ok(Played { agree, differing })
}
