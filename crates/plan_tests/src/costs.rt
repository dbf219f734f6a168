//! Costs and budgets of a row.
ghost use Rattle.std.specs.Prelude.{IfOk};
ghost use Rattle.plan_type.specs.Budget.{IsBudget};
ghost use Rattle.plan_type.specs.Costs.{IsSound};

use crate::fault::Fault;
use crate::words::{cut, large, number, number_and};
use chex_base::NodeId;
use plan_type::{Budget, Costs, Reach, Row};
use sqlite_items::Items;
use std::alloc::Global;

/// The costs of nodes, between which commas stand: each is its parent, how it ended, its steps, its
/// bytes, and each byte of the digest of its text.
pub fn costs_of(alloc: Global, text: &str) -> Result<Costs, Fault> {
    let mut rows = Vec::new(alloc);
    if !text.is_empty() {
        for words in text.split(", ") {
            rows.push(row_of(words)?)?;
        }
    }
    Ok(Costs {
        rows: Items::from_vec(rows),
    })
}

fn row_of(words: &str) -> Result<Row, Fault> {
    let (parent, rest) = number_and(words)?;
    let (end, rest) = cut(rest);
    let (steps, rest) = cut(rest);
    let (bytes, text) = cut(rest);
    Ok(Row {
        parent: NodeId(parent),
        end: reach_of(end)?,
        steps: large(steps)?,
        bytes: large(bytes)?,
        text: [byte(text)?; 32],
    })
}

fn byte(word: &str) -> Result<u8, Fault> {
    match word.parse::<u8>() {
        Ok(byte) => Ok(byte),
        Err(_) => Err(Fault::Unread),
    }
}

fn reach_of(word: &str) -> Result<Reach, Fault> {
    match word {
        "done" => Ok(Reach::Done),
        "failed" => Ok(Reach::Failed),
        "unreached" => Ok(Reach::Unreached),
        _ => Err(Fault::Unread),
    }
}

/// Costs that must be sound.
pub fn sound_costs(alloc: Global, text: &str) -> Result<Costs, Fault>
    ensures { IfOk result (λ costs. IsSound costs) }
{
    let costs = costs_of(alloc, text)?;
    if costs.sound() {
        Ok(costs)
    } else {
        Err(Fault::Unread)
    }
}

/// The bytes of a block, the most blocks, and the prices of saving and loading a block.
pub fn budget_of(words: &str) -> Result<Budget, Fault>
    ensures { IfOk result (λ budget. IsBudget budget) }
{
    let (block, rest) = number_and(words)?;
    let (most, rest) = number_and(rest)?;
    let (save, load) = number_and(rest)?;
    let load = number(load)?;
    if 256 <= block
        && block <= 1_048_576
        && most <= 1024
        && save <= 1_000_000
        && load <= 1_000_000
    {
        Ok(Budget {
            block,
            most,
            save,
            load,
        })
    } else {
        Err(Fault::Unread)
    }
}

/// Whether costs are sound.
pub fn soundness(alloc: Global, text: &str) -> Result<String, Fault> {
    let costs = costs_of(alloc, text)?;
    let answer = if costs.sound() { "sound" } else { "not sound" };
    Ok(String::from_str(alloc, answer)?)
}
