//! Measures the planner: `plan_bench SHAPE NODES PATH BLOCKS` finds a least plan for so many nodes
//! of 1 step and one block each, with paths of that length, and room for so many blocks. Of the
//! shape `chains` the paths stand apart; of the shape `brush` one path ends in many leaves.
//! docs/PERFORMANCE.md has the commands.
#![tactic(auto)]

use chex_base::NodeId;
use plan_optimum::least;
use plan_type::{Budget, Costs, Reach, Row};
use sqlite_items::Items;
use std::alloc::{AllocError, Global};
use std::{env, io};

/// What is measured.
#[derive(Clone, Copy)]
struct Task {
    /// Whether one path ends in many leaves.
    brush: bool,
    nodes: u32,
    path: u32,
    most: u32,
}

fn main(rt: HostRuntime) -> io::Result<()> {
    let alloc = rt.alloc();
    let mut words = Vec::new(alloc);
    for word in env::args(&rt)?.skip(1) {
        words.push(word)?;
    }
    let task = task_of(&words);
    let costs = Costs {
        rows: Items::from_vec(rows(alloc, &task)?),
    };
    let budget = Budget {
        block: 4096,
        most: task.most,
        save: 0,
        load: 0,
    };
    if !costs.sound() || budget.most > 1024 {
        println!(rt; "nodes, paths or blocks past the limits")?;
        return Ok(());
    }
    let Ok(plan) = least(alloc, &costs, &budget) else {
        println!(rt; "no memory")?;
        return Ok(());
    };
    let cost = plan.cost(&costs, &budget);
    let peak = plan.peak(&costs, &budget);
    println!(rt;
        "{} nodes: cost {cost} steps, peak {peak} of {} blocks",
        task.nodes, task.most
    )?;
    Ok(())
}

/// The task that the words name; a word that is missing or no number counts as 0.
fn task_of(words: &[String]) -> Task {
    Task {
        brush: match words.first() {
            Some(shape) => shape.as_str() == "brush",
            None => false,
        },
        nodes: number(words, 1),
        path: number(words, 2),
        most: number(words, 3),
    }
}

fn number(words: &[String], at: usize) -> u32 {
    match words.get(at) {
        Some(word) => word.parse::<u32>().unwrap_or(0),
        None => 0,
    }
}

/// The rows of the task's nodes.
fn rows(alloc: Global, task: &Task) -> Result<Vec<Row>, AllocError> {
    let mut rows = Vec::new(alloc);
    for before in 0..task.nodes {
        rows.push(Row {
            parent: NodeId(parent(task, before)),
            end: Reach::Done,
            steps: 1,
            bytes: 4096,
            text: [7; 32],
        })?;
    }
    Ok(rows)
}

/// The parent of the node that comes after so many.
fn parent(task: &Task, before: u32) -> u32 {
    if task.brush {
        before.min(task.path.saturating_sub(1))
    } else if before % task.path.max(1) == 0 {
        0
    } else {
        before
    }
}
