//! The lines after the outputs of all versions.
ghost use Rattle.std.specs.Prelude.{◌≡◌, ◌++◌, IfOk, OnOk, Some, string_bytes};
ghost use Rattle.std.specs.Str.{chars};
ghost use Rattle.chex_report.specs.Summaries.{steps_text, blocks_text, cost_line, summary_of};

use chex_base::{NoMemory, Text};
use std::alloc::Global;

/// What a run tells of itself at its end.
#[derive(Clone, Copy, Debug, PartialEq, Eq)]
pub struct Numbers {
    /// How many versions there are.
    pub versions: u32,
    /// How many nodes were reached.
    pub nodes: u32,
    /// The steps of all versions, each run alone.
    pub alone: u64,
    /// The steps of the replay.
    pub replayed: u64,
    /// The most blocks that were held at once.
    pub peak: u64,
    /// The most blocks that may be held at once.
    pub most: u32,
    /// The bytes of a block.
    pub block: u32,
    /// The cost of the plan in steps, where saving or restoring has a price.
    pub cost: Option<u64>,
}

/// The summary of a run: the line of its numbers and, where there is a cost, the line of the cost
/// (docs/FORMATS.md). Each line ends with a newline.
pub fn summary(alloc: Global, numbers: &Numbers) -> Result<Text, NoMemory>
    ensures { IfOk result (λ text. text ≡ summary_of numbers.now) }
{
    let steps = steps(
        alloc,
        numbers.versions,
        numbers.nodes,
        numbers.alone,
        numbers.replayed,
    )?;
    let blocks = blocks(alloc, numbers.peak, numbers.most, numbers.block)?;
    let mut text = Text::from_str(alloc, &steps)?;
    text.push_str(&blocks)?;
    add_cost(alloc, &mut text, numbers.cost)?;
    Ok(text)
}

fn steps(
    alloc: Global,
    versions: u32,
    nodes: u32,
    alone: u64,
    replayed: u64,
) -> Result<String, NoMemory>
    ensures { IfOk result (λ line. chars (string_bytes line) ≡ steps_text versions nodes alone replayed) }
{
    Ok(format!(in alloc;
        "-- versions {versions}, nodes {nodes}, alone {alone} steps, replayed {replayed} steps, "
    )?)
}

fn blocks(alloc: Global, peak: u64, most: u32, block: u32) -> Result<String, NoMemory>
    ensures { IfOk result (λ line. chars (string_bytes line) ≡ blocks_text peak most block) }
{
    Ok(format!(in alloc; "peak {peak} of {most} blocks of {block} bytes\n")?)
}

/// Adds the line of the cost, where there is one.
fn add_cost(alloc: Global, text: &mut Text, cost: Option<u64>) -> Result<(), NoMemory>
    ensures { OnOk result (text.new ≡ text.old ++ cost_line cost) }
{
    match cost {
        None => Ok(()),
        Some(cost) => {
            let line = line_of_cost(alloc, cost)?;
            text.push_str(&line)
        }
    }
}

fn line_of_cost(alloc: Global, cost: u64) -> Result<String, NoMemory>
    ensures { IfOk result (λ line. chars (string_bytes line) ≡ cost_line (Some cost)) }
{
    Ok(format!(in alloc; "-- cost {cost} steps\n")?)
}
