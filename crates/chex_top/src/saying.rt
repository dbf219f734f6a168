//! What is written, and how.
ghost use Rattle.std.specs.Prelude.{◌≡◌, ◌≤◌, ◌-◌, ◌^◌, All, IfOk, OnErr, encode_utf8_all, length, map, min};
ghost use Rattle.chex_base.specs.Outside.{Received, Rose};
ghost use Rattle.plan_type.specs.Budget.{IsBudget};
ghost use Rattle.plan_type.specs.Costs.{IsSound};
ghost use Rattle.plan_type.specs.Plan.{Serves};
ghost use Rattle.plan_type.specs.Prices.{IsLeast};
ghost use Rattle.chex_report.specs.Headers.{header_of};
ghost use Rattle.shared_run.specs.Numbers.{steps_along_all};
ghost use Rattle.shared_run.specs.Written.{AreWays, written};
ghost use Rattle.chex_top.specs.RunTexts.{cost_told, numbers_with, run_text, versions_text};

use chex_base::{NoMemory, NodeId, Sink, Text, WriteFailed};
use chex_report::{Numbers, header, summary};
use exec_tree::Checked;
use plan_type::{Budget, Costs, Plan};
use replayer::Texts;
use shared_run::{Shared, Way, Ways};
use sqlite_items::Items;
use std::alloc::Global;
use std::marker::Model;

/// What is written at the end of a call, in the pieces in which it is written. Contracts see its
/// code points.
#[derive(Drop)]
pub struct Said {
    /// The header of each version.
    headers: Items<Text>,
    /// The nodes whose texts stand behind each header.
    ways: Ways,
    /// The text of node n is at place n - 1.
    texts: Texts,
    /// What stands at the end.
    last: Text,
}

impl Model for Said {
    ghost use Rattle.std.specs.Prelude.{◌≡◌, ◌++◌, ℕ, List, length, map};
    ghost use Rattle.shared_run.specs.Written.{AreWays, written};
    ghost use Rattle.chex_top.specs.RunTexts.{versions_text};

    ghost Value = { List ℕ };

    ghost view = { λ s. versions_text s.headers (map (written s.texts) s.ways) ++ s.last };

    ghost invariant = { λ s. (length s.headers ≡ length s.ways) × AreWays (length s.texts) s.ways };
}

impl Said {
    /// A text alone, which is written as one piece. It takes no memory.
    pub fn of(alloc: Global, text: Text) -> Said
        ensures { result ≡ text }
    {
        Said {
            headers: Items::new(alloc),
            ways: Items::new(alloc),
            texts: Items::new(alloc),
            last: text,
        }
    }

    /// What is written of versions that share equal beginnings: the header of each in order, behind
    /// it the texts of the nodes on its way, and at the end the summary. The node of number n has
    /// the text at place n - 1. The texts of nodes are not copied.
    pub fn run(
        alloc: Global,
        versions: &[Checked],
        texts: Texts,
        ways: Ways,
        numbers: &Numbers,
    ) -> Result<Said, NoMemory>
        requires many { length ways ≡ length versions.now }
        requires ways { AreWays (length texts) ways }
        ensures { IfOk result (λ said. said ≡ run_text versions.now (map (written texts) ways) numbers.now) }
    {
        let headers = headers_of(alloc, versions)?;
        let last = summary(alloc, numbers)?;
        Ok(Said {
            headers,
            ways,
            texts,
            last,
        })
    }

    /// Writes it: each header, each text of a node that is not empty, and what stands at the end are
    /// a piece each. Where a write fails nothing more is written, and what was written is a prefix.
    /// It takes no memory.
    pub fn write<W: Sink>(&self, out: &mut W) -> Result<(), WriteFailed>
        ensures held { Received (W.held out.old) (W.held out.new) result (encode_utf8_all self.now) }
        ensures cause { OnErr result (Rose (W.faults out.old) (W.faults out.new)) }
        ensures later { W.faults out.old ≤ W.faults out.new }
    {
        write_versions(
            out,
            self.headers.as_slice(),
            self.ways.as_slice(),
            self.texts.as_slice(),
        )?;
        write_piece(out, &self.last)
    }
}

/// The numbers of the summary of a run. The steps of all versions are the greatest `u64` where they
/// are more.
pub fn numbers(versions: &[Checked], budget: &Budget, shared: &Shared) -> Numbers
    requires few { length versions.now ≤ 64 }
    requires budget { IsBudget budget.now }
    requires sound { IsSound shared.now.costs }
    requires least { IsLeast shared.now.costs budget.now shared.now.plan }
    ensures { result ≡ numbers_with (length versions.now) budget.now (min (steps_along_all shared.now.costs shared.now.ways) (2 ^ 64 - 1)) shared.now.costs shared.now.plan }
{
    Numbers {
        versions: versions.len() as u32,
        nodes: shared.reached(),
        alone: shared.alone(),
        replayed: shared.plan.work(&shared.costs),
        peak: shared.plan.peak(&shared.costs, budget),
        most: budget.most,
        block: budget.block,
        cost: cost_told(&shared.costs, budget, &shared.plan),
    }
}

/// The cost of a plan, where storing or restoring a snapshot has a price.
fn cost_told(costs: &Costs, budget: &Budget, plan: &Plan) -> Option<u64>
    requires budget { IsBudget budget.now }
    requires sound { IsSound costs.now }
    requires serves { Serves costs.now budget.now plan.now }
    ensures { result ≡ cost_told costs.now budget.now plan.now }
{
    if budget.save == 0 && budget.load == 0 {
        None
    } else {
        Some(plan.cost(costs, budget))
    }
}

/// The headers of versions in order.
fn headers_of(alloc: Global, versions: &[Checked]) -> Result<Items<Text>, NoMemory>
    ensures { IfOk result (λ headers. headers ≡ map (λ version. header_of version.name) versions.now) }
{
    let mut headers = Items::new(alloc);
    for version in versions {
        headers.push(header(alloc, &version.name)?)?;
    }
    Ok(headers)
}

/// Writes each header, and behind it the texts of the nodes on the way at its place.
fn write_versions<W: Sink>(
    out: &mut W,
    headers: &[Text],
    ways: &[Way],
    texts: &[Text],
) -> Result<(), WriteFailed>
    requires many { length headers.now ≡ length ways.now }
    requires ways { AreWays (length texts.now) ways.now }
    ensures held { Received (W.held out.old) (W.held out.new) result (encode_utf8_all (versions_text headers.now (map (written texts.now) ways.now))) }
    ensures cause { OnErr result (Rose (W.faults out.old) (W.faults out.new)) }
    ensures later { W.faults out.old ≤ W.faults out.new }
{
    for (place, header) in headers.iter().enumerate() {
        let nodes = ways[place].as_slice();
        write_piece(out, header)?;
        write_nodes(out, nodes, texts)?;
    }
    Ok(())
}

/// Writes the texts of nodes in order, but for those that are empty.
fn write_nodes<W: Sink>(out: &mut W, nodes: &[NodeId], texts: &[Text]) -> Result<(), WriteFailed>
    requires nodes { All (λ n. (1 ≤ n) × (n ≤ length texts.now)) nodes.now }
    ensures held { Received (W.held out.old) (W.held out.new) result (encode_utf8_all (written texts.now nodes.now)) }
    ensures cause { OnErr result (Rose (W.faults out.old) (W.faults out.new)) }
    ensures later { W.faults out.old ≤ W.faults out.new }
{
    for node in nodes {
        let text = &texts[node.0 as usize - 1];
        write_if_some(out, text)?;
    }
    Ok(())
}

/// Writes a text that is not empty.
fn write_if_some<W: Sink>(out: &mut W, text: &Text) -> Result<(), WriteFailed>
    ensures held { Received (W.held out.old) (W.held out.new) result (encode_utf8_all text.now) }
    ensures cause { OnErr result (Rose (W.faults out.old) (W.faults out.new)) }
    ensures later { W.faults out.old ≤ W.faults out.new }
{
    if text.len() == 0 {
        return Ok(());
    }
    write_piece(out, text)
}

/// Writes a text as one piece.
fn write_piece<W: Sink>(out: &mut W, text: &Text) -> Result<(), WriteFailed>
    ensures held { Received (W.held out.old) (W.held out.new) result (encode_utf8_all text.now) }
    ensures cause { OnErr result (Rose (W.faults out.old) (W.faults out.new)) }
    ensures later { W.faults out.old ≤ W.faults out.new }
{
    out.write(text.as_str().as_bytes())
}
