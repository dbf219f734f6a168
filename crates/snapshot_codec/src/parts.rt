//! Reads the whole of a snapshot, before its references are looked at.
ghost use Rattle.std.specs.Prelude.{◌≡◌, ◌≤◌, [], map, length, IfOk};
ghost use Rattle.std.specs.Option.{option_copied};
ghost use Rattle.snapshot_codec.specs.Contents.{state_of};
ghost use Rattle.snapshot_codec.specs.Reading.{Gives, node_at, ran_at, rises, global_at, globals_at, parts_at, many_at};

use crate::SnapFault;
use crate::content::Content;
use crate::fields::{count_at, head_at, id_at, text_at};
use crate::objects::objects_at;
use crate::stop::Stop;
use crate::values::whole_value_at;
use chex_base::{NodeId, Text};
use sqlite_items::Items;
use star_value::Value;
use std::alloc::Global;

/// A global name with its value.
pub type NamedValue = (Text, Value);

/// What a snapshot holds.
#[derive(Drop)]
pub struct Parts {
    pub ran: Items<NodeId>,
    pub globals: Items<NamedValue>,
    pub objects: Items<Content>,
}

/// How many nodes may have run.
const MOST_NODES: u64 = 64;

/// How many objects there may be for each node that has run.
const MOST_OBJECTS: u64 = 1_000_000;

fn many_nodes_at(alloc: Global, count: u64, bytes: &[u8]) -> Result<(Items<NodeId>, &[u8]), Stop>
    ensures gives { Gives (λ x. (x.0, 0, x.1.now)) result (many_at node_at count [] 0 bytes.now) }
    ensures count { IfOk result (λ x. length x.0 ≡ count) }
{
    let mut nodes = Items::new(alloc);
    let mut rest = bytes;
    for _ in 0..count {
        let (id, after) = id_at(rest)?;
        nodes.push(NodeId(id))?;
        rest = after;
    }
    Ok((nodes, rest))
}

#[tactic(auto, unfolding(crate::specs::Reading::ran_at))]
fn ran_at(alloc: Global, bytes: &[u8]) -> Result<(Items<NodeId>, &[u8]), Stop>
    ensures gives { Gives (λ x. (x.0, 0, x.1.now)) result (ran_at bytes.now) }
    ensures few { IfOk result (λ x. length x.0 ≤ 64) }
{
    let (count, rest) = count_at(bytes)?;
    if count > MOST_NODES {
        return Err(Stop::Fault(SnapFault::BadRule));
    }
    let (nodes, rest) = many_nodes_at(alloc, count, rest)?;
    Ok((nodes, rest))
}

fn rises(last: Option<&NamedValue>, name: &Text) -> bool
    ensures { result ≡ rises (option_copied last.entry) name.now }
{
    match last {
        None => true,
        Some((before, _)) => before.cmp(name).is_lt(),
    }
}

/// A name above those in front, and its value.
#[tactic(auto, unfolding(crate::specs::Reading::global_at))]
fn global_at<'a>(
    alloc: Global,
    front: &[NamedValue],
    met: u64,
    bytes: &'a [u8],
) -> Result<(NamedValue, u64, &'a [u8]), Stop>
    ensures { Gives (λ x. (x.0, x.1, x.2.now)) result (global_at front.now met bytes.now) }
{
    let (name, rest) = text_at(alloc, bytes)?;
    if !rises(front.last(), &name) {
        return Err(Stop::Fault(SnapFault::BadRule));
    }
    let (value, met, rest) = whole_value_at(alloc, met, rest)?;
    Ok(((name, value), met, rest))
}

fn many_globals_at(
    alloc: Global,
    count: u64,
    bytes: &[u8],
) -> Result<(Items<NamedValue>, u64, &[u8]), Stop>
    ensures { Gives (λ x. (x.0, x.1, x.2.now)) result (many_at global_at count [] 0 bytes.now) }
{
    let mut globals = Items::new(alloc);
    let mut met = 0;
    let mut rest = bytes;
    for _ in 0..count {
        let (global, now, after) = global_at(alloc, globals.as_slice(), met, rest)?;
        globals.push(global)?;
        met = now;
        rest = after;
    }
    Ok((globals, met, rest))
}

#[tactic(auto, unfolding(crate::specs::Reading::globals_at))]
fn globals_at(alloc: Global, bytes: &[u8]) -> Result<(Items<NamedValue>, u64, &[u8]), Stop>
    ensures { Gives (λ x. (x.0, x.1, x.2.now)) result (globals_at bytes.now) }
{
    let (count, rest) = count_at(bytes)?;
    many_globals_at(alloc, count, rest)
}

/// What the bytes hold, all of them.
#[tactic(auto, unfolding(crate::specs::Reading::parts_at))]
pub fn parts_at(alloc: Global, bytes: &[u8]) -> Result<Parts, Stop>
    ensures { Gives state_of result (parts_at bytes.now) }
{
    let rest = head_at(bytes)?;
    let (ran, rest) = ran_at(alloc, rest)?;
    let (globals, met, rest) = globals_at(alloc, rest)?;
    let most = MOST_OBJECTS * ran.len() as u64;
    let (objects, _, rest) = objects_at(alloc, most, met, rest)?;
    if !rest.is_empty() {
        return Err(Stop::Fault(SnapFault::LeftOver));
    }
    Ok(Parts {
        ran,
        globals,
        objects,
    })
}
