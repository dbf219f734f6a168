//! Reads keys, pairs and objects from the front of bytes. `met` is how many different objects were
//! met before.
ghost use Rattle.std.specs.Prelude.{◌≡◌, [], map, None, IfOk};
ghost use Rattle.star_meaning.specs.State.{dict_get};
ghost use Rattle.snapshot_codec.specs.Contents.{object_of};
ghost use Rattle.snapshot_codec.specs.Reading.{Gives, key_at, pair_at, pairs_at, content_at, numbered_object_at, object_at, objects_at, many_at};

use crate::SnapFault;
use crate::content::Content;
use crate::fields::{count_at, id_at, kind_at};
use crate::stop::Stop;
use crate::values::{values_at, whole_value_at};
use chex_base::NodeId;
use heap_store::{Kind, Pairs};
use sqlite_items::Items;
use star_value::{Key, Stop as KeyStop, Value};
use std::alloc::Global;

#[tactic(auto, unfolding(crate::specs::Reading::key_at))]
fn key_at(alloc: Global, met: u64, bytes: &[u8]) -> Result<(Key, u64, &[u8]), Stop>
    ensures { Gives (λ x. (x.0, x.1, x.2.now)) result (key_at met bytes.now) }
{
    let (value, met, rest) = whole_value_at(alloc, met, bytes)?;
    match Key::from_value(alloc, value) {
        Ok(key) => Ok((key, met, rest)),
        Err(KeyStop::Failure(_)) => Err(Stop::Fault(SnapFault::BadRule)),
        Err(KeyStop::NoMemory) => Err(Stop::NoMemory),
    }
}

/// A key that is not among these pairs, and its value.
#[tactic(auto, unfolding(crate::specs::Reading::pair_at))]
fn pair_at<'a>(
    alloc: Global,
    front: &Pairs,
    met: u64,
    bytes: &'a [u8],
) -> Result<((Key, Value), u64, &'a [u8]), Stop>
    ensures gives { Gives (λ x. (x.0, x.1, x.2.now)) result (pair_at front.now met bytes.now) }
    ensures new { IfOk result (λ x. dict_get front.now x.0.0 ≡ None) }
{
    let (key, met, rest) = key_at(alloc, met, bytes)?;
    if front.get(&key).is_some() {
        return Err(Stop::Fault(SnapFault::BadRule));
    }
    let (value, met, rest) = whole_value_at(alloc, met, rest)?;
    Ok(((key, value), met, rest))
}

fn many_pairs_at(
    alloc: Global,
    count: u64,
    before: u64,
    bytes: &[u8],
) -> Result<(Pairs, u64, &[u8]), Stop>
    ensures { Gives (λ x. (x.0, x.1, x.2.now)) result (many_at pair_at count [] before bytes.now) }
{
    let mut pairs = Pairs::new(alloc);
    let mut met = before;
    let mut rest = bytes;
    for _ in 0..count {
        let (pair, now, after) = pair_at(alloc, &pairs, met, rest)?;
        let (key, value) = pair;
        pairs.put(key, value)?;
        met = now;
        rest = after;
    }
    Ok((pairs, met, rest))
}

#[tactic(auto, unfolding(crate::specs::Reading::pairs_at))]
fn pairs_at(alloc: Global, met: u64, bytes: &[u8]) -> Result<(Pairs, u64, &[u8]), Stop>
    ensures { Gives (λ x. (x.0, x.1, x.2.now)) result (pairs_at met bytes.now) }
{
    let (count, rest) = count_at(bytes)?;
    many_pairs_at(alloc, count, met, rest)
}

/// What follows the tag of an object.
fn content_at(
    alloc: Global,
    kind: Kind,
    met: u64,
    bytes: &[u8],
) -> Result<(Content, u64, &[u8]), Stop>
    ensures { Gives (λ x. (object_of x.0, x.1, x.2.now)) result (content_at kind met bytes.now) }
{
    match kind {
        Kind::List => {
            let (items, met, rest) = values_at(alloc, met, bytes)?;
            Ok((Content::List(items), met, rest))
        }
        Kind::Dict => {
            let (pairs, met, rest) = pairs_at(alloc, met, bytes)?;
            Ok((Content::Dict(pairs), met, rest))
        }
        Kind::Function => {
            let (cell, rest) = id_at(bytes)?;
            let (number, rest) = id_at(rest)?;
            let (defaults, met, rest) = values_at(alloc, met, rest)?;
            Ok((Content::Function(NodeId(cell), number, defaults), met, rest))
        }
    }
}

/// The object of this number.
#[tactic(auto, unfolding(crate::specs::Reading::numbered_object_at))]
fn numbered_object_at(
    alloc: Global,
    number: u64,
    met: u64,
    bytes: &[u8],
) -> Result<(Content, u64, &[u8]), Stop>
    ensures { Gives (λ x. (object_of x.0, x.1, x.2.now)) result (numbered_object_at number met bytes.now) }
{
    let (kind, rest) = kind_at(bytes)?;
    if number >= met {
        return Err(Stop::Fault(SnapFault::BadOrder));
    }
    content_at(alloc, kind, met, rest)
}

fn many_objects_at(
    alloc: Global,
    count: u64,
    before: u64,
    bytes: &[u8],
) -> Result<(Items<Content>, u64, &[u8]), Stop>
    ensures { Gives (λ x. (map object_of x.0, x.1, x.2.now)) result (many_at object_at count [] before bytes.now) }
{
    let mut objects = Items::new(alloc);
    let mut met = before;
    let mut rest = bytes;
    for _ in 0..count {
        let number = objects.len() as u64;
        let (object, now, after) = numbered_object_at(alloc, number, met, rest)?;
        objects.push(object)?;
        met = now;
        rest = after;
    }
    Ok((objects, met, rest))
}

/// A count of at most so many objects, and the objects.
#[tactic(auto, unfolding(crate::specs::Reading::objects_at))]
pub fn objects_at(
    alloc: Global,
    most: u64,
    met: u64,
    bytes: &[u8],
) -> Result<(Items<Content>, u64, &[u8]), Stop>
    ensures { Gives (λ x. (map object_of x.0, x.1, x.2.now)) result (objects_at most met bytes.now) }
{
    let (count, rest) = count_at(bytes)?;
    if count > most {
        return Err(Stop::Fault(SnapFault::BadRule));
    }
    many_objects_at(alloc, count, met, rest)
}
