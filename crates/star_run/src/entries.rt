//! Entries of dict displays and of dict comprehensions.
ghost use Rattle.std.specs.Prelude.{◌≡◌, OnOk};
ghost use Rattle.star_builtins.specs.Changes.{PairsFit};
ghost use Rattle.star_builtins.specs.Reached.{Fits};
ghost use Rattle.star_run.specs.Entries as spec;
ghost use Rattle.star_run.specs.Gathers.{GivesMade};
ghost use Rattle.star_run.specs.Running.{Goes, world};

use crate::running::Run;
use heap_store::Pairs;
use star_value::{Failure, Key, Stop, Value};
use std::alloc::Global;

/// Adds an entry of a display, and takes the weight of its key; a key that stands already is
/// RepeatedKey.
#[tactic(auto, unfolding(star_meaning::specs::World::acting))]
pub fn new_entry(
    alloc: Global,
    run: &mut Run,
    pairs: &mut Pairs,
    key: &Value,
    value: Value,
) -> Result<(), Stop>
    requires key { Fits run.old.machine key.now }
    requires value { Fits run.old.machine value }
    requires pairs { PairsFit run.old.machine pairs.old }
    ensures gives { GivesMade (spec.new_entry key.now value pairs.old (world run.old)) result pairs.new (world run.new) }
    ensures goes { Goes run.old run.new }
    ensures fit { OnOk result (PairsFit run.new.machine pairs.new) }
{
    let entry = Key::of(alloc, key)?;
    if pairs.get(&entry).is_some() {
        return Err(Stop::Failure(Failure::RepeatedKey));
    }
    run.charge_weight(key)?;
    pairs.put(entry, value)?;
    Ok(())
}

/// Puts an entry, and takes the weight of its key; a key that stands already keeps its place and
/// takes the new value.
#[tactic(auto, unfolding(star_meaning::specs::World::acting))]
pub fn put_entry(
    alloc: Global,
    run: &mut Run,
    pairs: &mut Pairs,
    key: &Value,
    value: Value,
) -> Result<(), Stop>
    requires key { Fits run.old.machine key.now }
    requires value { Fits run.old.machine value }
    requires pairs { PairsFit run.old.machine pairs.old }
    ensures gives { GivesMade (spec.put_entry key.now value pairs.old (world run.old)) result pairs.new (world run.new) }
    ensures goes { Goes run.old run.new }
    ensures fit { OnOk result (PairsFit run.new.machine pairs.new) }
{
    let entry = Key::of(alloc, key)?;
    run.charge_weight(key)?;
    pairs.put(entry, value)?;
    Ok(())
}
