//! All versions.
ghost use Rattle.std.specs.Prelude.{◌≡◌, ◌≤◌, ◌+◌, ◌-◌, ◌<◌, ◌^◌, ◌*◌, length, map, IfOk, OnOk};
ghost use Rattle.tree_maker.specs.Generator.{word_after, copied, word_at_cells, sources_of, name_of, made};

use crate::cells::{add_fresh, add_kept};
use crate::sources::Sources;
use crate::version::{Version, Versions};
use chex_base::{NoMemory, Text};
use std::alloc::Global;

/// The versions that the generator makes from `seed`: so many versions, each of so many cells
/// (docs/FORMATS.md). The same numbers make the same versions. It takes time and memory linear in
/// the number of all their cells.
pub fn make(alloc: Global, seed: u64, versions: u32, cells: u32) -> Result<Versions, NoMemory>
    requires versions { (1 ≤ versions) × (versions ≤ 64) }
    requires cells { (1 ≤ cells) × (cells ≤ 64) }
    ensures { IfOk result (λ all. all ≡ made seed cells versions) }
{
    let mut maker = Maker {
        word: seed,
        fresh: 0,
    };
    let mut all = Versions::new(alloc);
    for number in 0..versions {
        let sources = maker.sources(alloc, all.as_slice(), cells)?;
        let name = name(alloc, number)?;
        all.add(Version { name, sources })?;
    }
    Ok(all)
}

/// What is kept from version to version.
#[derive(Drop)]
struct Maker {
    /// The generator's word.
    word: u64,
    /// How many fresh cells there are.
    fresh: u32,
}

impl Maker {
    /// The sources of the version that follows these.
    fn sources(
        &mut self,
        alloc: Global,
        earlier: &[Version],
        cells: u32,
    ) -> Result<Sources, NoMemory>
        requires few { length earlier.now < 2 ^ 32 }
        requires cells { 0 < cells }
        requires small { self.old.fresh + cells + 1 < 2 ^ 32 }
        ensures sources { IfOk result (λ s. s ≡ sources_of self.old.word self.old.fresh cells (map (λ v. v.sources) earlier.now)) }
        ensures fresh { OnOk result (self.new.fresh ≡ self.old.fresh + (cells - copied self.old.word cells (length earlier.now))) }
        ensures word { OnOk result (self.new.word ≡ word_after (word_at_cells self.old.word (length earlier.now)) (2 * (cells - copied self.old.word cells (length earlier.now)))) }
    {
        let mut sources = Sources::new(alloc);
        let kept = add_kept(alloc, &mut self.word, &mut sources, earlier, cells)?;
        let fresh = cells - kept;
        add_fresh(alloc, &mut self.word, &mut sources, self.fresh + 1, fresh)?;
        self.fresh += fresh;
        Ok(sources)
    }
}

/// The name of a version, which are numbered from 0.
fn name(alloc: Global, number: u32) -> Result<Text, NoMemory>
    ensures { IfOk result (λ name. name ≡ name_of number) }
{
    let name = format!(in alloc; "v{number}")?;
    Text::from_str(alloc, &name)
}
