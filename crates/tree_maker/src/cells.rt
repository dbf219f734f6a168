//! Fresh cells, and those that a version has from an earlier one.
ghost use Rattle.std.specs.Prelude.{◌≡◌, ◌<◌, ◌≤◌, ◌+◌, ◌*◌, ◌^◌, ◌++◌, length, map, take, IfOk, OnOk, string_bytes};
ghost use Rattle.std.specs.Str.{chars};
ghost use Rattle.tree_maker.specs.Generator.{next, word_after, cell_text, fresh_cell, fresh_cells, copied, kept, word_at_cells};

use crate::draws::draw;
use crate::sources::Sources;
use crate::version::Version;
use chex_base::{NoMemory, Text};
use std::alloc::Global;

/// The source of the fresh cell with this number, by two draws.
fn fresh_cell(alloc: Global, word: &mut u64, number: u32) -> Result<Text, NoMemory>
    ensures text { IfOk result (λ text. text ≡ fresh_cell word.old number) }
    ensures word { word.new ≡ next (next word.old) }
{
    let size = 1 + draw(word, 50);
    let list = draw(word, 4);
    let source = source(alloc, number, size, list)?;
    Text::from_str(alloc, &source)
}

/// A cell that makes a list and prints its length and its first item.
fn source(alloc: Global, number: u32, size: u32, list: u32) -> Result<String, NoMemory>
    ensures { IfOk result (λ text. chars (string_bytes text) ≡ cell_text number size list) }
{
    Ok(format!(in alloc;
        "l{list} = [{number} + i for i in range({size})]\nprint(len(l{list}), l{list}[0])"
    )?)
}

/// Adds this many fresh cells, numbered from `first` on.
pub fn add_fresh(
    alloc: Global,
    word: &mut u64,
    sources: &mut Sources,
    first: u32,
    count: u32,
) -> Result<(), NoMemory>
    requires { first + count < 2 ^ 32 }
    ensures cells { OnOk result (sources.new ≡ sources.old ++ fresh_cells word.old first count) }
    ensures word { OnOk result (word.new ≡ word_after word.old (2 * count)) }
{
    for place in 0..count {
        let source = fresh_cell(alloc, word, first + place)?;
        sources.add(source)?;
    }
    Ok(())
}

/// Adds the cells that a version after these has from one of them, by two draws, and answers how
/// many they are; the first version of all has none, and draws nothing.
pub fn add_kept(
    alloc: Global,
    word: &mut u64,
    sources: &mut Sources,
    earlier: &[Version],
    cells: u32,
) -> Result<u32, NoMemory>
    requires few { length earlier.now < 2 ^ 32 }
    requires cells { 0 < cells }
    ensures count { IfOk result (λ count. count ≡ copied word.old cells (length earlier.now)) }
    ensures most { IfOk result (λ count. count ≤ cells) }
    ensures cells { OnOk result (sources.new ≡ sources.old ++ kept word.old cells (map (λ v. v.sources) earlier.now)) }
    ensures word { OnOk result (word.new ≡ word_at_cells word.old (length earlier.now)) }
{
    if earlier.len() == 0 {
        return Ok(0);
    }
    let from = draw(word, earlier.len() as u32);
    let count = draw(word, cells);
    add_front(
        alloc,
        sources,
        earlier[from as usize].sources.as_slice(),
        count as usize,
    )?;
    Ok(count)
}

/// Adds copies of the first `count` of these texts, or of all where they are fewer.
fn add_front(
    alloc: Global,
    sources: &mut Sources,
    texts: &[Text],
    count: usize,
) -> Result<(), NoMemory>
    ensures { OnOk result (sources.new ≡ sources.old ++ take count texts.now) }
{
    for text in &texts[..count.min(texts.len())] {
        sources.add(text.copy(alloc)?)?;
    }
    Ok(())
}
