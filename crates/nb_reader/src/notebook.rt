//! Notebooks of format 4, as Jupyter and the tools that share its files write them.
ghost use Rattle.std.specs.Prelude.{◌≡◌, ◌≤◌, ◌⊎◌, IfOk, length, option_map, string_bytes};
ghost use Rattle.serde_json.specs.View.{view, items_view};
ghost use Rattle.nb_reader.specs.Reading.{IsReading};
ghost use Rattle.nb_reader.specs.Notebook.{AreShort, notebook_of, sources_of, limited_to, cells_of, cell_of, cell_view, source_of, texts_of};

use crate::json::read_value;
use crate::{Counted, NbFault, Sources};
use chex_base::{NoMemory, Text};
use serde_json::Value;
use std::alloc::Global;

/// The most bytes of one code cell's joined source.
const MOST_SOURCE: usize = 65536;

/// The most code cells of a notebook.
const MOST_CELLS: usize = 64;

/// The joined sources of a notebook's code cells, in order, or the first refusal by the order of
/// docs/FORMATS.md: `NotJson`, `NotObject`, `WrongFormat`, `NoCells`, then for each element of
/// `cells` in order `BadCell` or `TooMany` of `CellBytes`, and last `TooMany` of `CodeCells`.
/// Metadata, outputs, attachments and all that is not named there are passed over.
///
/// There are at most 64 sources, each of at most 65,536 bytes. A caller hands in at most 16,777,216
/// bytes, and counts them itself. The cost is linear.
pub fn read_notebook(alloc: Global, bytes: &[u8]) -> Result<Sources, NbFault>
    ensures read { IsReading result (notebook_of bytes.now) }
    ensures short { IfOk result AreShort }
    ensures few { IfOk result (λ sources. length sources ≤ 64) }
{
    let value = read_value(alloc, bytes)?;
    sources_in(alloc, &value)
}

// The sources in a value that was read.
fn sources_in(alloc: Global, value: &Value) -> Result<Sources, NbFault>
    ensures read { IsReading result (sources_of (view value.now)) }
    ensures short { IfOk result AreShort }
    ensures few { IfOk result (λ sources. length sources ≤ 64) }
{
    if !value.is_object() {
        return Err(NbFault::NotObject);
    }
    let found = value.get("nbformat").and_then(Value::as_u64);
    if found != Some(4) {
        return Err(NbFault::WrongFormat { found });
    }
    match value.get("cells").and_then(Value::as_array) {
        None => Err(NbFault::NoCells),
        Some(cells) => limited(cell_sources(alloc, cells)?),
    }
}

// The sources, unless they are too many.
fn limited(sources: Sources) -> Result<Sources, NbFault>
    ensures limited { result ≡ limited_to sources }
    ensures same { IfOk result (λ found. found ≡ sources) }
    ensures few { IfOk result (λ found. length found ≤ 64) }
{
    let count = sources.as_slice().len();
    if count > MOST_CELLS {
        return Err(NbFault::TooMany {
            what: Counted::CodeCells,
            count: count as u64,
        });
    }
    Ok(sources)
}

// The sources of all code cells among the elements, or the first refusal of an element.
fn cell_sources(alloc: Global, cells: &[Value]) -> Result<Sources, NbFault>
    ensures read { IsReading result (cells_of 1 (items_view cells.now)) }
    ensures short { IfOk result AreShort }
{
    let mut sources = Sources::new(alloc);
    for (place, cell) in cells.iter().enumerate() {
        match code_of(alloc, cell)? {
            Cell::Bad => {
                // So many elements stand in no file that the caller hands in.
                let Ok(index) = u32::try_from(place + 1) else {
                    return Err(NbFault::NoMemory);
                };
                return Err(NbFault::BadCell { index });
            }
            Cell::Other => {}
            Cell::Code(text) => {
                if text.len() > MOST_SOURCE {
                    return Err(NbFault::TooMany {
                        what: Counted::CellBytes,
                        count: text.len() as u64,
                    });
                }
                sources.add(Text::from_str(alloc, &text)?)?;
            }
        }
    }
    Ok(sources)
}

/// What an element of `cells` is.
#[derive(Drop)]
enum Cell {
    /// No cell, or a code cell without a source.
    Bad,
    /// A cell of another kind.
    Other,
    /// A code cell with its joined source.
    Code(String),
}

// What an element is.
fn code_of(alloc: Global, cell: &Value) -> Result<Cell, NoMemory>
    ensures { IfOk result (λ c. cell_view c ≡ cell_of (view cell.now)) }
{
    match cell.get("cell_type").and_then(Value::as_str) {
        None => Ok(Cell::Bad),
        Some("code") => match cell.get("source") {
            None => Ok(Cell::Bad),
            Some(source) => match source_text(alloc, source)? {
                None => Ok(Cell::Bad),
                Some(text) => Ok(Cell::Code(text)),
            },
        },
        Some("markdown") => Ok(Cell::Other),
        Some("raw") => Ok(Cell::Other),
        Some(_) => Ok(Cell::Bad),
    }
}

// The text or the joined texts that a source is, if it is either.
fn source_text(alloc: Global, source: &Value) -> Result<Option<String>, NoMemory>
    ensures { IfOk result (λ o. option_map string_bytes o ≡ source_of (view source.now)) }
{
    match source.as_str() {
        Some(text) => Ok(Some(String::from_str(alloc, text)?)),
        None => match source.as_array() {
            Some(parts) => joined(alloc, parts),
            None => Ok(None),
        },
    }
}

// The texts one behind the other, if all elements are texts.
fn joined(alloc: Global, parts: &[Value]) -> Result<Option<String>, NoMemory>
    ensures { IfOk result (λ o. option_map string_bytes o ≡ texts_of (items_view parts.now)) }
{
    let mut text = String::new(alloc);
    for part in parts {
        match part.as_str() {
            Some(piece) => text.push_str(piece)?,
            None => return Ok(None),
        }
    }
    Ok(Some(text))
}
