//! Manifests: the list of versions with the files of each.
ghost use Rattle.std.specs.Prelude.{◌≡◌, ◌≤◌, IfOk, length, option_map};
ghost use Rattle.std.specs.List.{list_all};
ghost use Rattle.serde_json.specs.View.{items_view, view};
ghost use Rattle.nb_reader.specs.Manifest.{distinct_of, has_name, is_name_byte as may_stand, is_version_name, limited_versions, manifest_in, manifest_of, optional_file_of, version_of, versions_of};
ghost use Rattle.nb_reader.specs.Reading.{IsReading};

use crate::json::read_value;
use crate::{Counted, Entries, NbFault};
use chex_base::{NoMemory, Text};
use serde_json::Value;
use std::alloc::Global;

/// The most versions of a manifest.
const MOST_VERSIONS: usize = 64;

/// The most letters of a version's name.
const MOST_NAME: usize = 64;

/// The versions of a manifest, in the order of the file. No two have one name.
#[derive(Drop)]
pub struct Manifest {
    pub versions: Entries,
}

/// One version of a manifest.
#[derive(Drop)]
pub struct Entry {
    /// 1 to 64 ASCII letters, digits, `_`, `-` and `.`.
    pub name: Text,
    /// The name of the notebook's file, which is not empty.
    pub notebook: Text,
    /// The name of the inputs' file, if the version has one; it is not empty.
    pub inputs: Option<Text>,
}

/// The manifest of a file, or the first refusal by the order of docs/FORMATS.md: `NotJson`,
/// `NotObject`, `NoVersions`, `TooMany` of `Versions`, then `BadVersion` at the first element that
/// is no version, and last `RepeatedName` at the first name that stood before.
///
/// A caller hands in at most 16,777,216 bytes, and counts them itself. The cost is linear in them.
pub fn read_manifest(alloc: Global, bytes: &[u8]) -> Result<Manifest, NbFault>
    ensures { IsReading result (manifest_of bytes.now) }
{
    let value = read_value(alloc, bytes)?;
    manifest_from(alloc, &value)
}

// The manifest in a value that was read.
fn manifest_from(alloc: Global, value: &Value) -> Result<Manifest, NbFault>
    ensures { IsReading result (manifest_in (view value.now)) }
{
    if !value.is_object() {
        return Err(NbFault::NotObject);
    }
    match value.get("versions").and_then(Value::as_array) {
        None => Err(NbFault::NoVersions),
        Some(elements) => limited(alloc, elements),
    }
}

// The manifest of these elements, unless they are too many.
fn limited(alloc: Global, elements: &[Value]) -> Result<Manifest, NbFault>
    ensures { IsReading result (limited_versions (items_view elements.now)) }
{
    let count = elements.len();
    if count > MOST_VERSIONS {
        return Err(NbFault::TooMany {
            what: Counted::Versions,
            count: count as u64,
        });
    }
    let versions = versions_in(alloc, elements)?;
    distinct(alloc, versions)
}

// All versions, or the first element that is none.
fn versions_in(alloc: Global, elements: &[Value]) -> Result<Entries, NbFault>
    requires { length elements.now ≤ MOST_VERSIONS }
    ensures { IsReading result (versions_of 1 (items_view elements.now)) }
{
    let mut versions = Entries::new(alloc);
    for (place, element) in elements.iter().enumerate() {
        match version_in(alloc, element)? {
            None => {
                return Err(NbFault::BadVersion {
                    index: place as u32 + 1,
                });
            }
            Some(version) => versions.add(version)?,
        }
    }
    Ok(versions)
}

// The manifest of these versions, unless a name stands twice.
fn distinct(alloc: Global, versions: Entries) -> Result<Manifest, NbFault>
    ensures { IsReading result (distinct_of versions) }
{
    let entries = versions.as_slice();
    for (place, version) in entries.iter().enumerate() {
        if is_among(&entries[..place], &version.name) {
            return Err(NbFault::RepeatedName {
                name: version.name.copy(alloc)?,
            });
        }
    }
    Ok(Manifest { versions })
}

// Whether one of the versions has this name.
fn is_among(versions: &[Entry], name: &Text) -> bool
    ensures { result ≡ has_name versions.now name.now }
{
    versions.iter().any(|version| version.name == *name)
}

// The version that an element stands for, if it may stand for one.
fn version_in(alloc: Global, element: &Value) -> Result<Option<Entry>, NoMemory>
    ensures { IfOk result (λ found. found ≡ version_of (view element.now)) }
{
    let Some(name) = element.get("name").and_then(Value::as_str) else {
        return Ok(None);
    };
    if !is_name(name) {
        return Ok(None);
    }
    let Some(notebook) = element.get("notebook").and_then(Value::as_str) else {
        return Ok(None);
    };
    if notebook.is_empty() {
        return Ok(None);
    }
    let Some(inputs) = optional_file(alloc, element.get("inputs"))? else {
        return Ok(None);
    };
    Ok(Some(Entry {
        name: Text::from_str(alloc, name)?,
        notebook: Text::from_str(alloc, notebook)?,
        inputs,
    }))
}

// The name of a file that need not be there, if the value may stand for one or for none.
fn optional_file(alloc: Global, value: Option<&Value>) -> Result<Option<Option<Text>>, NoMemory>
    ensures { IfOk result (λ found. found ≡ optional_file_of (option_map (λ v. view v.now) value.entry)) }
{
    match value {
        None => Ok(Some(None)),
        Some(Value::Null) => Ok(Some(None)),
        Some(Value::String(text)) => {
            if text.is_empty() {
                Ok(None)
            } else {
                Ok(Some(Some(Text::from_str(alloc, text.as_str())?)))
            }
        }
        Some(_) => Ok(None),
    }
}

// Whether a text may be a version's name.
fn is_name(text: &str) -> bool
    ensures { result ≡ is_version_name text.now }
{
    !text.is_empty() && text.len() <= MOST_NAME && are_name_bytes(text.as_bytes())
}

// Whether all bytes may stand in a version's name.
fn are_name_bytes(bytes: &[u8]) -> bool
    ensures { result ≡ list_all may_stand bytes.now }
{
    bytes.iter().all(|byte| is_name_byte(*byte))
}

// Whether a byte may stand in a version's name.
fn is_name_byte(byte: u8) -> bool
    ensures { result ≡ may_stand byte }
{
    byte.is_ascii_alphanumeric() || byte == b'_' || byte == b'-' || byte == b'.'
}
