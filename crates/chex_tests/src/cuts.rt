//! A notebook that was cut off.
use crate::fault::Fault;
use crate::rows::difference;
use chex_base::{Calls, Files, MemoryLibrary, Text};
use std::alloc::Global;

/// A row over a file that was cut off.
const ROW: &str = "solo f\t5\terror: f: not json¶";

/// What differs where a notebook that Jupyter would write is cut off after each of its bytes but the
/// last.
pub fn difference_of_cuts(alloc: Global, library: &MemoryLibrary) -> Result<Option<String>, Fault> {
    let Some(bytes) = library.files.find("sales.ipynb") else {
        return Err(Fault::Unread);
    };
    for end in 0..bytes.len() {
        let mut files = Files::new(alloc);
        files.add(Text::from_str(alloc, "f")?, bytes[..end].to_vec(alloc)?)?;
        let mut library = MemoryLibrary::new(files, Calls::new(alloc));
        if let Some(what) = difference(alloc, ROW, &mut library)? {
            return Ok(Some(format!(in alloc; "{end} bytes: {what}")?));
        }
    }
    Ok(None)
}
