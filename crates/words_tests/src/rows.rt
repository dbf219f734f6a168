//! Rows: what a list of words is read as, and the words. Tabs stand between the fields.
use crate::shown::shown;
use chex_base::NoMemory;
use chex_words::{WordsFault, read_words};
use std::alloc::Global;

/// What the words of a row are read as, where that is not what the row says.
pub fn difference(alloc: Global, line: &str) -> Result<Option<String>, NoMemory> {
    let mut fields = line.split('\t');
    let Some(expected) = fields.next() else {
        return Ok(None);
    };
    let mut words = Vec::new(alloc);
    for field in fields {
        words.push(String::from_str(alloc, field)?)?;
    }
    let found = reading(alloc, &words)?;
    if found.as_str() == expected {
        return Ok(None);
    }
    Ok(Some(found))
}

fn reading(alloc: Global, words: &[String]) -> Result<String, NoMemory> {
    match read_words(alloc, words) {
        Ok(command) => shown(alloc, &command),
        Err(WordsFault::Usage) => Ok(String::from_str(alloc, "usage")?),
        Err(WordsFault::NoMemory) => Err(NoMemory),
    }
}
