//! Pairs by keys of each kind. A key is written by words: `None`, `True`, `False`, `7` and `"ab"`
//! stand for themselves, and `(2)` for the tuple of the two keys that stand before it.

use crate::fault::Fault;
use crate::words::{cut, integer, place};
use chex_base::Text;
use heap_store::Pairs;
use sqlite_items::Items;
use star_value::{Key, Value};
use std::alloc::Global;

/// The key of words.
fn key_of(alloc: Global, words: &str) -> Result<Key, Fault> {
    let mut keys = Vec::new(alloc);
    for word in words.split(' ') {
        match count_of(word) {
            Some(count) => tuple(alloc, &mut keys, count)?,
            None => keys.push(single(alloc, word)?)?,
        }
    }
    match keys.pop() {
        Some(key) => Ok(key),
        None => Err(Fault::Unread),
    }
}

/// How many keys a tuple takes, where the word is one's.
fn count_of(word: &str) -> Option<usize> {
    let inner = word.strip_prefix('(')?.strip_suffix(')')?;
    inner.parse::<usize>().ok()
}

fn tuple(alloc: Global, keys: &mut Vec<Key>, count: usize) -> Result<(), Fault> {
    if count > keys.len() {
        return Err(Fault::Unread);
    }
    let mut parts = Vec::new(alloc);
    for _part in 0..count {
        if let Some(key) = keys.pop() {
            parts.insert(0, key)?;
        }
    }
    keys.push(Key::Tuple(Items::from_vec(parts)))?;
    Ok(())
}

fn single(alloc: Global, word: &str) -> Result<Key, Fault> {
    match word {
        "None" => Ok(Key::None),
        "True" => Ok(Key::Bool(true)),
        "False" => Ok(Key::Bool(false)),
        _ => match quoted(word) {
            Some(text) => Ok(Key::Text(Text::from_str(alloc, text)?)),
            None => Ok(Key::Int(integer(word)?)),
        },
    }
}

fn quoted(word: &str) -> Option<&str> {
    word.strip_prefix('"')?.strip_suffix('"')
}

/// Makes the call of a row, and shows what it answers.
pub fn answer(alloc: Global, pairs: &mut Pairs, call: &str) -> Result<String, Fault> {
    let (word, rest) = cut(call);
    match word {
        "put" => put(alloc, pairs, rest),
        "len" => Ok(format!(in alloc; "{}", pairs.len())?),
        "get" => {
            let key = key_of(alloc, rest)?;
            Ok(format!(in alloc; "{:?}", pairs.get(&key))?)
        }
        "at" => at(alloc, pairs, rest),
        "take" => {
            let key = key_of(alloc, rest)?;
            Ok(format!(in alloc; "{:?}", pairs.take(&key))?)
        }
        "clear" => {
            pairs.clear();
            Ok(String::from_str(alloc, "done")?)
        }
        _ => Err(Fault::Unread),
    }
}

/// `INTEGER KEY`
fn put(alloc: Global, pairs: &mut Pairs, rest: &str) -> Result<String, Fault> {
    let (number, rest) = cut(rest);
    let number = integer(number)?;
    let key = key_of(alloc, rest)?;
    pairs.put(key, Value::Int(number))?;
    Ok(String::from_str(alloc, "done")?)
}

/// `PLACE`: the pair at a place.
fn at(alloc: Global, pairs: &Pairs, rest: &str) -> Result<String, Fault> {
    let (place, _) = place(rest)?;
    if place >= pairs.len() {
        return Err(Fault::Unread);
    }
    let (key, value) = pairs.at(place);
    Ok(format!(in alloc; "{key:?} {value:?}")?)
}
