//! Bytes from the words that spell them.
use crate::fault::Fault;
use std::alloc::Global;

/// The bytes that words of hexadecimal digits spell. A word may end with a star and how often its
/// bytes stand.
pub fn bytes_of(alloc: Global, words: &str) -> Result<Vec<u8>, Fault> {
    let mut bytes = Vec::new(alloc);
    for word in words.split(' ') {
        match word.split_once('*') {
            Some((digits, times)) => {
                let Ok(times) = times.parse::<u32>() else {
                    return Err(Fault::Unread);
                };
                for _ in 0..times {
                    put(alloc, digits, &mut bytes)?;
                }
            }
            None => put(alloc, word, &mut bytes)?,
        }
    }
    Ok(bytes)
}

fn put(alloc: Global, digits: &str, bytes: &mut Vec<u8>) -> Result<(), Fault> {
    let Ok(more) = hex::decode(alloc, digits) else {
        return Err(Fault::Unread);
    };
    for byte in more.as_slice() {
        bytes.push(*byte)?;
    }
    Ok(())
}
