//! The bytes that are measured.

use chex_base::NoMemory;
use std::alloc::Global;

/// How many bytes each text has.
const TEXT: usize = 470;

/// The snapshot of a state after node 1: the global `x` is a list of so many lists, each of which
/// holds one text.
pub fn snapshot(alloc: Global, count: u32) -> Result<Vec<u8>, NoMemory> {
    let mut bytes = Vec::new(alloc);
    bytes.extend_from_slice(b"CHX2")?;
    put_count(&mut bytes, 1)?;
    put_id(&mut bytes, 1)?;
    put_count(&mut bytes, 1)?;
    put_count(&mut bytes, 1)?;
    bytes.extend_from_slice(b"x")?;
    bytes.push(7)?;
    put_id(&mut bytes, 0)?;
    put_count(&mut bytes, u64::from(count) + 1)?;
    bytes.push(0)?;
    put_count(&mut bytes, u64::from(count))?;
    for number in 0..count {
        bytes.push(7)?;
        put_id(&mut bytes, number.saturating_add(1))?;
    }
    for number in 0..count {
        put_list(&mut bytes, number)?;
    }
    Ok(bytes)
}

/// A list of one text.
fn put_list(bytes: &mut Vec<u8>, number: u32) -> Result<(), NoMemory> {
    bytes.push(0)?;
    put_count(bytes, 1)?;
    bytes.push(4)?;
    put_count(bytes, TEXT as u64)?;
    let letter = b'a' + (number % 26) as u8;
    for _place in 0..TEXT {
        bytes.push(letter)?;
    }
    Ok(())
}

fn put_count(bytes: &mut Vec<u8>, count: u64) -> Result<(), NoMemory> {
    bytes.extend_from_slice(&count.to_be_bytes())?;
    Ok(())
}

fn put_id(bytes: &mut Vec<u8>, id: u32) -> Result<(), NoMemory> {
    bytes.extend_from_slice(&id.to_be_bytes())?;
    Ok(())
}
