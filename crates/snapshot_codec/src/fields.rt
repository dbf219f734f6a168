//! Reads numbers, texts and tags from the front of bytes. Each answers what it read with the bytes
//! after it, or the first fault.
ghost use Rattle.std.specs.Prelude.{◌≡◌};
ghost use Rattle.snapshot_codec.specs.Reading.{Gives, byte_at, id_at, count_at, integer_at, points_of, text_at, tag_of, tag_at, kind_of, kind_at, builtin_of, mark_at, head_at};

use crate::SnapFault;
use crate::stop::Stop;
use crate::tag::Tag;
use chex_base::Text;
use heap_store::Kind;
use star_value::Builtin;
use std::alloc::Global;

/// A byte, or `Short` where there is none.
pub fn byte_at(bytes: &[u8]) -> Result<(u8, &[u8]), Stop>
    ensures { Gives (λ x. (x.0, x.1.now)) result (byte_at bytes.now) }
{
    match bytes {
        [] => Err(Stop::Fault(SnapFault::Short)),
        [first, rest @ ..] => Ok((*first, rest)),
    }
}

/// A number of four bytes, the greatest first.
#[tactic(auto, unfolding(crate::specs::Reading::id_at))]
pub fn id_at(bytes: &[u8]) -> Result<(u32, &[u8]), Stop>
    ensures { Gives (λ x. (x.0, x.1.now)) result (id_at bytes.now) }
{
    if bytes.len() < 4 {
        return Err(Stop::Fault(SnapFault::Short));
    }
    let (front, rest) = bytes.split_at(4);
    let number = u32::from_be_bytes([front[0], front[1], front[2], front[3]]);
    Ok((number, rest))
}

/// A number of eight bytes, the greatest first.
#[tactic(auto, unfolding(crate::specs::Reading::count_at))]
pub fn count_at(bytes: &[u8]) -> Result<(u64, &[u8]), Stop>
    ensures { Gives (λ x. (x.0, x.1.now)) result (count_at bytes.now) }
{
    if bytes.len() < 8 {
        return Err(Stop::Fault(SnapFault::Short));
    }
    let (front, rest) = bytes.split_at(8);
    let number = u64::from_be_bytes([
        front[0], front[1], front[2], front[3], front[4], front[5], front[6], front[7],
    ]);
    Ok((number, rest))
}

/// An integer of sixteen bytes in two's complement, the greatest first.
#[tactic(auto, unfolding(crate::specs::Reading::integer_at))]
pub fn integer_at(bytes: &[u8]) -> Result<(i128, &[u8]), Stop>
    ensures { Gives (λ x. (x.0, x.1.now)) result (integer_at bytes.now) }
{
    let (high, rest) = count_at(bytes)?;
    let (low, rest) = count_at(rest)?;
    let bits = high as u128 * 0x1_0000_0000_0000_0000 + low as u128;
    Ok((bits.cast_signed(), rest))
}

/// The text of these bytes, or `BadText` where they are no UTF-8.
#[tactic(auto, using(crate::proofs::Texts::utf8_so, crate::proofs::Texts::utf8_not))]
fn points_of(alloc: Global, bytes: &[u8]) -> Result<Text, Stop>
    ensures { Gives (λ x. x) result (points_of bytes.now) }
{
    match std::str::from_utf8(bytes) {
        Ok(text) => Ok(Text::from_str(alloc, text)?),
        Err(_) => Err(Stop::Fault(SnapFault::BadText)),
    }
}

/// A count of bytes and a text of so many.
#[tactic(auto, unfolding(crate::specs::Reading::text_at))]
pub fn text_at(alloc: Global, bytes: &[u8]) -> Result<(Text, &[u8]), Stop>
    ensures { Gives (λ x. (x.0, x.1.now)) result (text_at bytes.now) }
{
    let (len, rest) = count_at(bytes)?;
    let len = len as usize;
    if rest.len() < len {
        return Err(Stop::Fault(SnapFault::Short));
    }
    let (front, rest) = rest.split_at(len);
    let text = points_of(alloc, front)?;
    Ok((text, rest))
}

/// The kind of value with this tag.
fn tag_of(byte: u8) -> Option<Tag>
    ensures { result ≡ tag_of byte }
{
    match byte {
        0 => Some(Tag::None),
        1 => Some(Tag::False),
        2 => Some(Tag::True),
        3 => Some(Tag::Int),
        4 => Some(Tag::Text),
        5 => Some(Tag::Tuple),
        6 => Some(Tag::Range),
        7 => Some(Tag::List),
        8 => Some(Tag::Dict),
        9 => Some(Tag::Function),
        10 => Some(Tag::Builtin),
        _ => None,
    }
}

/// The tag of a value, or `BadTag` where the byte is none.
#[tactic(auto, unfolding(crate::specs::Reading::tag_at))]
pub fn tag_at(bytes: &[u8]) -> Result<(Tag, &[u8]), Stop>
    ensures { Gives (λ x. (x.0, x.1.now)) result (tag_at bytes.now) }
{
    let (byte, rest) = byte_at(bytes)?;
    match tag_of(byte) {
        Some(tag) => Ok((tag, rest)),
        None => Err(Stop::Fault(SnapFault::BadTag)),
    }
}

/// The kind of object with this tag.
fn kind_of(byte: u8) -> Option<Kind>
    ensures { result ≡ kind_of byte }
{
    match byte {
        0 => Some(Kind::List),
        1 => Some(Kind::Dict),
        2 => Some(Kind::Function),
        _ => None,
    }
}

/// The tag of an object, or `BadTag` where the byte is none.
#[tactic(auto, unfolding(crate::specs::Reading::kind_at))]
pub fn kind_at(bytes: &[u8]) -> Result<(Kind, &[u8]), Stop>
    ensures { Gives (λ x. (x.0, x.1.now)) result (kind_at bytes.now) }
{
    let (byte, rest) = byte_at(bytes)?;
    match kind_of(byte) {
        Some(kind) => Ok((kind, rest)),
        None => Err(Stop::Fault(SnapFault::BadTag)),
    }
}

/// The built-in function of this number.
pub fn builtin_of(byte: u8) -> Option<Builtin>
    ensures { result ≡ builtin_of byte }
{
    match byte {
        0 => Some(Builtin::Abs),
        1 => Some(Builtin::All),
        2 => Some(Builtin::Any),
        3 => Some(Builtin::Bool),
        4 => Some(Builtin::Dict),
        5 => Some(Builtin::Enumerate),
        6 => Some(Builtin::Int),
        7 => Some(Builtin::Len),
        8 => Some(Builtin::List),
        9 => Some(Builtin::Max),
        10 => Some(Builtin::Min),
        11 => Some(Builtin::Print),
        12 => Some(Builtin::Range),
        13 => Some(Builtin::Repr),
        14 => Some(Builtin::Reversed),
        15 => Some(Builtin::Sorted),
        16 => Some(Builtin::Str),
        17 => Some(Builtin::Tuple),
        18 => Some(Builtin::Type),
        19 => Some(Builtin::Zip),
        _ => None,
    }
}

/// The bytes after this one, which stands in front.
fn mark_at(wanted: u8, bytes: &[u8]) -> Result<&[u8], Stop>
    ensures { Gives (λ x. x.now) result (mark_at wanted bytes.now) }
{
    let (first, rest) = byte_at(bytes)?;
    if first != wanted {
        return Err(Stop::Fault(SnapFault::BadTag));
    }
    Ok(rest)
}

/// The bytes after the four with which each snapshot begins.
#[tactic(auto, unfolding(crate::specs::Reading::head_at))]
pub fn head_at(bytes: &[u8]) -> Result<&[u8], Stop>
    ensures { Gives (λ x. x.now) result (head_at bytes.now) }
{
    let rest = mark_at(b'C', bytes)?;
    let rest = mark_at(b'H', rest)?;
    let rest = mark_at(b'X', rest)?;
    let rest = mark_at(b'2', rest)?;
    Ok(rest)
}
