//! Readers and writers that give or take little at once, fail in mid-stream, or note what they were
//! asked for.

use crate::fault::Fault;
use crate::words::{cut, flag, number};
use chex_base::{Found, OutSink, Sink, read_prefix};
use std::alloc::Global;
use std::io;
use std::io::{ErrorKind, Read, Write};

/// Gives so many bytes, at most so many at once, and then ends or fails. It notes how many bytes it
/// was asked for.
#[derive(Drop)]
struct Source {
    left: usize,
    at_once: usize,
    fails: bool,
    asked: usize,
}

impl Read for Source {
    fn read(&mut self, buf: &mut [u8]) -> io::Result<usize> {
        self.asked = self.asked.saturating_add(buf.len());
        if self.left == 0 && self.fails {
            return Err(io::Error::from(ErrorKind::Other));
        }
        let count = self.left.min(self.at_once).min(buf.len());
        self.left -= count;
        buf[..count].fill(7);
        Ok(count)
    }
}

/// A row: what a source has, how much it gives at once, whether it fails at its end, and how much is
/// asked for. The answer is how many bytes are found, none where the read fails, and for how many
/// the source was asked: at most 4,096 bytes at once, and never for more than what is still wanted.
pub fn prefix(alloc: Global, row: &str) -> Result<String, Fault> {
    let (left, rest) = cut(row);
    let (at_once, rest) = cut(rest);
    let (fails, most) = cut(rest);
    let mut source = Source {
        left: number(left)?,
        at_once: number(at_once)?,
        fails: flag(fails)?,
        asked: 0,
    };
    let found = match read_prefix(alloc, &mut source, number(most)?) {
        Found::Bytes(bytes) => Some(bytes.len()),
        _ => None,
    };
    let asked = source.asked;
    Ok(format!(in alloc; "{found:?} asked {asked}")?)
}

/// Takes at most so many bytes at once, and so many in all, and then takes nothing or fails.
#[derive(Drop)]
struct Target {
    taken: Vec<u8>,
    at_once: usize,
    room: usize,
    fails: bool,
    flush_fails: bool,
}

impl Write for Target {
    fn write(&mut self, buf: &[u8]) -> io::Result<usize> {
        let count = self.room.min(self.at_once).min(buf.len());
        if count == 0 && self.fails {
            return Err(io::Error::from(ErrorKind::Other));
        }
        match self.taken.extend_from_slice(&buf[..count]) {
            Ok(()) => {
                self.room -= count;
                Ok(count)
            }
            Err(_) => Err(io::Error::from(ErrorKind::OutOfMemory)),
        }
    }

    fn flush(&mut self) -> io::Result<()> {
        if self.flush_fails {
            Err(io::Error::from(ErrorKind::Other))
        } else {
            Ok(())
        }
    }
}

/// A row: how much a target takes at once and in all, whether it fails where it takes nothing and at
/// a flush, and a piece that is written. The answer is whether the write was done, how many faults
/// the sink counts, and whether the target holds what stands behind the piece.
pub fn piece(alloc: Global, row: &str) -> Result<String, Fault> {
    let (at_once, rest) = cut(row);
    let (room, rest) = cut(rest);
    let (fails, rest) = cut(rest);
    let (flush_fails, rest) = cut(rest);
    let (piece, wanted) = cut(rest);
    let mut target = Target {
        taken: Vec::new(alloc),
        at_once: number(at_once)?,
        room: number(room)?,
        fails: flag(fails)?,
        flush_fails: flag(flush_fails)?,
    };
    let (done, faults) = written(&mut target, piece);
    let holds = target.taken.as_slice() == wanted.as_bytes();
    let end = if done { "done" } else { "failed" };
    let held = if holds {
        "holds it"
    } else {
        "holds something else"
    };
    Ok(format!(in alloc; "{end}, {faults} faults, {held}")?)
}

/// Whether a piece was written, and the faults that the sink counted.
fn written(target: &mut Target, piece: &str) -> (bool, u64) {
    let mut out = OutSink::new(target);
    let done = out.write(piece.as_bytes()).is_ok();
    (done, out.faults())
}
