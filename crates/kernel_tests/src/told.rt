//! What kernels and stores tell, as texts.

use crate::fault::Fault;
use kernel_api::{Kernel, Store};
use star_meaning::{End, Ran};
use std::alloc::Global;

/// What a kernel and its store tell: how many cells have run, the steps, the size where there is a
/// live state, the faults, and the blocks that are held.
pub fn told<K: Kernel, S: Store>(alloc: Global, kernel: &K, store: &S) -> Result<String, Fault> {
    let state = state_of(alloc, kernel)?;
    let steps = kernel.steps();
    let faults = kernel.faults();
    let held = store.used();
    let failed = store.faults();
    Ok(format!(in alloc;
        "{state}, {steps} steps, {faults} faults; {held} blocks, {failed} faults"
    )?)
}

fn state_of<K: Kernel>(alloc: Global, kernel: &K) -> Result<String, Fault> {
    let depth = kernel.depth();
    if kernel.ready() {
        let size = kernel.size();
        Ok(format!(in alloc; "{depth} run, {size} bytes")?)
    } else {
        Ok(format!(in alloc; "{depth} run, not ready")?)
    }
}

/// How a cell ended, its steps, and what it wrote, with `\n` for a newline.
pub fn ended(alloc: Global, ran: &Ran) -> Result<String, Fault> {
    let steps = ran.steps;
    let out = on_one_line(alloc, ran.out.as_str())?;
    match ran.end {
        End::Done => Ok(format!(in alloc; "ended in {steps} with {out}")?),
        End::Failed { failure, line } => {
            Ok(format!(in alloc; "{failure:?} in line {line} in {steps} with {out}")?)
        }
    }
}

fn on_one_line(alloc: Global, text: &str) -> Result<String, Fault> {
    let mut out = String::new(alloc);
    for c in text.chars() {
        if c == '\n' {
            out.push_str("\\n")?;
        } else {
            out.push(c)?;
        }
    }
    Ok(out)
}

/// Bytes by two hexadecimal digits each.
pub fn digits(alloc: Global, bytes: &[u8]) -> Result<String, Fault> {
    let mut out = String::new(alloc);
    for byte in bytes {
        let two = format!(in alloc; "{byte:02x}")?;
        out.push_str(two.as_str())?;
    }
    Ok(out)
}
