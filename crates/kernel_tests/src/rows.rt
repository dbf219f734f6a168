//! Rows: a call, and what it answers with what the kernel and the store tell after it. A tab stands
//! between the two. A line without a tab is no row.
ghost use Rattle.std.specs.Prelude.{◌≡◌, []};

use crate::calls::make_call;
use crate::fault::Fault;
use crate::told::told;
use kernel_api::{Kernel, Store};
use std::alloc::Global;

/// How many rows agree, and a line for each that differs.
#[derive(Drop)]
pub struct Played {
    pub agree: u64,
    pub differing: String,
}

/// Plays the rows of a table one after the other, over a kernel whose program has no cells.
pub fn play<K: Kernel, S: Store>(
    alloc: Global,
    kernel: &mut K,
    store: &mut S,
    table: &str,
) -> Result<Played, Fault>
    requires { (K.loaded kernel.old).cells ≡ [] }
{
    let mut cells = 0;
    let mut agree: u64 = 0;
    let mut differing = String::new(alloc);
    for line in table.lines() {
        let Some((call, wanted)) = line.split_once('\t') else {
            continue;
        };
        let made = make_call(alloc, kernel, store, cells, call)?;
        cells = made.cells;
        let after = told(alloc, kernel, store)?;
        let found = format!(in alloc; "{}; {after}", made.answer)?;
        if found.as_str() == wanted {
            agree = agree.saturating_add(1);
        } else {
            let difference = format!(in alloc; "{call}: {found}\n")?;
            differing.push_str(difference.as_str())?;
        }
    }
    Ok(Played { agree, differing })
}
