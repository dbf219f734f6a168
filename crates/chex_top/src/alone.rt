//! Runs a version alone.
ghost use Rattle.std.specs.Prelude.{◌≡◌, ◌≤◌, ◌+◌, ◌^◌, Err, IfOk, OnOk, length};
ghost use Rattle.chex_base.specs.Outside.{Rose};
ghost use Rattle.star_meaning.specs.Cells as meaning;

use chex_base::{Inputs, NodeId, Text};
use kernel_api::{Kernel, KernelFault};
use node_rows::run_node;
use plan_type::Reach;
use star_syntax::{Cells, Program};
use std::alloc::Global;

/// Runs the cells of one version, one after another, from the state in which nothing has run, up to
/// and with the first that fails, with this many steps allowed for each. The answer is the text that
/// the version prints, and the kernel's count of steps rises by the version's. A refusal is the
/// kernel's, or want of memory.
///
/// It needs at most 64 cells, from 1 to 1,000,000 steps for each, and a kernel that has taken at
/// most 2^63 steps.
pub fn run_alone<K: Kernel>(
    alloc: Global,
    cells: Cells,
    inputs: &Inputs,
    allowance: u64,
    kernel: &mut K,
) -> Result<Text, KernelFault>
    requires few { length cells ≤ 64 }
    requires allowance { (1 ≤ allowance) × (allowance ≤ 1000000) }
    requires steps { K.steps kernel.old ≤ 2 ^ 63 }
    ensures text { IfOk result (λ text. text ≡ meaning.text cells inputs.now allowance) }
    ensures steps { OnOk result (K.steps kernel.new ≡ K.steps kernel.old + meaning.steps cells inputs.now allowance) }
    ensures cause { result ≡ Err KernelFault.Failed → Rose (K.faults kernel.old) (K.faults kernel.new) }
    ensures later { K.faults kernel.old ≤ K.faults kernel.new }
{
    let count = cells.as_slice().len();
    kernel.load(alloc, Program { cells })?;
    let mut text = Text::new(alloc);
    for place in 0..count {
        let parent = NodeId(place as u32);
        let node = NodeId(place as u32 + 1);
        let made = run_node(alloc, kernel, node, parent, place + 1, inputs, allowance)?;
        text.push_text(&made.text)?;
        match made.row.end {
            Reach::Done => {}
            _ => return Ok(text),
        }
    }
    Ok(text)
}
