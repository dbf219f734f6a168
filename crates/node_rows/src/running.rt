//! Runs a node, and measures it.
ghost use Rattle.std.specs.Prelude.{◌≡◌, ◌≤◌, ◌<◌, ◌+◌, ◌^◌, Err, IfOk, IfSome, IsSome, OnOk, option_map};
ghost use Rattle.chex_base.specs.Outside.{Rose};
ghost use Rattle.star_syntax.specs.Cells.{numbered};
ghost use Rattle.star_meaning.specs.Validity.{after, ran_at};
ghost use Rattle.kernel_api.specs.Live.{depth_of};
ghost use Rattle.node_rows.specs.Measures.{IsMeasured};

use crate::texts::{digest, text_of};
use chex_base::{Inputs, NodeId, Text};
use kernel_api::{Kernel, KernelFault};
use plan_type::{Reach, Row};
use star_meaning::End;
use std::alloc::Global;

/// A node that ran: its row, and what it prints.
#[derive(Drop)]
pub struct Measured {
    pub row: Row,
    /// What its cell writes, and after a failure the line of the failure.
    pub text: Text,
}

/// Runs the cell of a node in the live state, with these inputs and this many steps allowed, and
/// measures it. The live state becomes the one after the cell, and the kernel's count of steps
/// rises by the cell's. `parent` is the node above, and `number` counts the cells of a version from
/// 1. A refusal is the kernel's, or want of memory.
pub fn run_node<K: Kernel>(
    alloc: Global,
    kernel: &mut K,
    node: NodeId,
    parent: NodeId,
    number: usize,
    inputs: &Inputs,
    allowance: u64,
) -> Result<Measured, KernelFault>
    requires ready { IsSome (K.live kernel.old) }
    requires node { IsSome (numbered (K.loaded kernel.old).cells node) }
    requires few { depth_of (K.live kernel.old) < 64 }
    requires allowance { (1 ≤ allowance) × (allowance ≤ 1000000) }
    requires room { K.steps kernel.old + allowance < 2 ^ 64 }
    ensures measured { IfOk result (λ made. IfSome (K.live kernel.old) (λ m. IsMeasured parent number
        (ran_at (K.loaded kernel.old) m node inputs.now allowance) (after (K.loaded kernel.old) m node inputs.now allowance) made)) }
    ensures live { OnOk result (K.live kernel.new ≡ option_map (λ m. after (K.loaded kernel.old) m node inputs.now allowance) (K.live kernel.old)) }
    ensures steps { IfOk result (λ made. K.steps kernel.new ≡ K.steps kernel.old + made.row.steps) }
    ensures loaded { K.loaded kernel.new ≡ K.loaded kernel.old }
    ensures cause { result ≡ Err KernelFault.Failed → Rose (K.faults kernel.old) (K.faults kernel.new) }
    ensures later { K.faults kernel.old ≤ K.faults kernel.new }
{
    let ran = kernel.run(alloc, node, inputs, allowance)?;
    let end = ran.end;
    let steps = ran.steps;
    let printed = text_of(alloc, number, ran)?;
    let text = digest(&printed);
    match end {
        End::Done => Ok(Measured {
            row: Row {
                parent,
                end: Reach::Done,
                steps,
                bytes: kernel.size(),
                text,
            },
            text: printed,
        }),
        End::Failed { .. } => Ok(Measured {
            row: Row {
                parent,
                end: Reach::Failed,
                steps,
                bytes: 0,
                text,
            },
            text: printed,
        }),
    }
}
