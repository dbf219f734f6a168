//! The calls of the rows.
ghost use Rattle.std.specs.Prelude.{◌≡◌, length, IfOk};

use crate::fault::Fault;
use crate::programs::program_of;
use crate::told::{digits, ended};
use chex_base::{Inputs, NodeId};
use kernel_api::{Kernel, KernelFault, PutFault, RestoreFault, SaveFault, Store, StoreFault};
use std::alloc::Global;

/// As many steps may have been taken where a cell is run.
const MOST_STEPS: u64 = 1_000_000_000_000;

/// What a call answered, and how many cells the kernel's program has after it.
#[derive(Drop)]
pub struct Made {
    pub answer: String,
    pub cells: usize,
}

fn said(alloc: Global, answer: &str) -> Result<String, Fault> {
    Ok(String::from_str(alloc, answer)?)
}

/// Makes the call of a row. Where the kernel or the store must not be asked it, because of what
/// they tell, the answer says so.
pub fn make_call<K: Kernel, S: Store>(
    alloc: Global,
    kernel: &mut K,
    store: &mut S,
    cells: usize,
    call: &str,
) -> Result<Made, Fault>
    requires { length (K.loaded kernel.old).cells ≡ cells }
    ensures { IfOk result (λ made. length (K.loaded kernel.new).cells ≡ made.cells) }
{
    let (word, rest) = match call.split_once(' ') {
        Some(parts) => parts,
        None => (call, ""),
    };
    if word == "load" {
        return load(alloc, kernel, rest);
    }
    let answer = answer_of(alloc, kernel, store, cells, word, rest)?;
    Ok(Made { answer, cells })
}

fn load<K: Kernel>(alloc: Global, kernel: &mut K, text: &str) -> Result<Made, Fault>
    ensures { IfOk result (λ made. length (K.loaded kernel.new).cells ≡ made.cells) }
{
    let program = program_of(alloc, text)?;
    let cells = program.cells.as_slice().len();
    match kernel.load(alloc, program) {
        Ok(()) => Ok(Made {
            answer: said(alloc, "done")?,
            cells,
        }),
        Err(KernelFault::Failed) => Ok(Made {
            answer: said(alloc, "kernel failed")?,
            cells: 0,
        }),
        Err(KernelFault::NoMemory) => Err(Fault::NoMemory),
    }
}

/// What every other call answers.
fn answer_of<K: Kernel, S: Store>(
    alloc: Global,
    kernel: &mut K,
    store: &mut S,
    cells: usize,
    word: &str,
    rest: &str,
) -> Result<String, Fault>
    requires { length (K.loaded kernel.old).cells ≡ cells }
    ensures { K.loaded kernel.new ≡ K.loaded kernel.old }
{
    match word {
        "reset" => {
            kernel.reset();
            said(alloc, "done")
        }
        "run" => run(alloc, kernel, cells, rest),
        "save" => save(alloc, kernel, store, rest),
        "restore" => restore_held(alloc, kernel, store, rest),
        "bytes" => {
            let bytes = bytes_of(alloc, rest)?;
            restore(alloc, kernel, &bytes)
        }
        "begin" => begin(alloc, store, rest),
        "held" => held(alloc, store, rest),
        _ => Err(Fault::Unread),
    }
}

fn number(text: &str) -> Option<u32> {
    text.parse::<u32>().ok()
}

fn pair(text: &str) -> Option<(u32, u32)> {
    let (first, second) = text.split_once(' ')?;
    Some((number(first)?, number(second)?))
}

/// Runs the cell of a node without inputs, with so many steps allowed.
#[tactic(auto, using(crate::proofs::Numbers::node_there))]
fn run<K: Kernel>(alloc: Global, kernel: &mut K, cells: usize, rest: &str) -> Result<String, Fault>
    requires { length (K.loaded kernel.old).cells ≡ cells }
    ensures { K.loaded kernel.new ≡ K.loaded kernel.old }
{
    let Some((node, allowance)) = pair(rest) else {
        return Err(Fault::Unread);
    };
    if node < 1
        || node as usize > cells
        || allowance < 1
        || allowance > 1_000_000
        || !kernel.ready()
        || kernel.depth() >= 64
        || kernel.steps() > MOST_STEPS
    {
        return said(alloc, "not asked");
    }
    let inputs = Inputs::new(alloc);
    match kernel.run(alloc, NodeId(node), &inputs, u64::from(allowance)) {
        Ok(ran) => ended(alloc, &ran),
        Err(KernelFault::Failed) => said(alloc, "kernel failed"),
        Err(KernelFault::NoMemory) => Err(Fault::NoMemory),
    }
}

fn save<K: Kernel, S: Store>(
    alloc: Global,
    kernel: &mut K,
    store: &mut S,
    rest: &str,
) -> Result<String, Fault>
    ensures { K.loaded kernel.new ≡ K.loaded kernel.old }
{
    let Some(node) = number(rest) else {
        return Err(Fault::Unread);
    };
    if !kernel.ready() || store.holds(NodeId(node)) {
        return said(alloc, "not asked");
    }
    match kernel.save(alloc, store, NodeId(node)) {
        Ok(()) => said(alloc, "done"),
        Err(SaveFault::Full) => said(alloc, "full"),
        Err(SaveFault::KernelFailed) => said(alloc, "kernel failed"),
        Err(SaveFault::StoreFailed) => said(alloc, "store failed"),
        Err(SaveFault::NoMemory) => Err(Fault::NoMemory),
    }
}

/// Restores what the store holds for a node.
fn restore_held<K: Kernel, S: Store>(
    alloc: Global,
    kernel: &mut K,
    store: &mut S,
    rest: &str,
) -> Result<String, Fault>
    ensures { K.loaded kernel.new ≡ K.loaded kernel.old }
{
    let Some(node) = number(rest) else {
        return Err(Fault::Unread);
    };
    if !store.holds(NodeId(node)) {
        return said(alloc, "not asked");
    }
    match store.get(alloc, NodeId(node)) {
        Ok(bytes) => restore(alloc, kernel, &bytes),
        Err(StoreFault::Failed) => said(alloc, "store failed"),
        Err(StoreFault::NoMemory) => Err(Fault::NoMemory),
    }
}

fn restore<K: Kernel>(alloc: Global, kernel: &mut K, bytes: &[u8]) -> Result<String, Fault>
    ensures { K.loaded kernel.new ≡ K.loaded kernel.old }
{
    match kernel.restore(alloc, bytes) {
        Ok(()) => said(alloc, "done"),
        Err(RestoreFault::Damaged) => said(alloc, "damaged"),
        Err(RestoreFault::KernelFailed) => said(alloc, "kernel failed"),
        Err(RestoreFault::NoMemory) => Err(Fault::NoMemory),
    }
}

/// Begins the store, with so many bytes in a block and so many blocks.
fn begin<S: Store>(alloc: Global, store: &mut S, rest: &str) -> Result<String, Fault> {
    let Some((block, most)) = pair(rest) else {
        return Err(Fault::Unread);
    };
    if block < 256 || block > 1_048_576 || most > 1024 {
        return said(alloc, "not asked");
    }
    match store.begin(alloc, block, most) {
        Ok(()) => said(alloc, "done"),
        Err(StoreFault::Failed) => said(alloc, "store failed"),
        Err(StoreFault::NoMemory) => Err(Fault::NoMemory),
    }
}

/// The bytes that the store holds for a node.
fn held<S: Store>(alloc: Global, store: &mut S, rest: &str) -> Result<String, Fault> {
    let Some(node) = number(rest) else {
        return Err(Fault::Unread);
    };
    if !store.holds(NodeId(node)) {
        return said(alloc, "not asked");
    }
    match store.get(alloc, NodeId(node)) {
        Ok(bytes) => digits(alloc, &bytes),
        Err(StoreFault::Failed) => said(alloc, "store failed"),
        Err(StoreFault::NoMemory) => Err(Fault::NoMemory),
    }
}

/// The bytes of hexadecimal digits, among which spaces may stand.
fn bytes_of(alloc: Global, digits: &str) -> Result<Vec<u8>, Fault> {
    let mut bytes = Vec::new(alloc);
    let mut before: Option<u8> = None;
    for c in digits.chars() {
        if c == ' ' {
            continue;
        }
        let Some(digit) = c.to_digit(16) else {
            return Err(Fault::Unread);
        };
        let digit = (digit & 15) as u8;
        match before {
            None => before = Some(digit),
            Some(high) => {
                bytes.push(high.wrapping_mul(16) | digit)?;
                before = None;
            }
        }
    }
    Ok(bytes)
}
