//! What runs cells.
ghost use Rattle.std.specs.Prelude.{◌≡◌, ◌≤◌, ◌<◌, ◌⊎◌, ℕ, ◌+◌, ◌^◌, false, [], Option, Some, None, is_some, option_map, IsSome, IfSome, IfOk, OnOk, OnErr};
ghost use Rattle.chex_base.specs.Outside.{Rose};
ghost use Rattle.star_syntax.specs.declared.cell.Program.{Program as AProgram};
ghost use Rattle.star_syntax.specs.Cells.{numbered};
ghost use Rattle.star_meaning.specs.Snapshot.{IsBytesOf, IsSnapshot};
ghost use Rattle.star_meaning.specs.Validity.{IsValid, MachineState, after, nothing_ran, ran_at};
ghost use Rattle.kernel_api.specs.Live.{IsSizeOf, PutsSnapshot, SnapshotPasses, depth_of};
ghost use Rattle.kernel_api.specs.Stock.{holds};

use crate::{KernelFault, RestoreFault, SaveFault, Store};
use chex_base::{Inputs, NodeId};
use star_meaning::Ran;
use star_syntax::Program;
use std::alloc::Global;

/// A loaded program, a live state or none, a count of steps and a count of faults. A kernel is ready
/// where it has a live state. Neither count ever falls, and a count of faults that has reached the
/// greatest `u64` stays there. The count of steps changes in `run` alone, and the program in `load`
/// alone. `reset`, `size`, `ready`, `depth`, `steps` and `faults` take no memory.
pub trait Kernel {
    /// The program that is loaded.
    ghost loaded: { Self → AProgram };

    /// The state in which the next cell runs, if there is one.
    ghost live: { Self → Option MachineState };

    /// How many steps its cells have taken.
    ghost steps: { Self → ℕ };

    /// How often a call has failed.
    ghost faults: { Self → ℕ };

    /// Loads a program in place of the one before, and makes the live state the one in which nothing
    /// has run. After a refusal the kernel is not ready, and its program has no cells.
    fn load(&mut self, alloc: Global, program: Program) -> Result<(), KernelFault>
        ensures ok { OnOk result ((loaded self.new ≡ program) × (live self.new ≡ Some nothing_ran)) }
        ensures err { OnErr result (((loaded self.new).cells ≡ []) × (live self.new ≡ None)) }
        ensures steps { steps self.new ≡ steps self.old }
        ensures cause { result ≡ Err KernelFault.Failed → Rose (faults self.old) (faults self.new) }
        ensures later { faults self.old ≤ faults self.new };

    /// Makes the live state the one in which nothing has run.
    fn reset(&mut self)
        ensures live { live self.new ≡ Some nothing_ran }
        ensures same { (loaded self.new ≡ loaded self.old) × (steps self.new ≡ steps self.old) }
        ensures later { faults self.old ≤ faults self.new };

    /// Runs the cell of a node in the live state, with these inputs and this many steps allowed: how
    /// the cell ends, what it writes and the steps that it takes are what the cell means, and the
    /// live state becomes the one after it. The count of steps rises by the cell's. After a refusal
    /// the kernel is not ready, and the count of steps is as before.
    fn run(
        &mut self,
        alloc: Global,
        node: NodeId,
        inputs: &Inputs,
        allowance: u64,
    ) -> Result<Ran, KernelFault>
        requires ready { IsSome (live self.old) }
        requires node { IsSome (numbered (loaded self.old).cells node) }
        requires few { depth_of (live self.old) < 64 }
        requires allowance { (1 ≤ allowance) × (allowance ≤ 1000000) }
        requires room { steps self.old + allowance < 2 ^ 64 }
        ensures ok { IfOk result (λ ran. IfSome (live self.old) (λ m. ran ≡ ran_at (loaded self.old) m node inputs.now allowance)) }
        ensures live { OnOk result (live self.new ≡ option_map (λ m. after (loaded self.old) m node inputs.now allowance) (live self.old)) }
        ensures steps { IfOk result (λ ran. steps self.new ≡ steps self.old + ran.steps) }
        ensures err { OnErr result ((live self.new ≡ None) × (steps self.new ≡ steps self.old)) }
        ensures same { loaded self.new ≡ loaded self.old }
        ensures cause { result ≡ Err KernelFault.Failed → Rose (faults self.old) (faults self.new) }
        ensures later { faults self.old ≤ faults self.new };

    /// The bytes of the live state's snapshot, or the greatest `u64` where there are more.
    fn size(&self) -> u64
        requires { IsSome (live self.now) }
        ensures { IfSome (live self.now) (λ m. IsSizeOf m result) };

    /// Puts the snapshot of the live state into a store, at a node that is not held. Full comes only
    /// where the snapshot's blocks and the held ones pass the most, and where they do the answer is
    /// never Ok. The live state stays at Ok and at Full; after every other refusal the kernel is not
    /// ready. A refused call changes nothing of the store but its count.
    fn save<S: Store>(
        &mut self,
        alloc: Global,
        store: &mut S,
        node: NodeId,
    ) -> Result<(), SaveFault>
        requires ready { IsSome (live self.old) }
        requires node { holds node (S.stock store.old).held ≡ false }
        ensures ok { OnOk result (IfSome (live self.old) (λ m. PutsSnapshot m node (S.stock store.old) (S.stock store.new))) }
        ensures live { OnOk result (live self.new ≡ live self.old) }
        ensures err { OnErr result (S.stock store.new ≡ S.stock store.old) }
        ensures full { result ≡ Err SaveFault.Full → (live self.new ≡ live self.old) × IfSome (live self.old) (λ m. SnapshotPasses m (S.stock store.old)) }
        ensures always { IfSome (live self.old) (λ m. SnapshotPasses m (S.stock store.old) → OnOk result ⊥) }
        ensures lost { OnErr result ((result ≡ Err SaveFault.Full) ⊎ (live self.new ≡ None)) }
        ensures same { (loaded self.new ≡ loaded self.old) × (steps self.new ≡ steps self.old) }
        ensures kernel_cause { result ≡ Err SaveFault.KernelFailed → Rose (faults self.old) (faults self.new) }
        ensures store_cause { result ≡ Err SaveFault.StoreFailed → Rose (S.faults store.old) (S.faults store.new) }
        ensures later { faults self.old ≤ faults self.new }
        ensures store_later { S.faults store.old ≤ S.faults store.new };

    /// Makes live a state that is valid over the loaded program and whose snapshot the bytes are.
    /// Damaged comes only where they are no snapshot over that program; where they are none the
    /// answer is never Ok. After a refusal the kernel is not ready.
    fn restore(&mut self, alloc: Global, bytes: &[u8]) -> Result<(), RestoreFault>
        ensures ok { OnOk result ((m : MachineState) × (live self.new ≡ Some m) × IsValid (loaded self.old) m × IsBytesOf m bytes.now) }
        ensures err { OnErr result (live self.new ≡ None) }
        ensures damaged { result ≡ Err RestoreFault.Damaged → IsSnapshot (loaded self.old) bytes.now → ⊥ }
        ensures same { (loaded self.new ≡ loaded self.old) × (steps self.new ≡ steps self.old) }
        ensures cause { result ≡ Err RestoreFault.KernelFailed → Rose (faults self.old) (faults self.new) }
        ensures later { faults self.old ≤ faults self.new };

    /// Whether there is a live state.
    fn ready(&self) -> bool
        ensures { result ≡ is_some (live self.now) };

    /// How many cells have run in the live state; 0 where there is none.
    fn depth(&self) -> u32
        ensures { result ≡ depth_of (live self.now) };

    /// How many steps its cells have taken.
    fn steps(&self) -> u64
        ensures { result ≡ steps self.now };

    /// How often a call has failed.
    fn faults(&self) -> u64
        ensures { result ≡ faults self.now };

    /// A live state is valid over the loaded program.
    ghost valid: { (kernel : Self) → IfSome (live kernel) (IsValid (loaded kernel)) };
}
