//! The kernel over a machine.
ghost use Rattle.std.specs.Prelude.{◌≡◌, [], None, IfSome};
ghost use Rattle.std.proofs.Props.{props};
ghost use Rattle.star_meaning.specs.Validity.{IsValid};
ghost use Rattle.kernel_api.specs.Live.{IsSizeOf};

use crate::restoring::restored;
use crate::saving::put_snapshot;
use chex_base::{Inputs, NodeId};
use heap_store::Machine;
use kernel_api::{Kernel, KernelFault, RestoreFault, SaveFault, Store};
use snapshot_codec::size;
use star_meaning::Ran;
use star_run::run_cell;
use star_syntax::{Cells, Program};
use std::alloc::Global;

/// The bytes of the snapshot of the state in which nothing has run: four, and three counts.
const LEAST_SIZE: u64 = 28;

/// A kernel over a machine. It never fails, so its count of faults is 0. The size of the live
/// state's snapshot is kept as a number: it is counted after each cell, which takes time linear in
/// the state, and after `restore` it is the number of bytes.
#[derive(Drop)]
pub struct StarKernel {
    alloc: Global,
    program: Program,
    live: Option<Machine>,
    /// The bytes of the live state's snapshot, or the greatest `u64` where there are more.
    size: u64,
    steps: u64,
    ghost valid: { IfSome live (IsValid program) } by { Prim.hlevel props },
    ghost sized: { IfSome live (λ m. IsSizeOf m size) } by { Prim.hlevel props },
}

/// The program without cells. It takes no memory.
fn no_program(alloc: Global) -> Program
    ensures { result.cells ≡ [] }
{
    Program {
        cells: Cells::from_vec(Vec::new(alloc)),
    }
}

impl StarKernel {
    ghost use Rattle.star_kernel.specs.Kernels.{live_of, loaded_of, steps_of};

    /// A kernel whose program has no cells, without a live state, and with no steps taken. It takes
    /// no memory.
    pub fn new(alloc: Global) -> StarKernel
        ensures loaded { (loaded_of result).cells ≡ [] }
        ensures live { live_of result ≡ None }
        ensures steps { steps_of result ≡ 0 }
    {
        StarKernel {
            alloc,
            program: no_program(alloc),
            live: None,
            size: 0,
            steps: 0,
        }
    }

    /// Ends the live state. It takes no memory.
    pub(crate) fn stop(&mut self)
        ensures live { live_of self.new ≡ None }
        ensures same { (loaded_of self.new ≡ loaded_of self.old) × (steps_of self.new ≡ steps_of self.old) }
    {
        self.live = None;
    }

    /// Ends the live state, and leaves a program without cells. It takes no memory.
    pub(crate) fn unload(&mut self)
        ensures loaded { (loaded_of self.new).cells ≡ [] }
        ensures live { live_of self.new ≡ None }
        ensures steps { steps_of self.new ≡ steps_of self.old }
    {
        self.live = None;
        self.program = no_program(self.alloc);
    }
}

impl Kernel for StarKernel {
    ghost use Rattle.std.specs.Prelude.{◌≡◌};
    ghost use Rattle.star_kernel.specs.Kernels.{live_of, loaded_of, steps_of};

    ghost loaded = { loaded_of };

    ghost live = { live_of };

    ghost steps = { steps_of };

    ghost faults = { λ k. 0 };

    fn load(&mut self, _alloc: Global, program: Program) -> Result<(), KernelFault> {
        self.live = None;
        self.program = program;
        self.reset();
        Ok(())
    }

    #[tactic(auto, using(crate::proofs::KernelLemmas::nothing_valid, crate::proofs::KernelLemmas::nothing_size))]
    fn reset(&mut self) {
        self.size = LEAST_SIZE;
        self.live = Some(Machine::new(self.alloc));
    }

    #[tactic(auto, using(crate::proofs::KernelLemmas::steps_within))]
    fn run(
        &mut self,
        alloc: Global,
        node: NodeId,
        inputs: &Inputs,
        allowance: u64,
    ) -> Result<Ran, KernelFault> {
        let Some(mut machine) = self.live.take() else {
            unreachable!()
        };
        let ran = run_cell(alloc, &mut machine, &self.program, node, inputs, allowance)?;
        self.size = size(alloc, &machine)?;
        self.live = Some(machine);
        self.steps += ran.steps;
        Ok(ran)
    }

    fn size(&self) -> u64 {
        self.size
    }

    fn save<S: Store>(
        &mut self,
        alloc: Global,
        store: &mut S,
        node: NodeId,
    ) -> Result<(), SaveFault> {
        let Some(machine) = self.live.take() else {
            unreachable!()
        };
        match put_snapshot(alloc, &machine, store, node) {
            Ok(()) => {
                self.live = Some(machine);
                Ok(())
            }
            Err(SaveFault::Full) => {
                self.live = Some(machine);
                Err(SaveFault::Full)
            }
            Err(fault) => Err(fault),
        }
    }

    fn restore(&mut self, alloc: Global, bytes: &[u8]) -> Result<(), RestoreFault> {
        self.live = None;
        let (machine, size) = restored(alloc, bytes, &self.program)?;
        self.size = size;
        self.live = Some(machine);
        Ok(())
    }

    fn ready(&self) -> bool {
        self.live.is_some()
    }

    fn depth(&self) -> u32 {
        match &self.live {
            Some(machine) => machine.ran().len() as u32,
            None => 0,
        }
    }

    fn steps(&self) -> u64 {
        self.steps
    }

    fn faults(&self) -> u64
        ensures { result ≡ 0 }
    {
        0
    }

    ghost valid = { λ k. k.valid };
}
