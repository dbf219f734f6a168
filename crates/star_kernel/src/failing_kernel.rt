//! A kernel that fails where it is told to.
ghost use Rattle.std.specs.Prelude.{◌≡◌, ◌≤◌, ◌<◌, ◌+◌, ◌^◌, ◌⊎◌, ◌↔◌, [], true, false, Some, None, Err, IsSome, IfOk, IfSome, OnOk, OnErr, option_map};
ghost use Rattle.chex_base.specs.Outside.{Rose, one_more};
ghost use Rattle.star_syntax.specs.Cells.{numbered};
ghost use Rattle.star_meaning.specs.Snapshot.{IsBytesOf, IsSnapshot};
ghost use Rattle.star_meaning.specs.Validity.{IsValid, MachineState, after, nothing_ran, ran_at};
ghost use Rattle.kernel_api.specs.Live.{PutsSnapshot, SnapshotPasses, depth_of};
ghost use Rattle.kernel_api.specs.Stock.{holds};
ghost use Rattle.star_kernel.specs.Failing.{IsListed, faults_after, faults_after_restore, faults_after_save};
ghost use Rattle.star_kernel.specs.Kernels.{live_of, loaded_of, steps_of};

use crate::StarKernel;
use chex_base::{Calls, Inputs, NodeId};
use kernel_api::{Kernel, KernelFault, RestoreFault, SaveFault, Store};
use star_meaning::Ran;
use star_syntax::Program;
use std::alloc::Global;

/// A kernel over a machine, for tests: it fails exactly at the listed calls of `load`, `run`, `save`
/// and `restore`.
#[derive(Drop)]
pub struct FailingKernel {
    inner: StarKernel,
    /// The numbers of the calls that fail; the first call has number 1.
    pub failing: Calls,
    /// How many of these calls were made; the count stands still at the greatest `u64`.
    pub calls: u64,
    faults: u64,
}

impl FailingKernel {
    /// A kernel whose program has no cells, without a live state, with no steps taken and no call
    /// made. It takes no memory.
    pub fn new(alloc: Global, failing: Calls) -> FailingKernel
        ensures loaded { (loaded_of result.inner).cells ≡ [] }
        ensures live { live_of result.inner ≡ None }
        ensures steps { steps_of result.inner ≡ 0 }
        ensures rest { (result.failing ≡ failing) × (result.calls ≡ 0) × (result.faults ≡ 0) }
    {
        FailingKernel {
            inner: StarKernel::new(alloc),
            failing,
            calls: 0,
            faults: 0,
        }
    }

    /// Counts a call, and answers whether it is listed.
    fn count_call(&mut self) -> bool
        ensures listed { (result ≡ true) ↔ IsListed self.old.failing self.old.calls }
        ensures calls { self.new ≡ record self.old { calls = one_more self.old.calls } }
    {
        let listed = self.calls < u64::MAX && self.failing.contains(self.calls + 1);
        self.calls = self.calls.saturating_add(1);
        listed
    }

    /// Counts a failure.
    fn count_fault(&mut self)
        ensures faults { self.new ≡ record self.old { faults = one_more self.old.faults } }
        ensures later { self.old.faults ≤ self.new.faults }
    {
        self.faults = self.faults.saturating_add(1);
    }
}

impl Kernel for FailingKernel {
    ghost loaded = { λ k. loaded_of k.inner };

    ghost live = { λ k. live_of k.inner };

    ghost steps = { λ k. steps_of k.inner };

    ghost faults = { λ k. k.faults };

    fn load(&mut self, alloc: Global, program: Program) -> Result<(), KernelFault>
        ensures ok { OnOk result ((loaded_of self.new.inner ≡ program) × (live_of self.new.inner ≡ Some nothing_ran)) }
        ensures err { OnErr result (((loaded_of self.new.inner).cells ≡ []) × (live_of self.new.inner ≡ None)) }
        ensures steps { steps_of self.new.inner ≡ steps_of self.old.inner }
        ensures cause { result ≡ Err KernelFault.Failed → Rose self.old.faults self.new.faults }
        ensures later { self.old.faults ≤ self.new.faults }
        // It fails exactly at a listed call, and the count rises by one there and nowhere else.
        ensures fails { (result ≡ Err KernelFault.Failed) ↔ IsListed self.old.failing self.old.calls }
        ensures faults { self.new.faults ≡ faults_after result self.old.faults }
        ensures calls { self.new.calls ≡ one_more self.old.calls }
        ensures list { self.new.failing ≡ self.old.failing }
    {
        if self.count_call() {
            self.count_fault();
            self.inner.unload();
            return Err(KernelFault::Failed);
        }
        self.inner.load(alloc, program)
    }

    fn reset(&mut self)
        ensures live { live_of self.new.inner ≡ Some nothing_ran }
        ensures same { (loaded_of self.new.inner ≡ loaded_of self.old.inner) × (steps_of self.new.inner ≡ steps_of self.old.inner) }
        ensures later { self.old.faults ≤ self.new.faults }
        // It is not counted.
        ensures rest { (self.new.faults ≡ self.old.faults) × (self.new.calls ≡ self.old.calls) × (self.new.failing ≡ self.old.failing) }
    {
        self.inner.reset();
    }

    fn run(
        &mut self,
        alloc: Global,
        node: NodeId,
        inputs: &Inputs,
        allowance: u64,
    ) -> Result<Ran, KernelFault>
        requires ready { IsSome (live_of self.old.inner) }
        requires node { IsSome (numbered (loaded_of self.old.inner).cells node) }
        requires few { depth_of (live_of self.old.inner) < 64 }
        requires allowance { (1 ≤ allowance) × (allowance ≤ 1000000) }
        requires room { steps_of self.old.inner + allowance < 2 ^ 64 }
        ensures ok { IfOk result (λ ran. IfSome (live_of self.old.inner) (λ m. ran ≡ ran_at (loaded_of self.old.inner) m node inputs.now allowance)) }
        ensures live { OnOk result (live_of self.new.inner ≡ option_map (λ m. after (loaded_of self.old.inner) m node inputs.now allowance) (live_of self.old.inner)) }
        ensures steps { IfOk result (λ ran. steps_of self.new.inner ≡ steps_of self.old.inner + ran.steps) }
        ensures err { OnErr result ((live_of self.new.inner ≡ None) × (steps_of self.new.inner ≡ steps_of self.old.inner)) }
        ensures same { loaded_of self.new.inner ≡ loaded_of self.old.inner }
        ensures cause { result ≡ Err KernelFault.Failed → Rose self.old.faults self.new.faults }
        ensures later { self.old.faults ≤ self.new.faults }
        // It fails exactly at a listed call, and the count rises by one there and nowhere else.
        ensures fails { (result ≡ Err KernelFault.Failed) ↔ IsListed self.old.failing self.old.calls }
        ensures faults { self.new.faults ≡ faults_after result self.old.faults }
        ensures calls { self.new.calls ≡ one_more self.old.calls }
        ensures list { self.new.failing ≡ self.old.failing }
    {
        if self.count_call() {
            self.count_fault();
            self.inner.stop();
            return Err(KernelFault::Failed);
        }
        self.inner.run(alloc, node, inputs, allowance)
    }

    fn size(&self) -> u64 {
        self.inner.size()
    }

    fn save<S: Store>(
        &mut self,
        alloc: Global,
        store: &mut S,
        node: NodeId,
    ) -> Result<(), SaveFault>
        requires ready { IsSome (live_of self.old.inner) }
        requires node { holds node (S.stock store.old).held ≡ false }
        ensures ok { OnOk result (IfSome (live_of self.old.inner) (λ m. PutsSnapshot m node (S.stock store.old) (S.stock store.new))) }
        ensures live { OnOk result (live_of self.new.inner ≡ live_of self.old.inner) }
        ensures err { OnErr result (S.stock store.new ≡ S.stock store.old) }
        ensures full { result ≡ Err SaveFault.Full → (live_of self.new.inner ≡ live_of self.old.inner) × IfSome (live_of self.old.inner) (λ m. SnapshotPasses m (S.stock store.old)) }
        ensures always { IfSome (live_of self.old.inner) (λ m. SnapshotPasses m (S.stock store.old) → OnOk result ⊥) }
        ensures lost { OnErr result ((result ≡ Err SaveFault.Full) ⊎ (live_of self.new.inner ≡ None)) }
        ensures same { (loaded_of self.new.inner ≡ loaded_of self.old.inner) × (steps_of self.new.inner ≡ steps_of self.old.inner) }
        ensures kernel_cause { result ≡ Err SaveFault.KernelFailed → Rose self.old.faults self.new.faults }
        ensures store_cause { result ≡ Err SaveFault.StoreFailed → Rose (S.faults store.old) (S.faults store.new) }
        ensures later { self.old.faults ≤ self.new.faults }
        ensures store_later { S.faults store.old ≤ S.faults store.new }
        // It fails exactly at a listed call, and the count rises by one there and nowhere else.
        ensures fails { (result ≡ Err SaveFault.KernelFailed) ↔ IsListed self.old.failing self.old.calls }
        ensures faults { self.new.faults ≡ faults_after_save result self.old.faults }
        ensures calls { self.new.calls ≡ one_more self.old.calls }
        ensures list { self.new.failing ≡ self.old.failing }
    {
        if self.count_call() {
            self.count_fault();
            self.inner.stop();
            return Err(SaveFault::KernelFailed);
        }
        self.inner.save(alloc, store, node)
    }

    fn restore(&mut self, alloc: Global, bytes: &[u8]) -> Result<(), RestoreFault>
        ensures ok { OnOk result ((m : MachineState) × (live_of self.new.inner ≡ Some m) × IsValid (loaded_of self.old.inner) m × IsBytesOf m bytes.now) }
        ensures err { OnErr result (live_of self.new.inner ≡ None) }
        ensures damaged { result ≡ Err RestoreFault.Damaged → IsSnapshot (loaded_of self.old.inner) bytes.now → ⊥ }
        ensures same { (loaded_of self.new.inner ≡ loaded_of self.old.inner) × (steps_of self.new.inner ≡ steps_of self.old.inner) }
        ensures cause { result ≡ Err RestoreFault.KernelFailed → Rose self.old.faults self.new.faults }
        ensures later { self.old.faults ≤ self.new.faults }
        // It fails exactly at a listed call, and the count rises by one there and nowhere else.
        ensures fails { (result ≡ Err RestoreFault.KernelFailed) ↔ IsListed self.old.failing self.old.calls }
        ensures faults { self.new.faults ≡ faults_after_restore result self.old.faults }
        ensures calls { self.new.calls ≡ one_more self.old.calls }
        ensures list { self.new.failing ≡ self.old.failing }
    {
        if self.count_call() {
            self.count_fault();
            self.inner.stop();
            return Err(RestoreFault::KernelFailed);
        }
        self.inner.restore(alloc, bytes)
    }

    fn ready(&self) -> bool {
        self.inner.ready()
    }

    fn depth(&self) -> u32 {
        self.inner.depth()
    }

    fn steps(&self) -> u64 {
        self.inner.steps()
    }

    fn faults(&self) -> u64 {
        self.faults
    }

    ghost valid = { λ k. k.inner.valid };
}
