//! A store that fails where it is told to.
ghost use Rattle.std.specs.Prelude.{◌≡◌, ◌≤◌, ◌↔◌, [], true, false, Some, Err, IfOk, IfSome, OnOk, OnErr, IsErr, MatchResult};
ghost use Rattle.chex_base.specs.Outside.{Rose, one_more};
ghost use Rattle.kernel_api.specs.Stock.{at, before_begin, begun, holds, with_evict, with_put, Fits, Passes};
ghost use Rattle.snap_store.specs.Failing.{IsListed, faults_after, faults_after_put};
ghost use Rattle.snap_store.specs.Stocks.{stock_of};

use crate::BlockStore;
use chex_base::{Calls, NodeId};
use kernel_api::{PutFault, Store, StoreFailed, StoreFault};
use std::alloc::Global;

/// A store in memory, for tests: it tells its bytes, and fails exactly at the listed calls of
/// `begin`, `put`, `get` and `evict`; a listed `put` for which there is no room answers Full.
#[derive(Drop)]
pub struct FailingStore {
    inner: BlockStore,
    /// The numbers of the calls that fail; the first call has number 1.
    pub failing: Calls,
    /// How many of these calls were made; the count stands still at the greatest `u64`.
    pub calls: u64,
    faults: u64,
}

impl FailingStore {
    /// A store before it begins, with no call made. It takes no memory.
    pub fn new(alloc: Global, failing: Calls) -> FailingStore
        ensures stock { stock_of result.inner ≡ before_begin (Some []) }
        ensures rest { (result.failing ≡ failing) × (result.calls ≡ 0) × (result.faults ≡ 0) }
    {
        FailingStore {
            inner: BlockStore::new(alloc),
            failing,
            calls: 0,
            faults: 0,
        }
    }

    /// Counts a call, and answers whether it is listed.
    fn count_call(&mut self) -> bool
        ensures listed { (result ≡ true) ↔ IsListed self.old.failing self.old.calls }
        ensures calls { self.new ≡ record self.old { calls = one_more self.old.calls } }
    {
        let listed = self.calls < u64::MAX && self.failing.contains(self.calls + 1);
        self.calls = self.calls.saturating_add(1);
        listed
    }

    /// Counts a failure.
    fn count_fault(&mut self)
        ensures faults { self.new ≡ record self.old { faults = one_more self.old.faults } }
        ensures later { self.old.faults ≤ self.new.faults }
    {
        self.faults = self.faults.saturating_add(1);
    }
}

impl Store for FailingStore {
    ghost use Rattle.std.specs.Prelude.{nat_eq, refl};
    ghost use Rattle.std.specs.List.{IsDistinct};
    ghost use Rattle.std.proofs.Common.{subst, sym};
    ghost use Rattle.kernel_api.specs.Stock.{nodes_held};

    ghost stock = { λ s. stock_of s.inner };

    ghost faults = { λ s. s.faults };

    fn begin(&mut self, _alloc: Global, block: u32, most: u32) -> Result<(), StoreFault>
        requires block { (256 ≤ block) × (block ≤ 1048576) }
        requires most { most ≤ 1024 }
        ensures ok { OnOk result (stock_of self.new.inner ≡ begun block most (stock_of self.old.inner)) }
        ensures err { OnErr result (stock_of self.new.inner ≡ stock_of self.old.inner) }
        ensures cause { result ≡ Err StoreFault.Failed → Rose self.old.faults self.new.faults }
        ensures later { self.old.faults ≤ self.new.faults }
        // It fails exactly at a listed call, and the count rises by one there and nowhere else.
        ensures fails { (result ≡ Err StoreFault.Failed) ↔ IsListed self.old.failing self.old.calls }
        ensures faults { self.new.faults ≡ faults_after result self.old.faults }
        ensures calls { self.new.calls ≡ one_more self.old.calls }
        ensures same { self.new.failing ≡ self.old.failing }
    {
        if self.count_call() {
            self.count_fault();
            return Err(StoreFault::Failed);
        }
        self.inner.start(block, most);
        Ok(())
    }

    fn put(&mut self, _alloc: Global, node: NodeId, bytes: Vec<u8>) -> Result<(), PutFault>
        requires { holds node (stock_of self.old.inner).held ≡ false }
        ensures ok { OnOk result (stock_of self.new.inner ≡ with_put node bytes.items (stock_of self.old.inner)) }
        ensures err { OnErr result (stock_of self.new.inner ≡ stock_of self.old.inner) }
        ensures full { (result ≡ Err PutFault.Full) ↔ Passes (stock_of self.old.inner) bytes.items }
        ensures cause { result ≡ Err PutFault.Failed → Rose self.old.faults self.new.faults }
        ensures later { self.old.faults ≤ self.new.faults }
        // It fails exactly at a listed call for which there is room.
        ensures fails { (result ≡ Err PutFault.Failed) ↔ (IsListed self.old.failing self.old.calls × Fits (stock_of self.old.inner) bytes.items) }
        ensures faults { self.new.faults ≡ faults_after_put result self.old.faults }
        ensures calls { self.new.calls ≡ one_more self.old.calls }
        ensures same { self.new.failing ≡ self.old.failing }
    {
        let listed = self.count_call();
        if self.inner.passes(&bytes) {
            return Err(PutFault::Full);
        }
        if listed {
            self.count_fault();
            return Err(PutFault::Failed);
        }
        match self.inner.add(node, bytes) {
            Ok(()) => Ok(()),
            Err(_) => Err(PutFault::NoMemory),
        }
    }

    fn get(&mut self, alloc: Global, node: NodeId) -> Result<Vec<u8>, StoreFault>
        requires { holds node (stock_of self.old.inner).held ≡ true }
        ensures told { IfOk result (λ bytes. IfSome (stock_of self.old.inner).told (λ files. at node files ≡ Some bytes.items)) }
        ensures unchanged { stock_of self.new.inner ≡ stock_of self.old.inner }
        ensures cause { result ≡ Err StoreFault.Failed → Rose self.old.faults self.new.faults }
        ensures later { self.old.faults ≤ self.new.faults }
        // It fails exactly at a listed call, and the count rises by one there and nowhere else.
        ensures fails { (result ≡ Err StoreFault.Failed) ↔ IsListed self.old.failing self.old.calls }
        ensures faults { self.new.faults ≡ faults_after result self.old.faults }
        ensures calls { self.new.calls ≡ one_more self.old.calls }
        ensures same { self.new.failing ≡ self.old.failing }
    {
        if self.count_call() {
            self.count_fault();
            return Err(StoreFault::Failed);
        }
        match self.inner.copy_of(alloc, node) {
            Ok(bytes) => Ok(bytes),
            Err(_) => Err(StoreFault::NoMemory),
        }
    }

    fn evict(&mut self, node: NodeId) -> Result<(), StoreFailed>
        requires { holds node (stock_of self.old.inner).held ≡ true }
        ensures ok { OnOk result (stock_of self.new.inner ≡ with_evict node (stock_of self.old.inner)) }
        ensures err { OnErr result (stock_of self.new.inner ≡ stock_of self.old.inner) }
        ensures cause { OnErr result (Rose self.old.faults self.new.faults) }
        ensures later { self.old.faults ≤ self.new.faults }
        // It fails exactly at a listed call, and the count rises by one there and nowhere else.
        ensures fails { IsErr result ↔ IsListed self.old.failing self.old.calls }
        ensures faults { MatchResult result (λ _. self.new.faults ≡ self.old.faults) (λ _. self.new.faults ≡ one_more self.old.faults) }
        ensures calls { self.new.calls ≡ one_more self.old.calls }
        ensures same { self.new.failing ≡ self.old.failing }
    {
        if self.count_call() {
            self.count_fault();
            return Err(StoreFailed);
        }
        self.inner.remove(node);
        Ok(())
    }

    fn holds(&self, node: NodeId) -> bool {
        self.inner.holds(node)
    }

    fn used(&self) -> u32 {
        self.inner.used()
    }

    fn peak(&self) -> u32 {
        self.inner.peak()
    }

    fn faults(&self) -> u64 {
        self.faults
    }

    ghost kept = { λ s. record {
      small = s.inner.small;
      large = s.inner.large;
      few = s.inner.few;
      once = subst (IsDistinct nat_eq) (sym (nodes_held s.inner.block s.inner.snapshots)) s.inner.once;
      counted = subst (λ blocks. blocks ≤ s.inner.peak) s.inner.counted s.inner.reached;
      bounded = s.inner.bounded;
      agrees = refl;
    } };
}
