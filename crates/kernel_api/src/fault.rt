//! Why kernels and stores refuse.

use chex_base::NoMemory;

/// Why a store did not begin, or gave nothing.
#[derive(Clone, Copy, Debug, PartialEq, Eq)]
pub enum StoreFault {
    /// The store failed; its count of faults rose.
    Failed,
    /// Memory was wanting.
    NoMemory,
}

/// Why a snapshot was not put.
#[derive(Clone, Copy, Debug, PartialEq, Eq)]
pub enum PutFault {
    /// It and what is held take more blocks than may be held.
    Full,
    /// The store failed; its count of faults rose.
    Failed,
    /// Memory was wanting.
    NoMemory,
}

/// A store failed, and its count of faults rose.
#[derive(Clone, Copy, Debug, PartialEq, Eq)]
pub struct StoreFailed;

/// Why a kernel did not load or run.
#[derive(Clone, Copy, Debug, PartialEq, Eq)]
pub enum KernelFault {
    /// The kernel failed; its count of faults rose.
    Failed,
    /// Memory was wanting.
    NoMemory,
}

/// Why a live state was not saved.
#[derive(Clone, Copy, Debug, PartialEq, Eq)]
pub enum SaveFault {
    /// The kernel failed; its count of faults rose.
    KernelFailed,
    /// The store failed; its count of faults rose.
    StoreFailed,
    /// The snapshot and what is held take more blocks than may be held.
    Full,
    /// Memory was wanting.
    NoMemory,
}

/// Why no state was restored.
#[derive(Clone, Copy, Debug, PartialEq, Eq)]
pub enum RestoreFault {
    /// The kernel failed; its count of faults rose.
    KernelFailed,
    /// The bytes are no snapshot over the loaded program.
    Damaged,
    /// Memory was wanting.
    NoMemory,
}

impl From<NoMemory> for StoreFault {
    ghost use Rattle.std.specs.Prelude.{◌≡◌};
    ghost use Rattle.kernel_api.specs.declared.fault.StoreFault.TheVariants as fault;

    ghost from_gives = { λ _ e. e ≡ fault.NoMemory };

    fn from(_: NoMemory) -> Self {
        StoreFault::NoMemory
    }
}

impl From<NoMemory> for PutFault {
    ghost use Rattle.std.specs.Prelude.{◌≡◌};
    ghost use Rattle.kernel_api.specs.declared.fault.PutFault.TheVariants as fault;

    ghost from_gives = { λ _ e. e ≡ fault.NoMemory };

    fn from(_: NoMemory) -> Self {
        PutFault::NoMemory
    }
}

impl From<NoMemory> for KernelFault {
    ghost use Rattle.std.specs.Prelude.{◌≡◌};
    ghost use Rattle.kernel_api.specs.declared.fault.KernelFault.TheVariants as fault;

    ghost from_gives = { λ _ e. e ≡ fault.NoMemory };

    fn from(_: NoMemory) -> Self {
        KernelFault::NoMemory
    }
}

impl From<NoMemory> for SaveFault {
    ghost use Rattle.std.specs.Prelude.{◌≡◌};
    ghost use Rattle.kernel_api.specs.declared.fault.SaveFault.TheVariants as fault;

    ghost from_gives = { λ _ e. e ≡ fault.NoMemory };

    fn from(_: NoMemory) -> Self {
        SaveFault::NoMemory
    }
}

impl From<NoMemory> for RestoreFault {
    ghost use Rattle.std.specs.Prelude.{◌≡◌};
    ghost use Rattle.kernel_api.specs.declared.fault.RestoreFault.TheVariants as fault;

    ghost from_gives = { λ _ e. e ≡ fault.NoMemory };

    fn from(_: NoMemory) -> Self {
        RestoreFault::NoMemory
    }
}
