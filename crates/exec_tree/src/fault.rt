//! Why versions have no tree.
use chex_base::NoMemory;
use std::alloc::AllocError;

/// Why versions are not merged.
#[derive(Clone, Copy, Debug, PartialEq, Eq)]
pub enum TreeFault {
    /// The tree would have more than 512 nodes; `count` is their number.
    TooManyNodes { count: u32 },
    /// Memory was wanting.
    NoMemory,
}

impl From<NoMemory> for TreeFault {
    ghost use Rattle.std.specs.Prelude.{◌≡◌};
    ghost use Rattle.exec_tree.specs.declared.fault.TreeFault.TheVariants as fault;

    ghost from_gives = { λ _ e. e ≡ fault.NoMemory };

    fn from(_: NoMemory) -> Self {
        TreeFault::NoMemory
    }
}

impl From<AllocError> for TreeFault {
    ghost use Rattle.std.specs.Prelude.{◌≡◌};
    ghost use Rattle.exec_tree.specs.declared.fault.TreeFault.TheVariants as fault;

    ghost from_gives = { λ _ e. e ≡ fault.NoMemory };

    fn from(_: AllocError) -> Self {
        TreeFault::NoMemory
    }
}
