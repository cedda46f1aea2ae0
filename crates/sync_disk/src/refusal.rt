// Why a call of a disk, or a call that makes one, is refused.
ghost use Rattle.std.specs.Prelude.{◌≡◌};
ghost use Rattle.sync_disk.specs.declared.refusal.DiskRefusal.TheVariants.{NoMemory as no_memory};

use std::alloc::{AllocError, AllocFailed};

/// There was no memory.
#[derive(Clone, Copy, Debug, PartialEq, Eq)]
pub struct NoMemory;

impl From<AllocError> for NoMemory {
    fn from(_: AllocError) -> Self {
        NoMemory
    }
}

impl<T: Drop> From<AllocFailed<T>> for NoMemory {
    fn from(_: AllocFailed<T>) -> Self {
        NoMemory
    }
}

/// Why a call of a disk is refused.
#[derive(Clone, Copy, Debug, PartialEq, Eq)]
pub enum DiskRefusal {
    /// The disk has failed, and its count of faults rose.
    Failed,
    /// There was no memory, and nothing changed.
    NoMemory,
}

impl From<AllocError> for DiskRefusal {
    ghost from_gives = { λ _ e. e ≡ no_memory };

    fn from(_: AllocError) -> Self {
        DiskRefusal::NoMemory
    }
}

impl<T: Drop> From<AllocFailed<T>> for DiskRefusal {
    ghost from_gives = { λ _ e. e ≡ no_memory };

    fn from(_: AllocFailed<T>) -> Self {
        DiskRefusal::NoMemory
    }
}
