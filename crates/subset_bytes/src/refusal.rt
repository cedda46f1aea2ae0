ghost use Rattle.std.specs.Prelude.{◌≡◌};
ghost use Rattle.subset_bytes.specs.declared.refusal.TablesRefusal.TheVariants.{NoMemory};

use std::alloc::AllocFailed;
use thiserror::Error;

/// Why bytes were not read as a list of tables.
#[derive(Clone, Copy, Debug, PartialEq, Eq, Error)]
pub enum TablesRefusal {
    /// They don't begin with the spelling of 1 to 64 names in strictly rising order.
    #[error("the bytes are no list of tables")]
    BadTables,
    /// Memory ran out.
    #[error("memory ran out")]
    NoMemory,
}

impl<T: Drop> From<AllocFailed<T>> for TablesRefusal {
    ghost from_gives = { λ _ e. e ≡ NoMemory };

    fn from(_failed: AllocFailed<T>) -> TablesRefusal {
        TablesRefusal::NoMemory
    }
}
