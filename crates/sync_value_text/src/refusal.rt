ghost use Rattle.std.specs.Prelude.{◌≡◌};
ghost use Rattle.sync_value_text.specs.declared.refusal.TextRefusal.TheVariants as refusals;

use std::alloc::AllocFailed;
use sync_data::NoMemory;
use thiserror::Error;

/// Why a JSON value was not read: `BadValue` where it is no form, `NoMemory` where memory ran out.
#[derive(Clone, Copy, Debug, PartialEq, Eq, Error)]
pub enum TextRefusal {
    #[error("the JSON value has none of the known forms")]
    BadValue,
    #[error("memory ran out")]
    NoMemory,
}

impl From<NoMemory> for TextRefusal {
    ghost from_gives = { λ _ e. e ≡ refusals.NoMemory };

    fn from(_e: NoMemory) -> TextRefusal {
        TextRefusal::NoMemory
    }
}

impl<T: Drop> From<AllocFailed<T>> for TextRefusal {
    ghost from_gives = { λ _ e. e ≡ refusals.NoMemory };

    fn from(_e: AllocFailed<T>) -> TextRefusal {
        TextRefusal::NoMemory
    }
}
