use sync_base::Mismatch;

/// Why a change isn't carried over a reciprocal list.
#[derive(Clone, Copy, Debug, PartialEq, Eq)]
pub enum RecipRefusal {
    /// The change, as carried so far, can't cross an entry: the place of its instruction there, counted from 0, and why.
    Mismatch { place: u32, kind: Mismatch },
    /// Memory ran out.
    NoMemory,
}
