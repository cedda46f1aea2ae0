use sync_base::Break;

/// Why an instruction wasn't applied.
#[derive(Clone, Copy, Debug, PartialEq, Eq)]
pub enum ApplyRefusal {
    /// It doesn't act on the state, which stays as it was.
    Break(Break),
    /// Memory ran out. The store is empty from then on.
    NoMemory,
}

/// Why a transaction wasn't applied.
#[derive(Clone, Copy, Debug, PartialEq, Eq)]
pub enum AllRefusal {
    /// The instruction at this place, counted from 0, is the first that doesn't act after those
    /// before it. The state stays as it was.
    Break { place: u64, cause: Break },
    /// Memory ran out. The store is empty from then on.
    NoMemory,
}
