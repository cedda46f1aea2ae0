use sync_base::{Instr, Listed};

/// An instruction that wasn't kept: its place in the change, counted from 0, and the code of its break.
#[derive(Clone, Copy, PartialEq, Eq)]
pub struct Dropped {
    pub place: u32,
    pub code: u8,
}

/// What is kept of a change, in order, and what was dropped.
#[derive(Drop)]
pub struct Saved {
    pub kept: Listed<Instr>,
    pub dropped: Listed<Dropped>,
}
