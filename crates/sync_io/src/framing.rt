/// What stands at the front of bytes.
#[derive(Clone, Copy, PartialEq, Eq)]
pub enum Front {
    /// Less than a frame.
    Part,
    /// A length that no frame has.
    Long,
    /// A frame: its length, and so many bytes behind it.
    Whole { size: usize },
}

/// What stands ahead of a reader of frames.
#[derive(Clone, Copy, PartialEq, Eq)]
pub enum Ahead {
    /// A frame of so many bytes behind its length, among the bytes that are held.
    Frame { size: usize },
    /// The end of the input.
    End,
    /// So many bytes were read that no more are.
    Full,
}
