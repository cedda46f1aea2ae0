/// What a fill met.
#[derive(Clone, Copy, PartialEq, Eq)]
pub enum Fill {
    /// More bytes.
    More,
    /// The end of the input.
    End,
    /// So many bytes were read that no more are.
    Full,
}
