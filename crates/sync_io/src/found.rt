/// What stands behind the line under way.
#[derive(Clone, Copy, PartialEq, Eq)]
pub enum Found {
    /// A line feed, at this place of the bytes that are held.
    Feed { place: usize },
    /// The end of the input.
    End,
    /// So many bytes were read that no more are.
    Full,
}
