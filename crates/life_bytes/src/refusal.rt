use thiserror::Error;

/// Why bytes were not read as a note.
#[derive(Clone, Copy, Debug, PartialEq, Eq, Error)]
pub enum NoteRefusal {
    /// They are no note's spelling. Where `is_note` holds of them, a later program may know them.
    #[error("the bytes are no note")]
    BadNote,
    /// Memory ran out.
    #[error("memory ran out")]
    NoMemory,
}
