use sync_base::Break;
use thiserror::Error;

/// Why a call isn't taken into a transaction, which stays as it was.
#[derive(Clone, Copy, Debug, PartialEq, Eq, Error)]
pub enum Refusal {
    /// It doesn't act on the objects with the transaction so far.
    #[error("it doesn't act on the objects with the transaction so far: {0:?}")]
    Break(Break),
    /// The place lies outside the list, which has that length.
    #[error("place {place} lies outside the list, whose length is {length}")]
    OutOfRange { place: u32, length: u32 },
    /// The list has 4,294,967,296 elements, and no instruction can bear its length.
    #[error("the list is too long to be changed at a place")]
    ListFull,
    /// The transaction would have more than 65,536 instructions, or they would carry more than 4,194,304 bytes.
    #[error("the transaction is full: commit it and begin another one")]
    TooLarge,
    /// There was no memory.
    #[error("memory ran out")]
    NoMemory,
}
