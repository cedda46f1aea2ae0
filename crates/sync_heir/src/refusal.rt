use sync_client::ClientRefusal;

/// Why a change of an old client isn't saved. The first that applies is answered.
#[derive(Clone, Copy, Debug, PartialEq, Eq)]
pub enum ResetRefusal {
    /// The ident was retired for another client.
    NotMine,
    /// A change before this one isn't saved yet: the number that comes next, and the one that came.
    Skips { expected: u64, got: u32 },
    /// The bytes of the change of this number are no changeset: the offset and the number of the first broken rule
    /// (docs/FORMATS.md, "What is no changeset").
    BadChange { number: u32, offset: u32, rule: u8 },
    /// The heir refuses the transaction.
    Client(ClientRefusal),
    /// There was no memory before the transaction, and the heir is as before.
    NoMemory,
}
