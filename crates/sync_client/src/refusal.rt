use sync_data::Ident;

/// Why a client refuses a call. The first that applies is answered. After each of them but `DiskFault` and `NoMemory` the
/// client is as before, and for a Download as after the entries before.
#[derive(Clone, Copy, Debug, PartialEq, Eq)]
pub enum ClientRefusal {
    /// An earlier call on this value answered `DiskFault` or `NoMemory`, or its journal was closed.
    Closed,
    /// The client has no uuid yet.
    NotBorn,
    /// The client has its uuid already.
    AlreadyBorn,
    /// The client has no ident yet.
    NotNamed,
    /// A transaction has more than 65,536 instructions, or they carry more than 4,194,304 bytes.
    TooLarge,
    /// The client's last changeset has the number 4,294,967,295.
    NumbersFull,
    /// The file is in form 1, and the instruction at this place, counted from 0, is the first that needs form 2.
    OldForm { place: u32 },
    /// The client subscribed to tables, and the instruction at this place, counted from 0, is the first that is of no such
    /// table.
    NotSubscribed { place: u32 },
    /// The instruction at this place, counted from 0, is the first that doesn't act on the objects; the number of its break
    /// (docs/FORMATS.md, "Outcome lines").
    Break { place: u32, code: u8 },
    /// The message isn't for this client, or for no client.
    NotMine,
    /// The server gives this client another ident than the one that it keeps.
    IdentDiffers { kept: Ident, got: Ident },
    /// The Download begins after the client's cursor.
    Gap { cursor: u32, from: u32 },
    /// The bytes of the entry of this version are no changeset: the offset and the number of the first broken rule
    /// (docs/FORMATS.md, "What is no changeset").
    BadBody { version: u32, offset: u32, rule: u8 },
    /// The file is in form 1, and the entry of this version needs form 2.
    OldEntry { version: u32 },
    /// The entry of this version can't cross the unsent changeset of this number, the first such one; the number of the
    /// mismatch (docs/FORMATS.md, "Outcome lines").
    Mismatch { version: u32, number: u32, kind: u8 },
    /// The client's own entry of this number isn't its first unsent changeset.
    Forked { number: u32 },
    /// The entry of this version, as carried, doesn't act on the objects: the place of the first instruction that doesn't,
    /// counted from 0, and the number of its break.
    NotApplicable { version: u32, place: u32, code: u8 },
    /// The server refused a changeset of this client: its number, and the code of the reason.
    WasRefused { number: u32, code: u32 },
    /// The client has its tables already.
    Subscribed,
    /// The client has its ident, or began with a state, or made or took a changeset.
    TooLate,
    /// The disk has failed.
    DiskFault,
    /// There was no memory.
    NoMemory,
}
