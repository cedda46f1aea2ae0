ghost use Rattle.std.specs.Prelude.{◌≡◌};
ghost use Rattle.sync_model.specs.Servers.{at_place, code_of};
ghost use Rattle.server_memory.specs.Refusals.{refusal_seen};

use sync_base::{Break, Mismatch};
use sync_codec::BadBytes;

/// Why a message or a change is refused, as the reply tells it by a code and a place.
#[derive(Clone, Copy)]
pub enum Refusal {
    /// The change's number isn't the next one of its client, which is this.
    NumberGap { expected: u32 },
    /// The change was made at a base below that of the client's last one, which is this.
    BaseBack { last: u32 },
    /// The base or cursor lies beyond the history, which has this length.
    AheadOfHistory { len: u32 },
    /// The history has the greatest length.
    HistoryFull { len: u32 },
    /// The change's bytes are no changeset.
    BadBytes(BadBytes),
    /// The change can't cross an entry: the place of its instruction as carried so far.
    Mismatch { place: u32, kind: Mismatch },
    /// The change as carried doesn't act on the objects: the place of its instruction.
    Break { place: u32, cause: Break },
    /// So many idents were given, and not that one.
    NoSuchIdent { given: u32 },
    /// All idents were given.
    IdentsFull { given: u32 },
    /// No client sends such a message.
    NotForServer,
    /// The entry at the cursor is of version 2, and the client takes version 1 alone.
    NeedsForm2 { cursor: u32 },
    /// The ident is retired, and so many of its changes are integrated for good.
    IdentRetired { count: u32 },
    /// An ident can't be retired for itself.
    SelfRetire { ident: u32 },
    /// The ident is retired for another, which is this.
    RetiredBy { by: u32 },
    /// The base or cursor lies before the kept history, which begins at this version.
    Trimmed { floor: u32 },
}

impl Refusal {
    /// The number that stands for it in the reply.
    pub(crate) fn code(self) -> u32
        ensures { result ≡ code_of (refusal_seen self) }
    {
        match self {
            Refusal::NumberGap { .. } => 61,
            Refusal::BaseBack { .. } => 62,
            Refusal::AheadOfHistory { .. } => 63,
            Refusal::HistoryFull { .. } => 64,
            Refusal::BadBytes(bad) => bad.rule as u32,
            Refusal::Mismatch { kind, .. } => kind.code() as u32,
            Refusal::Break { cause, .. } => cause.code() as u32,
            Refusal::NoSuchIdent { .. } => 60,
            Refusal::IdentsFull { .. } => 65,
            Refusal::NotForServer => 66,
            Refusal::NeedsForm2 { .. } => 67,
            Refusal::IdentRetired { .. } => 68,
            Refusal::SelfRetire { .. } => 69,
            Refusal::RetiredBy { .. } => 70,
            Refusal::Trimmed { .. } => 71,
        }
    }

    /// What the reply tells beside the code.
    pub(crate) fn place(self) -> u32
        ensures { result ≡ at_place (refusal_seen self) }
    {
        match self {
            Refusal::NumberGap { expected } => expected,
            Refusal::BaseBack { last } => last,
            Refusal::AheadOfHistory { len } => len,
            Refusal::HistoryFull { len } => len,
            Refusal::BadBytes(bad) => bad.offset,
            Refusal::Mismatch { place, .. } => place,
            Refusal::Break { place, .. } => place,
            Refusal::NoSuchIdent { given } => given,
            Refusal::IdentsFull { given } => given,
            Refusal::NotForServer => 0,
            Refusal::NeedsForm2 { cursor } => cursor,
            Refusal::IdentRetired { count } => count,
            Refusal::SelfRetire { ident } => ident,
            Refusal::RetiredBy { by } => by,
            Refusal::Trimmed { floor } => floor,
        }
    }
}

/// Why a change isn't merged.
#[derive(Clone, Copy)]
pub enum ChangeRefusal {
    /// It is refused, and nothing changed.
    Refused(Refusal),
    /// Memory ran out.
    NoMemory,
}
