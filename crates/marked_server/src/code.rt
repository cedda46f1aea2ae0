ghost use Rattle.std.specs.Prelude.{◌≡◌};
ghost use Rattle.marked_server.specs.Testing.{code_number, refuse};

use sync_data::Ident;
use sync_messages::Message;

/// Why a server refuses a message by what stands in files (docs/FORMATS.md, "Nodes with lives").
#[derive(Clone, Copy, PartialEq, Eq)]
pub(crate) enum Code {
    NoSuchIdent,
    IdentsFull,
    SelfRetire,
    Trimmed,
    NotYours,
    OffHistory,
    OtherFile,
    NeedsMarks,
    Twice,
    NoLife,
    Before,
}

/// A reason, and its place.
#[derive(Clone, Copy)]
pub(crate) struct Refusal {
    pub code: Code,
    pub place: u32,
}

impl Code {
    fn number(self) -> u32
        ensures { result ≡ code_number self }
    {
        match self {
            Code::NoSuchIdent => 60,
            Code::IdentsFull => 65,
            Code::SelfRetire => 69,
            Code::Trimmed => 71,
            Code::NotYours => 72,
            Code::OffHistory => 73,
            Code::OtherFile => 74,
            Code::NeedsMarks => 75,
            Code::Twice => 76,
            Code::NoLife => 77,
            Code::Before => 78,
        }
    }
}

/// The refusal of a message of that ident, or of its change of that number.
pub(crate) fn refused(ident: Ident, number: u32, code: Code, place: u32) -> Message
    ensures { result ≡ refuse ident number (record { code = code; place = place }) }
{
    Message::Refused {
        ident,
        number,
        code: code.number(),
        place,
    }
}
