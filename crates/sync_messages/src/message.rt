ghost use Rattle.std.specs.Prelude.{◌≡◌, IfOk};

use crate::ask::Ask;
use crate::ask_tables::AskTables;
use crate::download::Download;
use crate::given::Given;
use crate::retire::Retire;
use crate::retired::Retired;
use crate::stored::Stored;
use crate::upload::Upload;
use sync_data::{Id, Ident, NoMemory};

/// A message between a client and the server (docs/FORMATS.md, "Messages").
#[derive(Drop)]
pub enum Message {
    /// The client with that uuid asks for its ident.
    Bind {
        uuid: Id,
    },
    /// The server tells a client its ident.
    Ident(Given),
    /// A client's changes.
    Upload(Upload),
    /// A client asks for the history, and takes changesets of version 1 alone.
    Ask(Ask),
    /// Entries of the history for a client.
    Download(Download),
    /// The server refuses: the client or 0, the number of the change or 0, the code of the reason, and
    /// a place that the code says more of.
    Refused {
        ident: Ident,
        number: u32,
        code: u32,
        place: u32,
    },
    /// The server tells up to which number a client's changes are in the history.
    Stored(Stored),
    /// A client asks for the history, and takes changesets of version 2 too.
    Ask2(Ask),
    /// A client asks that an ident is retired.
    Retire(Retire),
    /// The server tells that an ident is retired.
    Retired(Retired),
    /// A client of some tables asks for the history.
    AskTables(AskTables),
}

impl Message {
    /// An equal message.
    pub fn copy(&self) -> Result<Message, NoMemory>
        ensures { IfOk result (λ copy. copy ≡ self.now) }
    {
        match self {
            Message::Bind { uuid } => Ok(Message::Bind { uuid: *uuid }),
            Message::Ident(given) => Ok(Message::Ident(given.copy())),
            Message::Upload(upload) => Ok(Message::Upload(upload.copy()?)),
            Message::Ask(ask) => Ok(Message::Ask(ask.copy())),
            Message::Download(download) => Ok(Message::Download(download.copy()?)),
            Message::Refused {
                ident,
                number,
                code,
                place,
            } => Ok(Message::Refused {
                ident: *ident,
                number: *number,
                code: *code,
                place: *place,
            }),
            Message::Stored(stored) => Ok(Message::Stored(stored.copy())),
            Message::Ask2(ask) => Ok(Message::Ask2(ask.copy())),
            Message::Retire(retire) => Ok(Message::Retire(retire.copy())),
            Message::Retired(retired) => Ok(Message::Retired(retired.copy())),
            Message::AskTables(asked) => Ok(Message::AskTables(asked.copy()?)),
        }
    }
}
