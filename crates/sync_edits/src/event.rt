use sync_data::{Blob, Id, Instr, Listed, Name};
use sync_disk::Leaves;
use sync_subset::Subset;

/// One event of an exchange of any number of clients with one server.
#[derive(Drop)]
pub enum Event {
    /// A new client of that name and uuid.
    Client {
        name: Name,
        id: Id,
    },
    /// The client commits these edits as one transaction, at that many milliseconds since the epoch.
    Edit {
        client: Name,
        ms: u64,
        edits: Listed<Instr>,
    },
    /// The client makes the message that asks for its ident.
    Bind {
        client: Name,
    },
    /// The client makes the message with its unsent changesets.
    Upload {
        client: Name,
    },
    /// The client makes the message that asks for what the server has beyond its cursor.
    Ask {
        client: Name,
    },
    /// The message of that number, counted from 1, is handed to a client or to `server`.
    Deliver {
        message: u32,
        to: Name,
    },
    /// The node is opened again over its disk.
    Restart {
        node: Name,
    },
    /// The node's disk stops at the write or sync of that number, from 1 to 1,000,000, of the next call.
    Stop {
        node: Name,
        at: u32,
        leaves: Leaves,
    },
    /// These bytes are handed to the server as a message.
    Inject {
        message: Blob,
    },
    /// The client's file is brought to form 2.
    Upgrade {
        client: Name,
    },
    /// From here on the client makes and gets changes of these tables alone.
    Subscribe {
        client: Name,
        tables: Subset,
    },
}

/// One line for the client of a file.
#[derive(Drop)]
pub enum NodeLine {
    /// The client gets that uuid.
    Born { id: Id },
    /// The client commits these edits as one transaction, at that many milliseconds since the epoch.
    Commit { ms: u64, edits: Listed<Instr> },
    /// The client's file is brought to form 2.
    Upgrade,
    /// From here on the client makes and gets changes of these tables alone.
    Subscribe { tables: Subset },
}
