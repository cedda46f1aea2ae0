use sync_client::ClientRefusal;

/// Why a client with lives refuses a call. Nothing changes then, but for what a `Client` says.
#[derive(Clone, Copy, Debug, PartialEq, Eq)]
pub enum MarkedRefusal {
    /// The client refuses it.
    Client(ClientRefusal),
    /// The file has lives, and was opened without one.
    NoLife,
    /// The file has no lives and can't get any: it made a transaction, or got its ident, without one.
    NoLives,
    /// The answer is of another history than that which gave the client its ident. The app is pointed at another server.
    OtherHistory,
    /// The history of the server isn't the one of which the client has a beginning, up to this version: the server's file was put
    /// back, or is a copy. A new client takes over.
    Diverged { version: u32 },
    /// The server has the client's transactions up to this number, and that isn't one of this file: the client's file was put
    /// back, or is a copy. A new client takes over.
    FileForked { number: u32 },
    /// The file made or saved that transaction already, or a later one of its life.
    AlreadySaved,
    /// More than 4,096 tokens stand before the transaction.
    FrontierTooLong,
    /// A message that gives up clients has more than 4,096 uuids, or more than 65,536 lives: take several.
    TooMany,
    /// A fault of this software: what the file says of lives doesn't go with its transactions. Nothing is sent.
    Broken,
}
