use crate::life::Life;
use crate::numbers::Numbers;
use crate::runs::Runs;
use crate::saves::Saves;
use crate::token::Token;
use sync_records::Named;

/// A note in a journal, between its records (docs/FORMATS.md, "Notes").
#[derive(Drop)]
pub enum Note {
    /// The Entries of a server, or the Mades of a client, from here on are of this life.
    Life(Life),
    /// The history that gives this client its ident begins with this life.
    Birth(Life),
    /// The Tooks of a client from here on are entries of this life; behind a Floor, the entry before that version is.
    Of(Life),
    /// A client's next Made saves this transaction.
    Saves(Saves),
    /// The client of this ident has lives.
    Member(Named),
    /// The Entries of an ident from here on are transactions of a life of its client.
    Numbers(Numbers),
    /// A server's next Entry saves the transaction of this token.
    Saved(Token),
    /// A server's history has the transactions of this life up to this number.
    Reached(Token),
    /// In a file whose front was written anew: the lives of the entries, or waiting transactions, of the front.
    Lives(Runs),
}
