/// A part of a generated exchange.
#[derive(Clone, Copy, PartialEq, Eq)]
pub enum Move {
    /// The client comes in, and gets its ident.
    Join { client: u32 },
    /// The first client makes the table and its columns.
    Found,
    /// The client uploads what it has unsent, and takes the reply.
    Push { client: u32 },
    /// The client asks for the history, and takes it.
    Pull { client: u32 },
    /// The turn of this number: what is drawn for it is done.
    Turn { number: u32 },
}
