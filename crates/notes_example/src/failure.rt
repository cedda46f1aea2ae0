use std::alloc::AllocError;
use std::io;
use sync_app::{Refusal, Unread};
use sync_client::ClientRefusal;
use sync_data::{NameRefusal, NoMemory};
use sync_server::ServerRefusal;

/// Why the program ends early.
#[derive(Clone, Copy, Debug)]
pub(crate) enum Failure {
    /// A call isn't taken into a transaction.
    Edit(Refusal),
    /// A cell isn't read.
    Read(Unread),
    Client(ClientRefusal),
    Server(ServerRefusal),
    /// A name is empty or too long.
    Name(NameRefusal),
    Memory,
    Output,
}

impl From<Refusal> for Failure {
    fn from(why: Refusal) -> Self {
        Failure::Edit(why)
    }
}

impl From<Unread> for Failure {
    fn from(why: Unread) -> Self {
        Failure::Read(why)
    }
}

impl From<ClientRefusal> for Failure {
    fn from(why: ClientRefusal) -> Self {
        Failure::Client(why)
    }
}

impl From<ServerRefusal> for Failure {
    fn from(why: ServerRefusal) -> Self {
        Failure::Server(why)
    }
}

impl From<NameRefusal> for Failure {
    fn from(why: NameRefusal) -> Self {
        Failure::Name(why)
    }
}

impl From<NoMemory> for Failure {
    fn from(_: NoMemory) -> Self {
        Failure::Memory
    }
}

impl From<sync_disk::NoMemory> for Failure {
    fn from(_: sync_disk::NoMemory) -> Self {
        Failure::Memory
    }
}

impl From<AllocError> for Failure {
    fn from(_: AllocError) -> Self {
        Failure::Memory
    }
}

impl From<io::Error> for Failure {
    fn from(_: io::Error) -> Self {
        Failure::Output
    }
}
