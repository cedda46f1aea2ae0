ghost use Rattle.std.specs.Prelude.{◌≡◌, IfOk};

use crate::client::MarkedClient;
use life_bytes::Life;
use life_marks::{ClientMarks, MarksRefusal};
use std::alloc::Global;
use sync_client::Client;
use sync_data::Id;
use sync_disk::Disk;
use sync_journal::OpenCause;

/// Why a client with lives isn't opened.
#[derive(Clone, Copy, PartialEq, Eq)]
pub enum MarkedCause {
    /// The client isn't opened.
    Client(OpenCause),
    /// Its marks aren't read, or the life was used before, which its uuid was too.
    Marks(MarksRefusal),
}

/// Why it isn't opened, and the disk.
#[derive(Drop)]
pub struct MarkedOpenRefusal<D: Disk> {
    pub cause: MarkedCause,
    pub disk: D,
}

impl<D: Disk> MarkedClient<D> {
    ghost use Rattle.marked_client.specs.Marked.{life_of};

    /// Opens the client of a disk, in a life of its own, or without one; then it makes nothing where the file has lives.
    pub fn open(
        alloc: Global,
        disk: D,
        life: Option<Life>,
    ) -> Result<MarkedClient<D>, MarkedOpenRefusal<D>>
        ensures { IfOk result (λ client. life_of client ≡ life) }
    {
        let mut client = match Client::open(alloc, disk) {
            Ok(client) => client,
            Err(refusal) => {
                return Err(MarkedOpenRefusal {
                    cause: MarkedCause::Client(refusal.cause),
                    disk: refusal.disk,
                });
            }
        };
        let found = marks_of(alloc, &mut client, &life);
        match found {
            Ok(marks) => Ok(MarkedClient {
                alloc,
                client,
                marks,
                life,
            }),
            Err(cause) => Err(MarkedOpenRefusal {
                cause,
                disk: client.into_disk(),
            }),
        }
    }
}

/// What the client's file says of lives.
fn marks_of<D: Disk>(
    alloc: Global,
    client: &mut Client<D>,
    life: &Option<Life>,
) -> Result<ClientMarks, MarkedCause> {
    if is_own(client.id(), *life) {
        return Err(MarkedCause::Marks(MarksRefusal::LifeUsed));
    }
    match client.journal.pieces() {
        Ok(pieces) => match ClientMarks::of(alloc, &pieces, *life) {
            Ok(marks) => Ok(marks),
            Err(why) => Err(MarkedCause::Marks(why)),
        },
        Err(cause) => Err(MarkedCause::Client(cause)),
    }
}

/// Whether the life is the uuid, which is that of number 0.
fn is_own(id: Option<Id>, life: Option<Life>) -> bool {
    match (id, life) {
        (Some(id), Some(life)) => life == Life::new(id),
        _ => false,
    }
}
