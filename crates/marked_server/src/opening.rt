use crate::server::MarkedServer;
use life_bytes::Life;
use life_marks::{MarksRefusal, ServerMarks};
use std::alloc::Global;
use sync_disk::Disk;
use sync_journal::OpenCause;
use sync_server::Server;

/// Why a server with lives isn't opened.
#[derive(Clone, Copy, PartialEq, Eq)]
pub enum MarkedCause {
    /// The server isn't opened.
    Server(OpenCause),
    /// Its marks aren't read, or the life was used before.
    Marks(MarksRefusal),
}

/// Why it isn't opened, and the disk.
#[derive(Drop)]
pub struct MarkedRefusal<D: Disk> {
    pub cause: MarkedCause,
    pub disk: D,
}

impl<D: Disk> MarkedServer<D> {
    /// Opens the server of a disk, in a life of its own, or without one; then it writes only where the file has no lives.
    pub fn open(
        alloc: Global,
        disk: D,
        life: Option<Life>,
    ) -> Result<MarkedServer<D>, MarkedRefusal<D>> {
        let mut server = match Server::open(alloc, disk) {
            Ok(server) => server,
            Err(refusal) => {
                return Err(MarkedRefusal {
                    cause: MarkedCause::Server(refusal.cause),
                    disk: refusal.disk,
                });
            }
        };
        let found = marks_of(alloc, &mut server, &life);
        match found {
            Ok(marks) => Ok(MarkedServer {
                alloc,
                server,
                marks,
                life,
            }),
            Err(cause) => Err(MarkedRefusal {
                cause,
                disk: server.into_disk(),
            }),
        }
    }
}

/// What the server's file says of lives.
fn marks_of<D: Disk>(
    alloc: Global,
    server: &mut Server<D>,
    life: &Option<Life>,
) -> Result<ServerMarks, MarkedCause> {
    match server.journal.pieces() {
        Ok(pieces) => match ServerMarks::of(alloc, &pieces, *life) {
            Ok(marks) => Ok(marks),
            Err(why) => Err(MarkedCause::Marks(why)),
        },
        Err(cause) => Err(MarkedCause::Server(cause)),
    }
}
