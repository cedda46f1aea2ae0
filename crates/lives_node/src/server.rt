use crate::end::{LivesEnd, unmarked, unopened};
use crate::frame::frame_of;
use crate::items::Answers;
use crate::outcome::told;
use gathered_disk::GatheredDisk;
use life_bytes::{Life, letter_of};
use marked_server::{MarkedCause, MarkedServer};
use std::alloc::Global;
use sync_disk::{Disk, DiskRefusal};
use sync_io::Status;
use sync_messages::MessageRefusal;
use sync_server::ServerRefusal;

/// A server that replies to messages.
#[derive(Drop)]
pub(crate) struct Waiter<D: Disk> {
    pub alloc: Global,
    pub server: MarkedServer<D>,
}

/// Opens the server of a disk in that life.
pub(crate) fn open_server<D: Disk>(
    alloc: Global,
    disk: D,
    life: Life,
) -> Result<MarkedServer<GatheredDisk<D>>, LivesEnd> {
    match MarkedServer::open(alloc, disk, Some(life)) {
        Ok(server) => Ok(server.gathered()),
        Err(refusal) => {
            let cause = refusal.cause;
            drop(refusal);
            match cause {
                MarkedCause::Server(cause) => Err(unopened(cause)),
                MarkedCause::Marks(why) => Err(unmarked(why)),
            }
        }
    }
}

impl<D: Disk> Answers for Waiter<GatheredDisk<D>> {
    fn answer(&mut self, number: u32, item: &[u8]) -> Result<Vec<u8>, Status> {
        let letter = match letter_of(self.alloc, item) {
            Ok(letter) => letter,
            Err(MessageRefusal::BadMessage) => return Err(Status::BadInput { place: number }),
            Err(MessageRefusal::NoMemory) => return Err(Status::NoMemory),
        };
        match self.server.take(letter) {
            Ok(reply) => {
                let frame = frame_of(self.alloc, &reply);
                drop(reply);
                told(frame)
            }
            Err(ServerRefusal::DiskFault) => Err(Status::DiskFault),
            Err(ServerRefusal::NoMemory) | Err(ServerRefusal::Closed) => Err(Status::NoMemory),
        }
    }

    fn land(&mut self) -> Result<(), Status> {
        match self.server.land() {
            Ok(()) => Ok(()),
            Err(DiskRefusal::Failed) => Err(Status::DiskFault),
            Err(DiskRefusal::NoMemory) => Err(Status::NoMemory),
        }
    }
}
