use crate::end::{LivesEnd, unmarked, unopened};
use crate::frame::frame_of;
use crate::items::Answers;
use crate::outcome::{decline, refuse, say, say_taken};
use gathered_disk::GatheredDisk;
use life_bytes::{Letter, Life, letter_of};
use marked_client::{MarkedCause, MarkedClient, MarkedRefusal};
use std::alloc::Global;
use sync_client::ClientRefusal;
use sync_data::{Id, NoMemory};
use sync_disk::{Disk, DiskRefusal};
use sync_edits::{LineRefusal, NodeLine, node_line_of};
use sync_io::Status;
use sync_messages::MessageRefusal;
use sync_words::Outcome;

/// A client that does what lines say.
#[derive(Drop)]
pub(crate) struct Editor<D: Disk> {
    pub alloc: Global,
    pub client: MarkedClient<D>,
    pub life: Life,
}

/// A client that takes messages.
#[derive(Drop)]
pub(crate) struct Taker<D: Disk> {
    pub alloc: Global,
    pub client: MarkedClient<D>,
}

/// Opens the client of a disk in that life.
pub(crate) fn open_client<D: Disk>(
    alloc: Global,
    disk: D,
    life: Life,
) -> Result<MarkedClient<GatheredDisk<D>>, LivesEnd> {
    match MarkedClient::open(alloc, disk, Some(life)) {
        Ok(client) => Ok(client.gathered()),
        Err(refusal) => {
            let cause = refusal.cause;
            drop(refusal);
            match cause {
                MarkedCause::Client(cause) => Err(unopened(cause)),
                MarkedCause::Marks(why) => Err(unmarked(why)),
            }
        }
    }
}

pub(crate) fn land<D: Disk>(client: &mut MarkedClient<GatheredDisk<D>>) -> Result<(), Status> {
    match client.land() {
        Ok(()) => Ok(()),
        Err(DiskRefusal::Failed) => Err(Status::DiskFault),
        Err(DiskRefusal::NoMemory) => Err(Status::NoMemory),
    }
}

impl<D: Disk> Editor<D> {
    fn take_line(&mut self, number: u32, line: NodeLine) -> Result<Vec<u8>, Status> {
        let alloc = self.alloc;
        match line {
            NodeLine::Born { id } => self.born(number, id),
            NodeLine::Commit { ms, edits } => match self.client.commit(ms, edits.into_vec()) {
                Ok(made) => say(alloc, number, &Outcome::Made { number: made }),
                Err(why) => refuse(alloc, number, why),
            },
            NodeLine::Upgrade => match self.client.upgrade() {
                Ok(true) => say(alloc, number, &Outcome::Upgraded),
                Ok(false) => say(alloc, number, &Outcome::Current),
                Err(why) => decline(alloc, number, why),
            },
            NodeLine::Subscribe { tables } => match self.client.subscribe(tables) {
                Ok(()) => say(alloc, number, &Outcome::Subscribed),
                Err(why) => decline(alloc, number, why),
            },
        }
    }

    /// The uuid is the life of number 0, so that it isn't that of this opening.
    fn born(&mut self, number: u32, id: Id) -> Result<Vec<u8>, Status> {
        if Life::new(id) == self.life {
            return Err(Status::BadInput { place: number });
        }
        match self.client.born(id) {
            Ok(()) => say(self.alloc, number, &Outcome::Born),
            Err(why) => decline(self.alloc, number, why),
        }
    }
}

impl<D: Disk> Answers for Editor<GatheredDisk<D>> {
    fn answer(&mut self, number: u32, item: &[u8]) -> Result<Vec<u8>, Status> {
        match node_line_of(self.alloc, item) {
            Ok(line) => self.take_line(number, line),
            Err(LineRefusal::BadLine) => Err(Status::BadInput { place: number }),
            Err(LineRefusal::NoMemory) => Err(Status::NoMemory),
        }
    }

    fn land(&mut self) -> Result<(), Status> {
        land(&mut self.client)
    }
}

impl<D: Disk> Answers for Taker<GatheredDisk<D>> {
    fn answer(&mut self, number: u32, item: &[u8]) -> Result<Vec<u8>, Status> {
        match letter_of(self.alloc, item) {
            Ok(letter) => match self.client.take(letter) {
                Ok(taken) => say_taken(self.alloc, number, taken),
                Err(why) => refuse(self.alloc, number, why),
            },
            Err(MessageRefusal::BadMessage) => Err(Status::BadInput { place: number }),
            Err(MessageRefusal::NoMemory) => Err(Status::NoMemory),
        }
    }

    fn land(&mut self) -> Result<(), Status> {
        land(&mut self.client)
    }
}

/// The frame by which the server gets to know what it has to know; nothing where the client makes none.
pub(crate) fn sent<D: Disk>(alloc: Global, client: &MarkedClient<D>) -> Result<Vec<u8>, NoMemory> {
    if client.client().ident() == 0 {
        return frames_of(alloc, client.bind());
    }
    frames_of(alloc, client.upload())
}

/// The frame of its question.
pub(crate) fn asked<D: Disk>(alloc: Global, client: &MarkedClient<D>) -> Result<Vec<u8>, NoMemory> {
    frames_of(alloc, client.ask())
}

pub(crate) fn frames_of(
    alloc: Global,
    made: Result<Letter, MarkedRefusal>,
) -> Result<Vec<u8>, NoMemory> {
    match made {
        Ok(letter) => {
            let frame = frame_of(alloc, &letter);
            drop(letter);
            frame
        }
        Err(
            MarkedRefusal::Client(
                ClientRefusal::Closed | ClientRefusal::DiskFault | ClientRefusal::NoMemory,
            ),
        ) => Err(NoMemory),
        Err(_) => Ok(Vec::new(alloc)),
    }
}
