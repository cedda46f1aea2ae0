use crate::client::{frames_of, land};
use crate::items::Answers;
use crate::old::{Old, place_of};
use crate::outcome::{line_of, refuse, say_taken, told};
use gathered_disk::GatheredDisk;
use life_bytes::{GivenUp, Life, Token, is_note, letter_of};
use marked_client::{MarkedClient, MarkedRefusal, Taken};
use std::alloc::Global;
use sync_codec::{DecodeRefusal, decode};
use sync_data::{Id, Instr, NoMemory};
use sync_disk::Disk;
use sync_io::Status;
use sync_journal::LONGEST;
use sync_messages::MessageRefusal;
use sync_records::{ClientRecord, RecordRefusal};
use sync_reset::{Dropped, Saved, saved};

/// A client that saves what an old one made and the history hasn't.
#[derive(Drop)]
pub(crate) struct Heir<D: Disk> {
    pub alloc: Global,
    pub client: MarkedClient<D>,
    pub old: Old,
}

/// The frame that gives up the old client, and asks up to which numbers the history has the transactions of its lives.
pub(crate) fn claimed<D: Disk>(
    alloc: Global,
    client: &MarkedClient<D>,
    old: &Old,
) -> Result<Vec<u8>, NoMemory> {
    let mut uuids: Vec<Id> = Vec::new(alloc);
    if uuids.push(old.id).is_err() {
        return Err(NoMemory);
    }
    let mut lives: Vec<Life> = Vec::new(alloc);
    if lives.extend_from_slice(old.lives.as_slice()).is_err() {
        return Err(NoMemory);
    }
    frames_of(alloc, client.give_up(uuids, lives))
}

impl<D: Disk> Heir<D> {
    /// Saves what isn't there, in the order in which it was made, up to the first that is refused.
    fn save_all(&mut self, frame: u32, given: &GivenUp) -> Result<Vec<u8>, Status> {
        let mut out = Vec::new(self.alloc);
        if given.numbers().len() != self.old.lives.len() {
            return refuse(
                self.alloc,
                frame,
                MarkedRefusal::Client(sync_client::ClientRefusal::NotMine),
            );
        }
        for place in 0..self.old.pieces.len() {
            if let Some(made) = made_at(self.alloc, &self.old, place)? {
                let goes_on = self.save_one(frame, &made, given.numbers(), &mut out)?;
                drop(made);
                if !goes_on {
                    return Ok(out);
                }
            }
        }
        Ok(out)
    }

    /// What becomes of one, and whether the next one is looked at.
    fn save_one(
        &mut self,
        frame: u32,
        made: &ClientRecord,
        numbers: &[u32],
        out: &mut Vec<u8>,
    ) -> Result<bool, Status> {
        let ClientRecord::Made { number, ms, body } = made else {
            return Ok(true);
        };
        let Some(token) = self.old.marks.token_of(*number) else {
            return Ok(true);
        };
        if is_told(self.old.lives.as_slice(), numbers, token) {
            put_line(self.alloc, out, frame, "integrated", &[*number as u64])?;
            return Ok(true);
        }
        if self.client.marks().reached().has(token) {
            put_line(self.alloc, out, frame, "known", &[*number as u64])?;
            return Ok(true);
        }
        let what = self.what_is_saved(*ms, body.bytes())?;
        self.save(frame, *number, token, *ms, what, out)
    }

    /// What can be saved of a transaction on the objects of the heir.
    fn what_is_saved(&self, ms: u64, body: &[u8]) -> Result<Saved, Status> {
        if body.len() > LONGEST {
            return Err(Status::NoMemory);
        }
        let changes = match decode(self.alloc, ms, body) {
            Ok(changes) => changes,
            Err(DecodeRefusal::Bad(_)) => return Err(Status::BadFile { place: 0 }),
            Err(DecodeRefusal::NoMemory) => return Err(Status::NoMemory),
        };
        let what = saved(self.alloc, self.client.client().objects(), &changes);
        drop(changes);
        match what {
            Ok(what) => Ok(what),
            Err(NoMemory) => Err(Status::NoMemory),
        }
    }

    fn save(
        &mut self,
        frame: u32,
        number: u32,
        token: Token,
        ms: u64,
        what: Saved,
        out: &mut Vec<u8>,
    ) -> Result<bool, Status> {
        let Saved { kept, dropped } = what;
        let kept: Vec<Instr> = kept.into_vec();
        let dropped: Vec<Dropped> = dropped.into_vec();
        let frontier = match self.frontier(number) {
            Ok(frontier) => frontier,
            Err(NoMemory) => return Err(Status::NoMemory),
        };
        match self.client.save(token, frontier, ms, kept) {
            Ok(made) => {
                put_line(
                    self.alloc,
                    out,
                    frame,
                    "saved",
                    &[number as u64, made as u64],
                )?;
                for one in dropped.as_slice() {
                    let fields = [number as u64, one.place as u64, one.code as u64];
                    put_line(self.alloc, out, frame, "dropped", &fields)?;
                }
                Ok(true)
            }
            Err(why) => {
                let line = refuse(self.alloc, frame, why)?;
                put_text(out, line.as_slice())?;
                Ok(false)
            }
        }
    }

    /// What must stand before a transaction of the old file: before its original where it saved one.
    fn frontier(&self, number: u32) -> Result<Vec<Token>, NoMemory> {
        match self.old.marks.saves_at(number) {
            Some(saves) => {
                let mut frontier = Vec::new(self.alloc);
                match frontier.extend_from_slice(saves.frontier()) {
                    Ok(()) => Ok(frontier),
                    Err(_) => Err(NoMemory),
                }
            }
            None => self.old.marks.frontier(number),
        }
    }
}

/// The transaction that a piece of the old file is, if it is one.
fn made_at(alloc: Global, old: &Old, place: usize) -> Result<Option<ClientRecord>, Status> {
    let Some(bytes) = old.pieces.get(place) else {
        return Ok(None);
    };
    if is_note(bytes) {
        return Ok(None);
    }
    match ClientRecord::record_of(alloc, bytes) {
        Ok(found) => Ok(Some(found)),
        Err(RecordRefusal::BadRecord) => Ok(None),
        Err(RecordRefusal::NoMemory) => Err(Status::NoMemory),
    }
}

/// Whether the history has the transaction, by the numbers of these lives.
fn is_told(lives: &[Life], numbers: &[u32], token: Token) -> bool {
    match place_of(lives, token.life()) {
        Some(place) if place < numbers.len() => token.number() <= numbers[place],
        _ => false,
    }
}

fn put_text(out: &mut Vec<u8>, text: &[u8]) -> Result<(), Status> {
    match out.extend_from_slice(text) {
        Ok(()) => Ok(()),
        Err(_) => Err(Status::NoMemory),
    }
}

fn put_line(
    alloc: Global,
    out: &mut Vec<u8>,
    frame: u32,
    word: &str,
    numbers: &[u64],
) -> Result<(), Status> {
    let line = told(line_of(alloc, frame, word, numbers))?;
    put_text(out, line.as_slice())
}

impl<D: Disk> Answers for Heir<GatheredDisk<D>> {
    fn answer(&mut self, number: u32, item: &[u8]) -> Result<Vec<u8>, Status> {
        let letter = match letter_of(self.alloc, item) {
            Ok(letter) => letter,
            Err(MessageRefusal::BadMessage) => return Err(Status::BadInput { place: number }),
            Err(MessageRefusal::NoMemory) => return Err(Status::NoMemory),
        };
        match self.client.take(letter) {
            Ok(Taken::GivenUp(given)) => {
                let text = self.save_all(number, &given);
                drop(given);
                text
            }
            Ok(taken) => say_taken(self.alloc, number, taken),
            Err(why) => refuse(self.alloc, number, why),
        }
    }

    fn land(&mut self) -> Result<(), Status> {
        land(&mut self.client)
    }
}
