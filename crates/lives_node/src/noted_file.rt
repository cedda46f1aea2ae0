use life_bytes::{Note, note_bytes};
use std::alloc::Global;
use sync_data::NoMemory;
use sync_disk::{Disk, DiskRefusal, MemoryDisk};
use sync_journal::Journal;

/// The bytes of a journal of records and notes, in memory.
#[derive(Drop)]
pub(crate) struct NotedFile {
    alloc: Global,
    journal: Journal<MemoryDisk>,
}

impl NotedFile {
    /// A journal without records and notes.
    pub(crate) fn new(alloc: Global) -> Result<NotedFile, NoMemory> {
        let Ok(disk) = MemoryDisk::new(alloc) else {
            return Err(NoMemory);
        };
        match Journal::open(alloc, disk) {
            Ok((journal, none)) => {
                drop(none);
                Ok(NotedFile { alloc, journal })
            }
            Err(_) => Err(NoMemory),
        }
    }

    /// Puts a record behind what is there.
    pub(crate) fn put(&mut self, bytes: Vec<u8>) -> Result<(), NoMemory> {
        match self.journal.append(bytes.as_slice()) {
            Ok(()) => Ok(()),
            Err(_) => Err(NoMemory),
        }
    }

    /// Puts a note behind what is there.
    pub(crate) fn note(&mut self, note: Note) -> Result<(), NoMemory> {
        let bytes = note_bytes(self.alloc, &note)?;
        match self.journal.note(bytes.as_slice()) {
            Ok(()) => Ok(()),
            Err(_) => Err(NoMemory),
        }
    }

    /// The bytes.
    pub(crate) fn end(self) -> Result<Vec<u8>, NoMemory> {
        let alloc = self.alloc;
        let mut disk = self.journal.into_disk();
        match bytes_of(alloc, &mut disk) {
            Ok(bytes) => Ok(bytes),
            Err(_) => Err(NoMemory),
        }
    }
}

fn bytes_of(alloc: Global, disk: &mut MemoryDisk) -> Result<Vec<u8>, DiskRefusal> {
    let len = disk.len()? as usize;
    let mut bytes = vec![in alloc; 0u8; len]?;
    disk.read_at(0, &mut bytes)?;
    Ok(bytes)
}
