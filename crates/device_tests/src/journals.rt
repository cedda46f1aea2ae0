use crate::disks::{disk_with, holds};
use byte_lists::ByteLists;
use std::alloc::Global;
use sync_disk::{Disk, MemoryDisk};
use sync_journal::{Journal, JournalRefusal, OpenCause};

/// The journal of a disk.
fn open<D: Disk>(alloc: Global, disk: D) -> Result<Journal<D>, OpenCause> {
    match Journal::open(alloc, disk) {
        Ok((journal, _records)) => Ok(journal),
        Err(refusal) => Err(refusal.cause),
    }
}

/// The journal of a new disk.
fn new_journal(alloc: Global) -> Option<Journal<MemoryDisk>> {
    match MemoryDisk::new(alloc) {
        Ok(disk) => open(alloc, disk).ok(),
        Err(_) => None,
    }
}

/// An append, of which only the answer counts.
fn append<D: Disk>(journal: &mut Journal<D>, record: &[u8]) -> Result<(), JournalRefusal> {
    journal.append(record)
}

fn are_records(found: &ByteLists, want: &[&[u8]]) -> bool {
    for (place, want) in want.iter().enumerate() {
        match found.get(place) {
            Some(record) if record == *want => {}
            _ => return false,
        }
    }
    found.len() == want.len()
}

/// Whether the journal of a disk holds these records.
pub(crate) fn has_records<D: Disk>(alloc: Global, disk: D, want: &[&[u8]]) -> bool {
    match Journal::open(alloc, disk) {
        Ok((_journal, found)) => are_records(&found, want),
        Err(_) => false,
    }
}

/// Whether the journal of a disk is opened, and takes a record.
fn goes_on<D: Disk>(alloc: Global, disk: D) -> bool {
    match open(alloc, disk) {
        Ok(mut journal) => append(&mut journal, b"e").is_ok(),
        Err(_) => false,
    }
}

/// Whether the journal of a disk holds these records, and goes on.
fn stands(alloc: Global, disk: MemoryDisk, want: &[&[u8]]) -> bool {
    let mut disk = disk;
    has_records(alloc, &mut disk, want) && goes_on(alloc, &mut disk)
}

fn is_too_long(alloc: Global, journal: &mut Journal<MemoryDisk>) -> bool {
    match vec![in alloc; 0u8; 67_108_865] {
        Ok(long) => append(journal, &long) == Err(JournalRefusal::RecordTooLong),
        Err(_) => false,
    }
}

pub(crate) fn a_record_of_67_108_865_bytes_is_too_long(alloc: Global) -> bool {
    match new_journal(alloc) {
        Some(mut journal) => {
            is_too_long(alloc, &mut journal) && append(&mut journal, &[7]).is_ok()
        }
        None => false,
    }
}

/// A record of 17 bytes, and the file that holds it alone.
const BORN: &[u8] = b"\x01\x00\x00\x00\x00\x00\x00\x40\x00\x80\x00\x00\x00\x00\x00\x00\x01";

const FILE: &[u8; 31] =
    b"RSYNCJ01\x01\x00\x00\x00\x11\x01\x00\x00\x00\x00\x00\x00\x40\x00\x80\x00\x00\x00\x00\x00\x00\x01\x00";

pub(crate) fn an_append_stands_in_the_file(alloc: Global) -> bool {
    let Some(mut journal) = new_journal(alloc) else {
        return false;
    };
    let is_added = append(&mut journal, BORN).is_ok();
    is_added && holds(alloc, &mut journal.into_disk(), FILE)
}

/// Whether an append meets a fault of the disk, and the next one a closed journal.
fn closes(journal: &mut Journal<MemoryDisk>) -> bool {
    append(journal, b"bc") == Err(JournalRefusal::DiskFault)
        && append(journal, b"d") == Err(JournalRefusal::Closed)
}

/// Whether a landing makes the file that an append makes, and nothing is there before.
pub(crate) fn a_landing_stands_in_the_file(alloc: Global) -> bool {
    let Some(journal) = new_journal(alloc) else {
        return false;
    };
    let mut journal = journal.gathered();
    let is_landed = append(&mut journal, BORN).is_ok() && journal.land().is_ok();
    // what isn't landed is lost
    let is_landed = is_landed && append(&mut journal, b"a").is_ok();
    is_landed && holds(alloc, &mut journal.into_disk().into_disk(), FILE)
}

/// Whether an opening in which the call of that number fails is refused, or else isn't.
fn open_fails(alloc: Global, file: &[u8], call: u64, fails: bool) -> bool {
    let Some(mut disk) = disk_with(alloc, file) else {
        return false;
    };
    if disk.fail_at(call).is_err() {
        return false;
    }
    match open(alloc, &mut disk) {
        Ok(_) => !fails,
        Err(cause) => fails && cause == OpenCause::DiskFault,
    }
}

/// The journal of a disk with an empty journal, of which that stroke of an append fails.
fn failing(alloc: Global, stroke: u64) -> Option<Journal<MemoryDisk>> {
    let Some(mut disk) = disk_with(alloc, b"RSYNCJ01\x00\x00") else {
        return None;
    };
    if disk.fail_at(stroke.saturating_add(3)).is_err() {
        return None;
    }
    open(alloc, disk).ok()
}

/// Whether that stroke of an append fails. Only where the gate was written is the record there afterwards.
fn append_fails(alloc: Global, stroke: u64) -> bool {
    match failing(alloc, stroke) {
        Some(mut journal) => {
            let is_closed = closes(&mut journal);
            let disk = journal.into_disk();
            let stands = if stroke == 4 {
                stands(alloc, disk, &[b"bc"])
            } else {
                stands(alloc, disk, &[])
            };
            is_closed && stands
        }
        None => false,
    }
}

/// A journal with the record of no bytes.
const OTHER: &[u8] = b"RSYNCJ01\x01\x00\x00\x00\x00\x00";

pub(crate) fn a_fault_at_each_disk_call(alloc: Global) -> bool {
    let mut all = true;
    // A small file is synced, measured, read, written and synced, and any other one isn't written.
    for call in 1..=6 {
        all &= open_fails(alloc, b"", call, call <= 5);
        all &= open_fails(alloc, OTHER, call, call <= 3);
    }
    for stroke in 1..=4 {
        all &= append_fails(alloc, stroke);
    }
    all
}
