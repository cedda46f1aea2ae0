//! Messages, changesets and disks by their bytes. Where memory runs out there is none.

use std::alloc::Global;
use sync_codec::decode;
use sync_data::{Changeset, Instr};
use sync_disk::MemoryDisk;
use sync_journal::Journal;
use sync_messages::{Message, message_bytes, message_of};
use sync_store::Store;

/// Whether the message is spelled so.
pub fn is_spelled(alloc: Global, message: &Message, want: &[u8]) -> bool {
    match message_bytes(alloc, message) {
        Ok(bytes) => bytes.as_slice() == want,
        Err(_) => false,
    }
}

/// The message that is spelled so.
pub fn message(alloc: Global, bytes: &[u8]) -> Option<Message> {
    match message_of(alloc, bytes) {
        Ok(message) => Some(message),
        Err(_) => None,
    }
}

/// The changeset that is spelled so, in at most 1,000 bytes.
pub fn changes(alloc: Global, bytes: &[u8]) -> Option<Changeset> {
    if bytes.len() > 1_000 {
        return None;
    }
    match decode(alloc, 5, bytes) {
        Ok(changes) => Some(changes),
        Err(_) => None,
    }
}

/// Its instructions.
pub fn edits(alloc: Global, bytes: &[u8]) -> Option<Vec<Instr>> {
    match changes(alloc, bytes) {
        Some(changes) => Some(changes.into_instrs()),
        None => None,
    }
}

/// Table t with keys of integers, columns n, m, s, l, u and k, and object 1.
pub const PRELUDE: [u8; 61] = [
    1, 7, 1, 116, 1, 110, 1, 109, 1, 115, 1, 108, 1, 117, 1, 107, 8, 1, 0, 0, 2, 0, 1, 1, 0, 0, 2,
    0, 2, 1, 1, 0, 2, 0, 3, 3, 1, 0, 2, 0, 4, 3, 0, 1, 2, 0, 5, 1, 0, 2, 2, 0, 6, 7, 1, 0, 0, 3, 0,
    0, 2,
];

/// A store on which these changesets acted, one after the other.
pub fn store_of(alloc: Global, spelled: &[&[u8]]) -> Option<Store> {
    let Ok(mut store) = Store::new(alloc) else {
        return None;
    };
    for bytes in spelled {
        if store.apply_all(&changes(alloc, bytes)?).is_err() {
            return None;
        }
    }
    Some(store)
}

/// A disk whose journal holds these records.
pub fn disk_of(alloc: Global, records: &[&[u8]]) -> Option<MemoryDisk> {
    let Ok(disk) = MemoryDisk::new(alloc) else {
        return None;
    };
    let Ok((mut journal, _)) = Journal::open(alloc, disk) else {
        return None;
    };
    if append_all(&mut journal, records) {
        Some(journal.into_disk())
    } else {
        None
    }
}

// Whether all records were added.
fn append_all(journal: &mut Journal<MemoryDisk>, records: &[&[u8]]) -> bool {
    for record in records {
        if journal.append(record).is_err() {
            return false;
        }
    }
    true
}
