//! A client of some tables, and one whose file begins with a state.

use crate::spelled::{edits, is_spelled, message};
use std::alloc::Global;
use sync_client::{Client, ClientRefusal};
use sync_data::{KeyKind, Name};
use sync_disk::{Disk, MemoryDisk};
use sync_journal::{OpenCause, OpenRefusal};
use sync_messages::Message;
use sync_subset::Subset;

/// AddTable "q", and CreateObject "t" 1, as changesets.
const ADD_Q: &[u8] = &[1, 1, 1, 0x71, 1, 1, 0, 0];

const CREATE_T: &[u8] = &[1, 1, 1, 0x74, 1, 3, 0, 0, 2];

/// A client's file: Born; a part with AddTable "t", AddColumn "t" "n" and CreateObject "t" 1; Floor 1.
const STARTED: &[u8] = &[
    0x52, 0x53, 0x59, 0x4e, 0x43, 0x4a, 0x30, 0x31, 1, 0, 0, 0, 17, 1, 1, 1, 1, 1, 1, 1, 1, 1, 1,
    1, 1, 1, 1, 1, 1, 1, 1, 0, 0, 0, 21, 11, 1, 2, 1, 0x74, 1, 0x6e, 3, 1, 0, 0, 2, 0, 1, 1, 0, 0,
    3, 0, 0, 2, 1, 0, 0, 0, 2, 12, 1, 0,
];

/// A client's short file: Born; Resumed 2 1; Waits 3 with base 1 at 5 ms, AddTable "q", which was carried to nothing; the
/// same part; Floor 4.
const SHORT: &[u8] = &[
    0x52, 0x53, 0x59, 0x4e, 0x43, 0x4a, 0x30, 0x31, 1, 0, 0, 0, 17, 1, 1, 1, 1, 1, 1, 1, 1, 1, 1,
    1, 1, 1, 1, 1, 1, 1, 1, 0, 0, 0, 3, 16, 2, 1, 1, 0, 0, 0, 16, 17, 3, 1, 5, 8, 1, 1, 1, 0x71, 1,
    1, 0, 0, 1, 0, 0, 1, 0, 0, 0, 21, 11, 1, 2, 1, 0x74, 1, 0x6e, 3, 1, 0, 0, 2, 0, 1, 1, 0, 0, 3,
    0, 0, 2, 1, 0, 0, 0, 2, 12, 4, 0,
];

/// In it: the place of how many wait, of the gate and the number and the base of that one, of the part's gate, and of the
/// version's gate.
const WAITING_AT: usize = 37;

const WAITS_AT: u64 = 38;

const NUMBER_AT: usize = 44;

const BASE_AT: usize = 45;

const SHORT_PART_AT: usize = 59;

const SHORT_FLOOR_AT: u64 = 85;

/// The places of the part's gate, of its second instruction, and of the version's gate.
const PART_AT: u64 = 30;

const INSTRS_AT: usize = 46;

const FLOOR_AT: usize = 56;

/// A disk that holds these bytes.
fn disk_with(alloc: Global, bytes: &[u8]) -> Option<MemoryDisk> {
    let Ok(mut disk) = MemoryDisk::new(alloc) else {
        return None;
    };
    match disk.write_at(0, bytes) {
        Ok(()) => Some(disk),
        Err(_) => None,
    }
}

/// The client of that file.
fn client_of(alloc: Global, bytes: &[u8]) -> Option<Client<MemoryDisk>> {
    let disk = disk_with(alloc, bytes)?;
    match Client::open(alloc, disk) {
        Ok(client) => Some(client),
        Err(_) => None,
    }
}

/// Whether the file is refused at this place.
fn is_bad(alloc: Global, bytes: &[u8], place: u64) -> bool {
    let Some(disk) = disk_with(alloc, bytes) else {
        return false;
    };
    match Client::open(alloc, disk) {
        Ok(_) => false,
        Err(OpenRefusal { cause, disk: _ }) => cause == OpenCause::BadFile { place },
    }
}

/// What a transaction answers.
fn commits(
    alloc: Global,
    client: &mut Client<MemoryDisk>,
    bytes: &[u8],
) -> Option<Result<u32, ClientRefusal>> {
    let edits = edits(alloc, bytes)?;
    Some(client.commit(5, edits))
}

/// The table "q" alone.
fn only_q(alloc: Global) -> Option<Subset> {
    let Ok(name) = Name::new("q") else {
        return None;
    };
    let mut names = Vec::new(alloc);
    let Ok(()) = names.push(name) else {
        return None;
    };
    match Subset::new(names) {
        Ok(tables) => Some(tables),
        Err(_) => None,
    }
}

/// What subscribing to the table "q" answers.
fn subscribes(alloc: Global, client: &mut Client<MemoryDisk>) -> Option<Result<(), ClientRefusal>> {
    let tables = only_q(alloc)?;
    Some(client.subscribe(tables))
}

/// Takes a message that is spelled so.
fn takes(alloc: Global, client: &mut Client<MemoryDisk>, bytes: &[u8]) -> bool {
    match message(alloc, bytes) {
        Some(message) => client.take(message).is_ok(),
        None => false,
    }
}

/// Whether the message is made and spelled so.
fn is_sent(alloc: Global, sent: Result<Message, ClientRefusal>, want: &[u8]) -> bool {
    match sent {
        Ok(message) => is_spelled(alloc, &message, want),
        Err(_) => false,
    }
}

/// A client that subscribed makes changes of its tables alone, and asks by them.
fn subscribed_holds(alloc: Global) -> Option<bool> {
    let mut client = client_of(alloc, &[])?;
    is_subscribed(alloc, &mut client)
}

fn is_subscribed(alloc: Global, client: &mut Client<MemoryDisk>) -> Option<bool> {
    let born = client.born([1; 16]).is_ok();
    let first = subscribes(alloc, client)? == Ok(());
    let again = subscribes(alloc, client)? == Err(ClientRefusal::Subscribed);
    let outside = commits(alloc, client, CREATE_T)?;
    let inside = commits(alloc, client, ADD_Q)?;
    // Ident 3 for its uuid.
    let named = takes(
        alloc,
        client,
        &[2, 1, 1, 1, 1, 1, 1, 1, 1, 1, 1, 1, 1, 1, 1, 1, 1, 3],
    );
    let asks = is_sent(alloc, client.ask(), &[11, 3, 0, 0, 1, 1, 1, 0x71]);
    let none_above = is_sent(alloc, client.upload_from(1), &[3, 3, 0]);
    Some(
        born && first
            && again
            && outside == Err(ClientRefusal::NotSubscribed { place: 0 })
            && inside == Ok(1)
            && named
            && asks
            && none_above
            && client.last() == 1,
    )
}

/// A client that began with a state has its objects and its version, and subscribes no more.
fn started_holds(alloc: Global) -> Option<bool> {
    let mut client = client_of(alloc, STARTED)?;
    is_started(alloc, &mut client)
}

fn is_started(alloc: Global, client: &mut Client<MemoryDisk>) -> Option<bool> {
    let late = subscribes(alloc, client)? == Err(ClientRefusal::TooLate);
    let Ok(table) = Name::new("t") else {
        return None;
    };
    let kind = client.objects().schema().table(&table);
    let made = commits(alloc, client, ADD_Q)?;
    Some(late && kind == Some(KeyKind::Int) && client.cursor() == 1 && made == Ok(1))
}

pub fn a_client_of_some_tables(alloc: Global) -> bool {
    subscribed_holds(alloc) == Some(true)
}

/// Whether the file is refused in which these bytes stand behind so much of it, and then its rest from another place on.
fn is_bad_with(alloc: Global, until: usize, bytes: &[u8], from: usize) -> bool {
    let (Some(front), Some(rest)) = (STARTED.get(..until), STARTED.get(from..)) else {
        return false;
    };
    let mut file = Vec::new(alloc);
    file.extend_from_slice(front).is_ok()
        && file.extend_from_slice(bytes).is_ok()
        && file.extend_from_slice(rest).is_ok()
        && is_bad(alloc, file.as_slice(), PART_AT)
}

pub fn a_file_that_begins_with_a_state(alloc: Global) -> bool {
    // Without its version: the gate behind the part is closed.
    let without = is_bad_with(alloc, FLOOR_AT, &[0], STARTED.len());
    // With a part of which the state has another list: the object comes before the column.
    let other = is_bad_with(alloc, INSTRS_AT, &[3, 0, 0, 2, 2, 0, 1, 1, 0, 0], FLOOR_AT);
    without && other && started_holds(alloc) == Some(true)
}

/// A client of a short file goes on where it was: it has its cursor, its objects and what it made, asks from what is unsent
/// and sends that as it was made.
fn short_holds(alloc: Global) -> Option<bool> {
    let mut client = client_of(alloc, SHORT)?;
    let there = client.cursor() == 4 && client.last() == 3 && client.unsent() == 1;
    let late = subscribes(alloc, &mut client)? == Err(ClientRefusal::TooLate);
    let made = commits(alloc, &mut client, ADD_Q)? == Ok(4);
    // Ident 3 for its uuid.
    let named = takes(
        alloc,
        &mut client,
        &[2, 1, 1, 1, 1, 1, 1, 1, 1, 1, 1, 1, 1, 1, 1, 1, 1, 3],
    );
    let asks = is_sent(alloc, client.ask(), &[4, 3, 4, 1]);
    let sends = is_sent(
        alloc,
        client.upload(),
        &[
            3, 3, 2, 3, 1, 5, 8, 1, 1, 1, 0x71, 1, 1, 0, 0, 4, 4, 5, 8, 1, 1, 1, 0x71, 1, 1, 0, 0,
        ],
    );
    // Its own entry of number 3 comes as it was carried: with no instruction.
    let taken = takes(alloc, &mut client, &[5, 3, 4, 1, 3, 3, 5, 3, 1, 0, 0]);
    Some(there && late && made && named && asks && sends && taken && client.unsent() == 1)
}

/// Whether the short file with another byte there is refused at this place.
fn is_bad_short(alloc: Global, at: usize, byte: u8, place: u64) -> bool {
    let (Some(front), Some([_, rest @ ..])) = (SHORT.get(..at), SHORT.get(at..)) else {
        return false;
    };
    let mut file = Vec::new(alloc);
    file.extend_from_slice(front).is_ok()
        && file.push(byte).is_ok()
        && file.extend_from_slice(rest).is_ok()
        && is_bad(alloc, file.as_slice(), place)
}

pub fn a_short_file(alloc: Global) -> bool {
    // One more is to wait; the next number is left out; a base is beyond the cursor; the file ends within its front.
    let missing = is_bad_short(alloc, WAITING_AT, 2, SHORT_PART_AT as u64);
    let left_out = is_bad_short(alloc, NUMBER_AT, 4, WAITS_AT);
    let beyond = is_bad_short(alloc, BASE_AT, 5, SHORT_FLOOR_AT);
    let ends = is_bad_short(alloc, SHORT_PART_AT, 0, WAITS_AT);
    missing && left_out && beyond && ends && short_holds(alloc) == Some(true)
}
