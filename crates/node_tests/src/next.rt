//! What an application sends next.

use std::alloc::Global;
use sync_app::Transaction;
use sync_client::Client;
use sync_data::{KeyKind, Name};
use sync_disk::MemoryDisk;
use sync_messages::{Given, Message, message_of};
use sync_next::{commit, next_message, take};

/// The client's uuid.
const ID: [u8; 16] = [7; 16];

/// A Download for client 9 of an entry of another, which adds table "q".
const ADD_Q: &[u8] = &[5, 9, 0, 1, 1, 1, 7, 8, 1, 1, 1, 0x71, 1, 1, 0, 0];

/// What happens to a client.
enum Step {
    Nothing,
    Born,
    Named,
    Commits(&'static str),
    Takes(&'static [u8]),
}

/// A kind of message.
#[derive(Clone, Copy, PartialEq, Eq)]
pub(crate) enum Sent {
    Bind,
    Upload,
    Ask,
    Other,
}

/// What happens, up to which number changesets are sent, and what the client sends next.
const CASES: [(Step, u32, Option<(Sent, u32)>); 9] = [
    (Step::Nothing, 0, None),
    (Step::Born, 0, Some((Sent::Bind, 0))),
    (Step::Commits("notes"), 0, Some((Sent::Bind, 0))),
    (Step::Named, 0, Some((Sent::Upload, 1))),
    (Step::Nothing, 1, Some((Sent::Ask, 1))),
    (Step::Commits("tags"), 1, Some((Sent::Upload, 2))),
    (Step::Nothing, 2, Some((Sent::Ask, 2))),
    (Step::Nothing, 0, Some((Sent::Upload, 2))),
    (Step::Takes(ADD_Q), 2, Some((Sent::Ask, 2))),
];

/// Whether the client commits a transaction that adds a table.
pub(crate) fn commits(alloc: Global, client: &mut Client<MemoryDisk>, table: &str) -> bool {
    let Ok(table) = Name::new(table) else {
        return false;
    };
    let mut edits = Transaction::new(alloc, client.objects());
    if edits.add_table(table, KeyKind::Int).is_err() {
        return false;
    }
    let instrs = edits.finish();
    commit(client, 5, instrs).is_ok()
}

/// Whether the client takes that message of one entry, and one place is told.
fn takes_one(alloc: Global, client: &mut Client<MemoryDisk>, bytes: &[u8]) -> bool {
    let Ok(message) = message_of(alloc, bytes) else {
        return false;
    };
    match take(alloc, client, message) {
        Ok(taken) => taken.answer == Ok(1) && taken.places.len() == 1,
        Err(_) => false,
    }
}

/// Whether the step is taken.
fn takes(alloc: Global, client: &mut Client<MemoryDisk>, step: &Step) -> bool {
    match step {
        Step::Nothing => true,
        Step::Born => client.born(ID).is_ok(),
        Step::Named => client.take(Message::Ident(Given::new(ID, 9))).is_ok(),
        Step::Commits(table) => commits(alloc, client, table),
        Step::Takes(bytes) => takes_one(alloc, client, bytes),
    }
}

pub(crate) fn kind_of(message: &Message) -> Sent {
    match message {
        Message::Bind { .. } => Sent::Bind,
        Message::Upload(_) => Sent::Upload,
        Message::Ask(_) => Sent::Ask,
        _ => Sent::Other,
    }
}

fn told(client: &Client<MemoryDisk>, sent: u32) -> Option<(Sent, u32)> {
    match next_message(client, sent) {
        Ok(next) => Some((kind_of(&next.message), next.sent)),
        Err(_) => None,
    }
}

/// Whether each step is taken, and the message after it is that of the case.
fn is_told(alloc: Global, client: &mut Client<MemoryDisk>) -> bool {
    for (step, sent, wanted) in CASES.iter() {
        if !takes(alloc, client, step) || told(client, *sent) != *wanted {
            return false;
        }
    }
    true
}

pub(crate) fn client(alloc: Global) -> Option<Client<MemoryDisk>> {
    let Ok(disk) = MemoryDisk::new(alloc) else {
        return None;
    };
    match Client::open(alloc, disk) {
        Ok(client) => Some(client),
        Err(_) => None,
    }
}

pub(crate) fn a_client_sends_what_is_next(alloc: Global) -> bool {
    match client(alloc) {
        Some(mut client) => is_told(alloc, &mut client),
        None => false,
    }
}
