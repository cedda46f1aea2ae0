//! What a client sends in turn since its file was opened.

use crate::next::{Sent, client, commits, kind_of};
use std::alloc::Global;
use sync_client::Client;
use sync_disk::MemoryDisk;
use sync_messages::message_of;
use sync_next::{Stale, Talk};

/// The client's uuid.
const ID: [u8; 16] = [7; 16];

/// What happens to a client of ident 9.
#[derive(Clone, Copy)]
enum Step {
    Commits(&'static str),
    Takes(&'static [u8]),
}

/// An Ident, and Downloads without entries from versions 0 and 1.
const IDENT: &[u8] = &[2, 7, 7, 7, 7, 7, 7, 7, 7, 7, 7, 7, 7, 7, 7, 7, 7, 9];

const ENDS_AT_0: &[u8] = &[5, 9, 0, 0];

const STORED_1: &[u8] = &[7, 9, 1];

const STORED_3: &[u8] = &[7, 9, 3];

const BASE_BACK: &[u8] = &[6, 9, 2, 62, 0];

const NO_TABLE: &[u8] = &[6, 9, 2, 11, 0];

/// What happens, and what the client sends next.
const CASES: [(Step, Option<Sent>); 8] = [
    (Step::Commits("notes"), Some(Sent::Bind)),
    (Step::Takes(IDENT), Some(Sent::Ask)),
    // an answer to no question
    (Step::Takes(STORED_1), Some(Sent::Ask)),
    (Step::Takes(ENDS_AT_0), Some(Sent::Upload)),
    (Step::Takes(STORED_1), Some(Sent::Ask)),
    (Step::Commits("tags"), Some(Sent::Upload)),
    // a refusal that isn't for good: it asks first again
    (Step::Takes(NO_TABLE), Some(Sent::Ask)),
    (Step::Takes(ENDS_AT_0), Some(Sent::Upload)),
];

/// Answers after which a client of two changesets sends nothing more.
const LAST: [(&[u8], Stale); 2] = [(BASE_BACK, Stale::File), (STORED_3, Stale::File)];

/// Whether the step is taken; a refusal of the server is one too.
fn takes(alloc: Global, client: &mut Client<MemoryDisk>, talk: &mut Talk, step: &Step) -> bool {
    match step {
        Step::Commits(table) => commits(alloc, client, table),
        Step::Takes(bytes) => match message_of(alloc, bytes) {
            Ok(message) => talk.take(alloc, client, message).is_ok(),
            Err(_) => false,
        },
    }
}

fn sends(client: &Client<MemoryDisk>, talk: &mut Talk, wanted: Option<Sent>) -> bool {
    match talk.next(client) {
        Ok(Some(message)) => wanted == Some(kind_of(&message)),
        Ok(None) => wanted.is_none(),
        Err(_) => false,
    }
}

/// Whether the client goes through all cases, and then through the last answer.
fn goes(alloc: Global, client: &mut Client<MemoryDisk>, last: &'static [u8], why: Stale) -> bool {
    let mut talk = Talk::new();
    if client.born(ID).is_err() || !sends(client, &mut talk, Some(Sent::Bind)) {
        return false;
    }
    for (step, wanted) in CASES.iter() {
        if !takes(alloc, client, &mut talk, step) || !sends(client, &mut talk, *wanted) {
            return false;
        }
    }
    let was_open = talk.stale().is_none();
    was_open
        && takes(alloc, client, &mut talk, &Step::Takes(last))
        && sends(client, &mut talk, None)
        && talk.stale() == Some(why)
}

pub(crate) fn a_client_asks_before_it_uploads(alloc: Global) -> bool {
    for (last, why) in LAST.iter() {
        match client(alloc) {
            Some(mut client) => {
                if !goes(alloc, &mut client, last, *why) {
                    return false;
                }
            }
            None => return false,
        }
    }
    true
}
