//! A client that saves the changes of a retired one.

use crate::spelled::{disk_of, message};
use std::alloc::Global;
use sync_client::Client;
use sync_data::Blob;
use sync_disk::MemoryDisk;
use sync_heir::{Heir, ResetRefusal, heir};
use sync_messages::{Change, Retired};

/// Ident 3 for the uuid of ones.
const NAMED: [u8; 18] = [2, 1, 1, 1, 1, 1, 1, 1, 1, 1, 1, 1, 1, 1, 1, 1, 1, 3];

/// An entry with table t, with keys of integers, and column age of integers.
const PULLED: [u8; 26] = [
    5, 3, 0, 1, 1, 1, 50, 18, 1, 2, 1, 116, 3, 97, 103, 101, 2, 1, 0, 0, 2, 0, 1, 1, 0, 0,
];

/// A column age of texts.
const MADE: &[u8] = &[1, 2, 1, 116, 3, 97, 103, 101, 1, 2, 0, 1, 3, 0, 0];

fn takes(alloc: Global, client: &mut Client<MemoryDisk>, bytes: &[u8]) -> bool {
    match message(alloc, bytes) {
        Some(message) => client.take(message).is_ok(),
        None => false,
    }
}

/// A client with ident 3 that has taken the entry.
fn client_three(alloc: Global) -> Option<Client<MemoryDisk>> {
    let Ok(mut client) = Client::open(alloc, disk_of(alloc, &[])?) else {
        return None;
    };
    let born = client.born([1; 16]).is_ok();
    let named = takes(alloc, &mut client, &NAMED);
    let pulled = takes(alloc, &mut client, &PULLED);
    if born && named && pulled {
        Some(client)
    } else {
        None
    }
}

/// A change of an old client whose ident 2 is retired.
struct Case<'a> {
    /// For which client.
    by: u32,
    /// How many of its changes are integrated.
    count: u32,
    number: u32,
    body: &'a [u8],
}

/// What the heir answers: the case, a number and how many instructions were dropped; or numbers of its refusal.
fn told(alloc: Global, client: &mut Client<MemoryDisk>, case: &Case) -> Option<[u64; 4]> {
    if case.by == 0 || case.number == 0 || case.body.len() > 100 {
        return None;
    }
    let Ok(body) = Blob::new(alloc, case.body) else {
        return None;
    };
    let retired = Retired::new(2, case.by, case.count);
    let change = Change::new(case.number, 1, 60, body);
    Some(match heir(alloc, client, &retired, &change) {
        Ok(Heir::Integrated) => [0; 4],
        Ok(Heir::Known) => [1, 0, 0, 0],
        Ok(Heir::Saved { number, dropped }) => {
            [2, number as u64, dropped.as_slice().len() as u64, 0]
        }
        Err(ResetRefusal::NotMine) => [3, 0, 0, 0],
        Err(ResetRefusal::Skips { expected, got }) => [4, expected, got as u64, 0],
        Err(
            ResetRefusal::BadChange {
                number,
                offset,
                rule,
            },
        ) => [5, number as u64, offset as u64, rule as u64],
        Err(_) => [6, 0, 0, 0],
    })
}

/// The cases one after the other, and what is answered.
const CASES: [(Case, [u64; 4]); 7] = [
    (
        Case {
            by: 4,
            count: 0,
            number: 1,
            body: MADE,
        },
        [3, 0, 0, 0],
    ),
    (
        Case {
            by: 3,
            count: 0,
            number: 2,
            body: MADE,
        },
        [4, 1, 2, 0],
    ),
    (
        Case {
            by: 3,
            count: 0,
            number: 1,
            body: &[3],
        },
        [5, 1, 0, 41],
    ),
    (
        Case {
            by: 3,
            count: 0,
            number: 1,
            body: MADE,
        },
        [2, 1, 1, 0],
    ),
    (
        Case {
            by: 3,
            count: 0,
            number: 1,
            body: MADE,
        },
        [1, 0, 0, 0],
    ),
    (
        Case {
            by: 3,
            count: 2,
            number: 2,
            body: MADE,
        },
        [0, 0, 0, 0],
    ),
    (
        Case {
            by: 3,
            count: u32::MAX,
            number: u32::MAX,
            body: MADE,
        },
        [0, 0, 0, 0],
    ),
];

/// Whether each case is answered so, and one change was saved.
fn all_are_told(alloc: Global, client: &mut Client<MemoryDisk>) -> bool {
    for (case, want) in &CASES {
        if told(alloc, client, case) != Some(*want) {
            return false;
        }
    }
    client.last() == 1
}

pub fn each_change_is_integrated_known_or_saved(alloc: Global) -> bool {
    match client_three(alloc) {
        Some(mut client) => all_are_told(alloc, &mut client),
        None => false,
    }
}
