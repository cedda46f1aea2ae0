//! What a transaction and a message may change.

use std::alloc::Global;
use sync_changed::{Place, changed_by_edits, changed_by_message};
use sync_codec::decode;
use sync_messages::message_of;

/// Table t with keys of integers, columns n, m, s, l, u and k, and object 1.
const EDITS: &[u8] = &[
    1, 7, 1, 116, 1, 110, 1, 109, 1, 115, 1, 108, 1, 117, 1, 107, 8, 1, 0, 0, 2, 0, 1, 1, 0, 0, 2,
    0, 2, 1, 1, 0, 2, 0, 3, 3, 1, 0, 2, 0, 4, 3, 0, 1, 2, 0, 5, 1, 0, 2, 2, 0, 6, 7, 1, 0, 0, 3, 0,
    0, 2,
];

/// A Download for client 1 with two entries: a column age of table t, "x" in list l and 5 for n of objects 1 and 9; and a
/// byte that spells nothing.
const DOWNLOAD: &[u8] = &[
    5, 1, 0, 2, 1, 1, 7, 36, 1, 4, 1, 116, 3, 97, 103, 101, 1, 108, 1, 110, 3, 2, 0, 1, 3, 0, 0, 8,
    0, 0, 2, 2, 3, 3, 3, 1, 120, 5, 0, 0, 18, 3, 1, 10, 1, 2, 7, 1, 3,
];

/// Of each place its kind, and the name of its table, or of its column where it has one.
const EDITED: [(Kind, &str); 8] = [
    (Kind::Table, "t"),
    (Kind::Column, "n"),
    (Kind::Column, "m"),
    (Kind::Column, "s"),
    (Kind::Column, "l"),
    (Kind::Column, "u"),
    (Kind::Column, "k"),
    (Kind::Object, "t"),
];

/// Of a client that has nothing unsent, and of one that has.
const DOWNLOADED: [(Kind, &str); 3] = [
    (Kind::Column, "age"),
    (Kind::Elements(3, 0), "l"),
    (Kind::Cell, "n"),
];

const DOWNLOADED_OVER: [(Kind, &str); 3] = [
    (Kind::Column, "age"),
    (Kind::Cell, "l"),
    (Kind::Cell, "n"),
];

#[derive(Clone, Copy, PartialEq, Eq)]
enum Kind {
    Table,
    Column,
    Object,
    Cell,
    /// The elements of a list but for so many first ones and last ones.
    Elements(u32, u32),
}

fn is(place: &Place, kind: Kind, name: &str) -> bool {
    match place {
        Place::Table(table) => kind == Kind::Table && table.text() == name,
        Place::Column { column, .. } => kind == Kind::Column && column.text() == name,
        Place::Object { table, .. } => kind == Kind::Object && table.text() == name,
        Place::Cell(cell) => kind == Kind::Cell && cell.column.text() == name,
        Place::Elements { cell, front, back } => {
            kind == Kind::Elements(*front, *back) && cell.column.text() == name
        }
    }
}

/// Whether these are the places.
fn are(places: &[Place], wanted: &[(Kind, &str)]) -> bool {
    if places.len() != wanted.len() {
        return false;
    }
    for (place, (kind, name)) in places.iter().zip(wanted.iter()) {
        if !is(place, *kind, name) {
            return false;
        }
    }
    true
}

fn edits_change(alloc: Global) -> bool {
    let Ok(changes) = decode(alloc, 7, EDITS) else {
        return false;
    };
    match changed_by_edits(alloc, changes.instrs()) {
        Ok(places) => are(places.as_slice(), &EDITED),
        Err(_) => false,
    }
}

fn a_message_changes(alloc: Global, unsent: u32, wanted: &[(Kind, &str)]) -> bool {
    let Ok(message) = message_of(alloc, DOWNLOAD) else {
        return false;
    };
    match changed_by_message(alloc, &message, unsent) {
        Ok(places) => are(places.as_slice(), wanted),
        Err(_) => false,
    }
}

pub(crate) fn each_instruction_has_its_place(alloc: Global) -> bool {
    edits_change(alloc)
        && a_message_changes(alloc, 0, &DOWNLOADED)
        && a_message_changes(alloc, 1, &DOWNLOADED_OVER)
}
