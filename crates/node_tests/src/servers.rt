//! A server that retires an ident, and one whose file begins at a floor.

use crate::spelled::{disk_of, is_spelled, message};
use std::alloc::Global;
use sync_base::Id;
use sync_disk::MemoryDisk;
use sync_server::{Counts, Server};

const A: Id = [10; 16];

const B: Id = [11; 16];

const C: Id = [12; 16];

/// Messages one after the other, and their replies.
const EXCHANGE: [(&[u8], &[u8]); 14] = [
    // Two clients get their idents.
    (
        b"\x01\x0a\x0a\x0a\x0a\x0a\x0a\x0a\x0a\x0a\x0a\x0a\x0a\x0a\x0a\x0a\x0a",
        b"\x02\x0a\x0a\x0a\x0a\x0a\x0a\x0a\x0a\x0a\x0a\x0a\x0a\x0a\x0a\x0a\x0a\x01",
    ),
    (
        b"\x01\x0b\x0b\x0b\x0b\x0b\x0b\x0b\x0b\x0b\x0b\x0b\x0b\x0b\x0b\x0b\x0b",
        b"\x02\x0b\x0b\x0b\x0b\x0b\x0b\x0b\x0b\x0b\x0b\x0b\x0b\x0b\x0b\x0b\x0b\x02",
    ),
    // Client 1 adds the tables t and q, and object 1 of t.
    (
        b"\x03\x01\x01\x01\0\x05\x11\x01\x02\x01t\x01q\x03\x01\0\0\x01\x01\0\x03\0\0\x02",
        b"\x07\x01\x01",
    ),
    // A client of q gets both tables, and not the object.
    (
        b"\x0b\x02\0\0\x01\x01\x01q",
        b"\x05\x02\0\x01\x01\x01\x05\x0d\x01\x02\x01t\x01q\x02\x01\0\0\x01\x01\0",
    ),
    // It has settled the entry.
    (b"\x0b\x02\x01\x01\x01\x01\x01q", b"\x05\x02\x01\0"),
    (b"\x04\x01\x05\0", b"\x06\x01\0\x3f\x01"),
    // Ident 9 isn't given, and none is retired for itself.
    (b"\x09\x02\x09", b"\x06\x09\0\x3c\x02"),
    (b"\x09\x02\x02", b"\x06\x02\0\x45\x02"),
    // Ident 2 is retired for ident 1, which is told so again.
    (b"\x09\x02\x01", b"\x0a\x02\x01\0"),
    (b"\x09\x02\x01", b"\x0a\x02\x01\0"),
    // Another ident is too late, and a change of ident 2 isn't taken any more.
    (
        b"\x01\x0c\x0c\x0c\x0c\x0c\x0c\x0c\x0c\x0c\x0c\x0c\x0c\x0c\x0c\x0c\x0c",
        b"\x02\x0c\x0c\x0c\x0c\x0c\x0c\x0c\x0c\x0c\x0c\x0c\x0c\x0c\x0c\x0c\x0c\x03",
    ),
    (b"\x09\x02\x03", b"\x06\x03\0\x46\x01"),
    (b"\x03\x02\x01\x01\0\0\x03\x01\0\0", b"\x06\x02\x01\x44\0"),
    // No client sends such a message.
    (b"\x0a\x02\x01\0", b"\x06\x02\0\x42\0"),
];

/// Whether the server answers the message so.
fn answers(alloc: Global, server: &mut Server<MemoryDisk>, bytes: &[u8], reply: &[u8]) -> bool {
    let Some(message) = message(alloc, bytes) else {
        return false;
    };
    match server.take(message) {
        Ok(answer) => is_spelled(alloc, &answer, reply),
        Err(_) => false,
    }
}

fn answers_all(alloc: Global, server: &mut Server<MemoryDisk>) -> bool {
    for (message, reply) in EXCHANGE {
        if !answers(alloc, server, message, reply) {
            return false;
        }
    }
    true
}

/// Whether the server knows its idents as they are after the exchange.
fn knows_idents(server: &Server<MemoryDisk>) -> bool {
    let first = Counts {
        number: 1,
        base: 0,
        settled: 0,
    };
    let second = Counts {
        number: 0,
        base: 0,
        settled: 1,
    };
    server.idents() == 3
        && server.ident_of(&B) == Some(2)
        && server.id_of(1).copied() == Some(A)
        && server.id_of(3).copied() == Some(C)
        && server.counts(1) == Some(first)
        && server.counts(2) == Some(second)
        && server.counts(4).is_none()
        && server.retired(0) == Some((2, 1))
        && server.retired(1).is_none()
}

/// Whether it has the history that the exchange made.
fn has_history(server: &Server<MemoryDisk>) -> bool {
    server.form() == 1
        && server.floor() == 0
        && server.len() == 1
        && server.entry(0).is_some()
        && server.entry(1).is_none()
        && server.base_of(0) == Some(0)
        && server.base_of(1).is_none()
        && matches!(&server.past(3, 0), Ok(Some(_)))
        && matches!(&server.past(1, 0), Ok(None))
        && matches!(&server.past(2, 0), Ok(None))
}

/// The server of a disk with these records.
fn server_of(alloc: Global, records: &[&[u8]]) -> Option<Server<MemoryDisk>> {
    opened(alloc, disk_of(alloc, records)?)
}

fn opened(alloc: Global, disk: MemoryDisk) -> Option<Server<MemoryDisk>> {
    match Server::open(alloc, disk) {
        Ok(server) => Some(server),
        Err(_) => None,
    }
}

/// Whether the exchange is answered, and the server knows what it must; also the one that is opened over its disk.
fn is_answered_and_kept(alloc: Global, server: Server<MemoryDisk>) -> bool {
    let mut server = server;
    let is_answered = answers_all(alloc, &mut server)
        && knows_idents(&server)
        && has_history(&server);
    match opened(alloc, server.into_disk()) {
        Some(again) => is_answered && knows_idents(&again) && has_history(&again),
        None => false,
    }
}

pub fn an_exchange_is_answered_and_kept(alloc: Global) -> bool {
    match server_of(alloc, &[]) {
        Some(server) => is_answered_and_kept(alloc, server),
        None => false,
    }
}

/// The records of a file of which the first entry was left out: the tables q and t and object 1 of t as they were after it, its
/// version, a client, and what is known of that.
const TRIMMED: [&[u8]; 4] = [
    b"\x0b\x01\x02\x01q\x01t\x03\x01\0\0\x01\x01\0\x03\x01\0\x02",
    b"\x0c\x01",
    b"\x05\x0a\x0a\x0a\x0a\x0a\x0a\x0a\x0a\x0a\x0a\x0a\x0a\x0a\x0a\x0a\x0a",
    b"\x0d\x01\x01\0\x01",
];

/// Whether a question from below the floor is refused, and one from the floor on is answered.
pub fn a_trimmed_file_answers_from_its_floor_on(alloc: Global) -> bool {
    match server_of(alloc, &TRIMMED) {
        Some(mut server) => {
            answers(alloc, &mut server, b"\x04\x01\0\0", b"\x06\x01\0\x47\x01")
                && answers(alloc, &mut server, b"\x04\x01\x01\x01", b"\x05\x01\x01\0")
        }
        None => false,
    }
}
