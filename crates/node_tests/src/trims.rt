//! The files that a server with two clients gives: its own without the history that nobody needs, and a new client's.

use crate::spelled::{disk_of, message};
use std::alloc::Global;
use sync_disk::MemoryDisk;
use sync_records::{ClientRecord, ServerRecord};
use sync_server::Server;
use sync_trim::{started, trimmed};

/// Two clients get their idents, client 1 adds a table of six columns and an object, and both have settled that entry.
const EXCHANGE: [&[u8]; 5] = [
    b"\x01\x0a\x0a\x0a\x0a\x0a\x0a\x0a\x0a\x0a\x0a\x0a\x0a\x0a\x0a\x0a\x0a",
    b"\x01\x0b\x0b\x0b\x0b\x0b\x0b\x0b\x0b\x0b\x0b\x0b\x0b\x0b\x0b\x0b\x0b",
    b"\x03\x01\x01\x01\x00\x01\x3d\x01\x07\x01\x74\x01\x6e\x01\x6d\x01\x73\x01\x6c\x01\x75\x01\x6b\x08\x01\x00\x00\x02\x00\x01\x01\x00\x00\x02\x00\x02\x01\x01\x00\x02\x00\x03\x03\x01\x00\x02\x00\x04\x03\x00\x01\x02\x00\x05\x01\x00\x02\x02\x00\x06\x07\x01\x00\x00\x03\x00\x00\x02",
    b"\x04\x01\x01\x01",
    b"\x04\x02\x01\x01",
];

/// The table, its columns in order of names, and the object.
const PART: &[u8] =
    b"\x0b\x01\x07\x01\x74\x01\x6b\x01\x6c\x01\x6d\x01\x6e\x01\x73\x01\x75\x08\x01\x00\x00\x02\x00\x01\x07\x01\x00\x00\x02\x00\x02\x03\x00\x01\x02\x00\x03\x01\x01\x00\x02\x00\x04\x01\x00\x00\x02\x00\x05\x03\x01\x00\x02\x00\x06\x01\x00\x02\x03\x00\x00\x02";

/// The parts, the floor, the uuids, and the counts. No entry is left.
const TRIMMED: [&[u8]; 6] = [
    PART,
    b"\x0c\x01",
    b"\x05\x0a\x0a\x0a\x0a\x0a\x0a\x0a\x0a\x0a\x0a\x0a\x0a\x0a\x0a\x0a\x0a",
    b"\x05\x0b\x0b\x0b\x0b\x0b\x0b\x0b\x0b\x0b\x0b\x0b\x0b\x0b\x0b\x0b\x0b",
    b"\x0d\x01\x01\0\x01",
    b"\x0d\x02\0\0\x01",
];

const STARTED: [&[u8]; 3] = [
    b"\x01\x0c\x0c\x0c\x0c\x0c\x0c\x0c\x0c\x0c\x0c\x0c\x0c\x0c\x0c\x0c\x0c",
    PART,
    b"\x0c\x01",
];

fn take_all(alloc: Global, server: &mut Server<MemoryDisk>) -> bool {
    for bytes in EXCHANGE {
        let Some(message) = message(alloc, bytes) else {
            return false;
        };
        if server.take(message).is_err() {
            return false;
        }
    }
    true
}

/// The server's file after the exchange.
fn file_of(alloc: Global) -> Option<MemoryDisk> {
    let Ok(mut server) = Server::open(alloc, disk_of(alloc, &[])?) else {
        return None;
    };
    if take_all(alloc, &mut server) {
        Some(server.into_disk())
    } else {
        None
    }
}

fn spells_server(alloc: Global, records: &[ServerRecord]) -> bool {
    if records.len() != TRIMMED.len() {
        return false;
    }
    for (record, bytes) in records.iter().zip(TRIMMED.iter()) {
        match record.record_bytes(alloc) {
            Ok(spelled) => {
                if spelled.as_slice() != *bytes {
                    return false;
                }
            }
            Err(_) => return false,
        }
    }
    true
}

fn spells_client(alloc: Global, records: &[ClientRecord]) -> bool {
    if records.len() != STARTED.len() {
        return false;
    }
    for (record, bytes) in records.iter().zip(STARTED.iter()) {
        match record.record_bytes(alloc) {
            Ok(spelled) => {
                if spelled.as_slice() != *bytes {
                    return false;
                }
            }
            Err(_) => return false,
        }
    }
    true
}

/// Whether the server of the file gives these records.
fn gives_files(alloc: Global, disk: MemoryDisk) -> bool {
    let Ok(server) = Server::open(alloc, disk) else {
        return false;
    };
    let Ok(trimmed) = trimmed(alloc, &server) else {
        return false;
    };
    let Ok(started) = started(alloc, &server, [12; 16]) else {
        return false;
    };
    spells_server(alloc, &trimmed) && spells_client(alloc, &started)
}

pub fn files_begin_with_the_objects(alloc: Global) -> bool {
    match file_of(alloc) {
        Some(disk) => gives_files(alloc, disk),
        None => false,
    }
}
