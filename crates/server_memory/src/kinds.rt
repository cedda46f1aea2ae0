//! The records of a file as those of a kind.
ghost use Rattle.std.specs.Prelude.{◌≡◌, map, IfOk};
ghost use Rattle.std.specs.Option.{option_map};
ghost use Rattle.sync_exchange.specs.Profile.{the_profile};
ghost use Rattle.sync_exchange.specs.Seen.{read_server, server_seen};
ghost use Rattle.sync_model.specs.Fronts.{is_form, floor_is, of_kind, part_of, retired_is, uuid_is, count_is, crossed_is, entry_is};
ghost use Rattle.server_memory.specs.Crossing.{past_seen};
ghost use Rattle.server_memory.specs.Fronting.{AreSpelled, IsSpelled, carried_seen, counted_seen, seen};

use crate::lists::keep;
use crate::merging::ChangeHead;
use byte_lists::ByteLists;
use std::alloc::Global;
use sync_base::{Blob, Id, Ident, NoMemory};
use sync_records::{RecordRefusal, ServerRecord};

/// A record of a file, or none where bytes are no record.
pub(crate) type Found = Option<ServerRecord>;

/// The record that the bytes are, if they are one.
fn record_in(alloc: Global, bytes: &[u8]) -> Result<Found, NoMemory>
    ensures read { IfOk result (λ found. option_map server_seen found ≡ read_server bytes.now) }
    ensures spelled { IfOk result (λ found. IsSpelled (option_map server_seen found) bytes.now) }
{
    match ServerRecord::record_of(alloc, bytes) {
        Ok(found) => Ok(Some(found)),
        Err(RecordRefusal::BadRecord) => Ok(None),
        Err(RecordRefusal::NoMemory) => Err(NoMemory),
    }
}

/// The records of a file.
pub(crate) fn records_in(alloc: Global, files: &ByteLists) -> Result<Vec<Found>, NoMemory>
    ensures read { IfOk result (λ found. seen found.items ≡ map read_server files.now) }
    ensures spelled { IfOk result (λ found. AreSpelled (seen found.items) files.now) }
{
    let mut found = Vec::new(alloc);
    for place in 0..files.len() {
        let record = record_in(alloc, files.at(place))?;
        keep(&mut found, record)?;
    }
    Ok(found)
}

pub(crate) fn as_form(found: &Found) -> bool
    ensures { result ≡ is_form the_profile (option_map server_seen found.now) }
{
    match found {
        Some(ServerRecord::Form) => true,
        _ => false,
    }
}

pub(crate) fn as_part(found: &Found) -> Option<&Blob>
    ensures { option_map (λ body. body.now) result ≡ of_kind part_of (option_map server_seen found.now) }
{
    match found {
        Some(ServerRecord::Part { body }) => Some(body),
        _ => None,
    }
}

pub(crate) fn as_floor(found: &Found) -> Option<u32>
    ensures { result ≡ of_kind floor_is (option_map server_seen found.now) }
{
    match found {
        Some(ServerRecord::Floor { version }) => Some(*version),
        _ => None,
    }
}

pub(crate) fn as_client(found: &Found) -> Option<Id>
    ensures { result ≡ of_kind uuid_is (option_map server_seen found.now) }
{
    match found {
        Some(ServerRecord::Client { id }) => Some(*id),
        _ => None,
    }
}

pub(crate) fn as_retired(found: &Found) -> Option<(Ident, Ident)>
    ensures { result ≡ of_kind retired_is (option_map server_seen found.now) }
{
    match found {
        Some(ServerRecord::Retired { ident, by }) => Some((*ident, *by)),
        _ => None,
    }
}

/// An ident's count.
#[derive(Clone, Copy)]
pub(crate) struct Counted {
    pub(crate) ident: Ident,
    pub(crate) number: u32,
    pub(crate) base: u32,
    pub(crate) settled: u32,
}

pub(crate) fn as_count(found: &Found) -> Option<Counted>
    ensures { option_map counted_seen result ≡ of_kind count_is (option_map server_seen found.now) }
{
    match found {
        Some(
            ServerRecord::Count {
                ident,
                number,
                base,
                settled,
            },
        ) => Some(Counted {
            ident: *ident,
            number: *number,
            base: *base,
            settled: *settled,
        }),
        _ => None,
    }
}

/// The origin of an entry, its numbers, and its bytes.
pub(crate) fn as_carried(found: &Found) -> Option<(Ident, ChangeHead, &Blob)>
    ensures { option_map (λ e. carried_seen e.0 e.1 e.2.now) result ≡ of_kind entry_is (option_map server_seen found.now) }
{
    match found {
        Some(
            ServerRecord::Carried {
                origin,
                number,
                base,
                ms,
                body,
            },
        ) => {
            let head = ChangeHead {
                number: *number,
                base: *base,
                ms: *ms,
            };
            Some((*origin, head, body))
        }
        _ => None,
    }
}

/// The entry of a version as an ident's changes crossed it, without its bytes.
#[derive(Clone, Copy)]
pub(crate) struct PastHead {
    pub(crate) ident: Ident,
    pub(crate) version: u32,
    pub(crate) ms: u64,
}

pub(crate) fn as_past(found: &Found) -> Option<(PastHead, &Blob)>
    ensures { option_map (λ e. past_seen e.0 e.1.now) result ≡ of_kind crossed_is (option_map server_seen found.now) }
{
    match found {
        Some(
            ServerRecord::Past {
                ident,
                version,
                ms,
                body,
            },
        ) => {
            let head = PastHead {
                ident: *ident,
                version: *version,
                ms: *ms,
            };
            Some((head, body))
        }
        _ => None,
    }
}
