ghost use Rattle.std.specs.Prelude.{◌≡◌, ◌++◌, List, length, IfOk, OnOk, Some};
ghost use Rattle.sync_records.specs.Limits.{IsServerRecord};
ghost use Rattle.sync_records.specs.Reading.{Gives, seen, entry_of as read_entry, entry_in, count_of as read_count, count_in, carried_of as read_carried, past_of as read_past, past_in, server_forms, fields_in, record_in};
ghost use Rattle.sync_records.specs.Spelling.{server_spelling};
ghost use Rattle.sync_records.specs.declared.server.ServerRecord.{ServerRecord};

use crate::fields::{FORM, body_of, form_of, id_of, number_of, pair_of, version_of, wide_of};
use crate::refusal::RecordRefusal;
use crate::writing::{ROOM, put_bytes, put_entry, put_number, put_pair};
use std::alloc::Global;
use sync_data::{Blob, Id, Ident, NoMemory};
use sync_io::{put_varint32, put_varint64};

/// A record of a server's journal (docs/FORMATS.md, "Records").
#[derive(Drop)]
pub enum ServerRecord {
    /// A client with that uuid has the next ident.
    Client {
        id: Id,
    },
    /// An entry of the history: the client that made it, its number among that client's, the version
    /// that it was made at, its time in milliseconds since the epoch, and its bytes, as it was made.
    Entry {
        origin: Ident,
        number: u32,
        base: u32,
        ms: u64,
        body: Blob,
    },
    /// From here on the file is in the second form, and may hold changesets of version 2.
    Form,
    /// The ident makes no more changes. The other one recovers what wasn't integrated.
    Retired {
        ident: Ident,
        by: Ident,
    },
    /// The client with that ident can't be asked again to take this many entries of the history.
    Settled {
        ident: Ident,
        settled: u32,
    },
    /// The bytes of a changeset, which is the next part of the state with which a trimmed file begins.
    Part {
        body: Blob,
    },
    /// That state is complete, and the history begins at this version.
    Floor {
        version: u32,
    },
    /// What is known of an ident: how many of its changes are in the history, the base of the last one, and its settled
    /// number.
    Count {
        ident: Ident,
        number: u32,
        base: u32,
        settled: u32,
    },
    /// An entry of the history as it was carried: the client that made it, its number among that client's, the version that
    /// it was made at, its time in milliseconds since the epoch, and its bytes.
    Carried {
        origin: Ident,
        number: u32,
        base: u32,
        ms: u64,
        body: Blob,
    },
    /// What the entry of that version became when the ident's changes crossed it: its time in milliseconds since the epoch,
    /// and its bytes.
    Past {
        ident: Ident,
        version: u32,
        ms: u64,
        body: Blob,
    },
}

fn entry_of(alloc: Global, bytes: &[u8]) -> Result<ServerRecord, RecordRefusal>
    ensures { Gives (λ x. x) result (seen read_entry entry_in bytes.now) }
{
    let (origin, rest) = number_of(bytes)?;
    let (number, rest) = number_of(rest)?;
    let (base, rest) = number_of(rest)?;
    let (ms, rest) = wide_of(rest)?;
    let body = body_of(alloc, rest)?;
    Ok(ServerRecord::Entry {
        origin,
        number,
        base,
        ms,
        body,
    })
}

fn count_of(bytes: &[u8]) -> Result<ServerRecord, RecordRefusal>
    ensures { Gives (λ x. x) result (seen read_count count_in bytes.now) }
{
    let (ident, rest) = number_of(bytes)?;
    let (number, rest) = number_of(rest)?;
    let (base, settled) = pair_of(rest)?;
    Ok(ServerRecord::Count {
        ident,
        number,
        base,
        settled,
    })
}

fn carried_of(alloc: Global, bytes: &[u8]) -> Result<ServerRecord, RecordRefusal>
    ensures { Gives (λ x. x) result (seen read_carried entry_in bytes.now) }
{
    let (origin, rest) = number_of(bytes)?;
    let (number, rest) = number_of(rest)?;
    let (base, rest) = number_of(rest)?;
    let (ms, rest) = wide_of(rest)?;
    let body = body_of(alloc, rest)?;
    Ok(ServerRecord::Carried {
        origin,
        number,
        base,
        ms,
        body,
    })
}

fn past_of(alloc: Global, bytes: &[u8]) -> Result<ServerRecord, RecordRefusal>
    ensures { Gives (λ x. x) result (seen read_past past_in bytes.now) }
{
    let (ident, rest) = number_of(bytes)?;
    let (version, rest) = number_of(rest)?;
    let (ms, rest) = wide_of(rest)?;
    let body = body_of(alloc, rest)?;
    Ok(ServerRecord::Past {
        ident,
        version,
        ms,
        body,
    })
}

/// The fields behind that tag.
fn fields_of(alloc: Global, tag: u8, bytes: &[u8]) -> Result<ServerRecord, RecordRefusal>
    ensures { Gives (λ x. x) result (fields_in server_forms tag bytes.now) }
{
    match tag {
        5 => Ok(ServerRecord::Client { id: id_of(bytes)? }),
        6 => entry_of(alloc, bytes),
        7 => {
            form_of(bytes)?;
            Ok(ServerRecord::Form)
        }
        8 => {
            let (ident, by) = pair_of(bytes)?;
            Ok(ServerRecord::Retired { ident, by })
        }
        10 => {
            let (ident, settled) = pair_of(bytes)?;
            Ok(ServerRecord::Settled { ident, settled })
        }
        11 => Ok(ServerRecord::Part {
            body: body_of(alloc, bytes)?,
        }),
        12 => Ok(ServerRecord::Floor {
            version: version_of(bytes)?,
        }),
        13 => count_of(bytes),
        14 => carried_of(alloc, bytes),
        15 => past_of(alloc, bytes),
        _ => Err(RecordRefusal::BadRecord),
    }
}

fn all_of(alloc: Global, bytes: &[u8]) -> Result<ServerRecord, RecordRefusal>
    ensures { Gives (λ x. x) result (record_in server_forms bytes.now) }
{
    match bytes {
        [] => Err(RecordRefusal::BadRecord),
        [tag, fields @ ..] => fields_of(alloc, *tag, fields),
    }
}

fn put_record(out: &mut Vec<u8>, given: &ServerRecord) -> Result<(), sync_io::NoMemory>
    ensures spelled { OnOk result (out.new.items ≡ out.old.items ++ server_spelling given.now) }
    ensures is { OnOk result (IsServerRecord given.now) }
{
    match given {
        ServerRecord::Client { id } => put_bytes(out, 5, id),
        ServerRecord::Entry {
            origin,
            number,
            base,
            ms,
            body,
        } => put_entry(out, 6, (*origin, *number, *base), *ms, body),
        ServerRecord::Form => put_number(out, 7, FORM),
        ServerRecord::Retired { ident, by } => put_pair(out, 8, *ident, *by),
        ServerRecord::Settled { ident, settled } => put_pair(out, 10, *ident, *settled),
        ServerRecord::Part { body } => put_bytes(out, 11, body.bytes()),
        ServerRecord::Floor { version } => put_number(out, 12, *version),
        ServerRecord::Count {
            ident,
            number,
            base,
            settled,
        } => {
            put_pair(out, 13, *ident, *number)?;
            put_varint32(out, *base)?;
            put_varint32(out, *settled)
        }
        ServerRecord::Carried {
            origin,
            number,
            base,
            ms,
            body,
        } => put_entry(out, 14, (*origin, *number, *base), *ms, body),
        ServerRecord::Past {
            ident,
            version,
            ms,
            body,
        } => {
            put_pair(out, 15, *ident, *version)?;
            put_varint64(out, *ms)?;
            out.extend_from_slice(body.bytes())?;
            Ok(())
        }
    }
}

impl ServerRecord {
    /// The one spelling of the record.
    pub fn record_bytes(&self, alloc: Global) -> Result<Vec<u8>, NoMemory>
        ensures spelled { IfOk result (λ bytes. bytes.items ≡ server_spelling self.now) }
        // So they are read as the record again.
        ensures is { OnOk result (IsServerRecord self.now) }
    {
        let Ok(out) = Vec::with_capacity(alloc, ROOM) else {
            return Err(NoMemory);
        };
        let mut out = out;
        match put_record(&mut out, self) {
            Ok(()) => Ok(out),
            Err(_) => Err(NoMemory),
        }
    }

    /// The record that all of the bytes spell.
    pub fn record_of(alloc: Global, bytes: &[u8]) -> Result<ServerRecord, RecordRefusal>
        // What is read is spelled so.
        ensures found { IfOk result (λ found. bytes.now ≡ server_spelling found) }
        // What is spelled so is read, unless memory runs out.
        ensures only { (spelled : ServerRecord) → IsServerRecord spelled → bytes.now ≡ server_spelling spelled → Gives (λ x. x) result (Some spelled) }
        // What is read, unless memory runs out.
        ensures exact { Gives (λ x. x) result (record_in server_forms bytes.now) }
    {
        all_of(alloc, bytes)
    }
}
