ghost use Rattle.std.specs.Prelude.{◌≡◌, ◌++◌, List, length, IfOk, IfSome, OnOk, Some};
ghost use Rattle.sync_records.specs.Limits.{IsClientRecord};
ghost use Rattle.sync_records.specs.Reading.{Gives, seen, made_of as read_made, made_in, took_of as read_took, took_in, took_seen, waits_of as read_waits, waits_in, client_forms, fields_in, record_in};
ghost use Rattle.sync_records.specs.Spelling.{client_spelling};
ghost use Rattle.sync_records.specs.declared.client.ClientRecord.{ClientRecord};

use crate::fields::{
    FORM, body_of, current_of, form_of, id_of, named_of, names_of, number_of, pair_of, sized_of,
    version_of, wide_of,
};
use crate::named::Named;
use crate::refusal::RecordRefusal;
use crate::writing::{ROOM, put_bytes, put_number, put_pair, put_waits};
use std::alloc::Global;
use subset_bytes::put_tables;
use sync_data::{Blob, Id, Ident, NoMemory};
use sync_io::put_varint64;
use sync_subset::Subset;

/// A record of a client's journal (docs/FORMATS.md, "Records").
#[derive(Drop)]
pub enum ClientRecord {
    /// The client has that uuid.
    Born {
        id: Id,
    },
    /// The server gave it an ident.
    Named(Named),
    /// The client made a changeset of that number, at that many milliseconds since the epoch: its
    /// bytes, as it was made.
    Made {
        number: u32,
        ms: u64,
        body: Blob,
    },
    /// The client took an entry of the history: the client that made it, its number among that
    /// client's, its time in milliseconds since the epoch, and its bytes.
    Took {
        origin: Ident,
        number: u32,
        ms: u64,
        body: Blob,
    },
    /// From here on the file is in the second form, and may hold changesets of version 2.
    Form,
    /// The client makes and gets changes of these tables alone.
    Subset {
        tables: Subset,
    },
    /// The bytes of a changeset, which is the next part of the state with which the file begins.
    Part {
        body: Blob,
    },
    /// That state is complete, and it is the one at this version of the history.
    Floor {
        version: u32,
    },
    /// The front of a short file begins: so many of the client's transactions were taken from the history and aren't in
    /// the file, and so many are unsent.
    Resumed {
        number: u32,
        waiting: u32,
    },
    /// One of those that are unsent: its number, its base, its time in milliseconds since the epoch, its bytes as it was
    /// made, and as it was carried since. Where the latter are none the former are none too.
    Waits {
        number: u32,
        base: u32,
        ms: u64,
        body: Blob,
        current: Blob,
    },
}

fn made_of(alloc: Global, bytes: &[u8]) -> Result<ClientRecord, RecordRefusal>
    ensures { Gives (λ x. x) result (seen read_made made_in bytes.now) }
{
    let (number, rest) = number_of(bytes)?;
    let (ms, rest) = wide_of(rest)?;
    let body = body_of(alloc, rest)?;
    Ok(ClientRecord::Made { number, ms, body })
}

/// The fields of a record Took, with its bytes borrowed.
#[derive(Clone, Copy)]
pub struct Took<'a> {
    pub origin: Ident,
    pub number: u32,
    pub ms: u64,
    pub body: &'a [u8],
}

fn took_fields(bytes: &[u8]) -> Result<Took<'_>, RecordRefusal>
    ensures { Gives took_seen result (seen read_took took_in bytes.now) }
{
    let (origin, rest) = number_of(bytes)?;
    let (number, rest) = number_of(rest)?;
    let (ms, body) = wide_of(rest)?;
    Ok(Took {
        origin,
        number,
        ms,
        body,
    })
}

fn took_all(bytes: &[u8]) -> Option<Took<'_>>
    ensures { IfSome result (λ took. record_in client_forms bytes.now ≡ Some (took_seen took)) }
{
    match bytes {
        [4, fields @ ..] => took_fields(fields).ok(),
        _ => None,
    }
}

fn took_of(alloc: Global, bytes: &[u8]) -> Result<ClientRecord, RecordRefusal>
    ensures { Gives (λ x. x) result (seen read_took took_in bytes.now) }
{
    let Took {
        origin,
        number,
        ms,
        body,
    } = took_fields(bytes)?;
    let body = body_of(alloc, body)?;
    Ok(ClientRecord::Took {
        origin,
        number,
        ms,
        body,
    })
}

fn waits_of(alloc: Global, bytes: &[u8]) -> Result<ClientRecord, RecordRefusal>
    ensures { Gives (λ x. x) result (seen read_waits waits_in bytes.now) }
{
    let (number, rest) = number_of(bytes)?;
    let (base, rest) = number_of(rest)?;
    let (ms, rest) = wide_of(rest)?;
    let (body, rest) = sized_of(rest)?;
    let current = current_of(body, rest)?;
    let body = body_of(alloc, body)?;
    let current = body_of(alloc, current)?;
    Ok(ClientRecord::Waits {
        number,
        base,
        ms,
        body,
        current,
    })
}

/// The fields behind that tag.
fn fields_of(alloc: Global, tag: u8, bytes: &[u8]) -> Result<ClientRecord, RecordRefusal>
    ensures { Gives (λ x. x) result (fields_in client_forms tag bytes.now) }
{
    match tag {
        1 => Ok(ClientRecord::Born { id: id_of(bytes)? }),
        2 => Ok(ClientRecord::Named(named_of(bytes)?)),
        3 => made_of(alloc, bytes),
        4 => took_of(alloc, bytes),
        7 => {
            form_of(bytes)?;
            Ok(ClientRecord::Form)
        }
        9 => Ok(ClientRecord::Subset {
            tables: names_of(alloc, bytes)?,
        }),
        11 => Ok(ClientRecord::Part {
            body: body_of(alloc, bytes)?,
        }),
        12 => Ok(ClientRecord::Floor {
            version: version_of(bytes)?,
        }),
        16 => {
            let (number, waiting) = pair_of(bytes)?;
            Ok(ClientRecord::Resumed { number, waiting })
        }
        17 => waits_of(alloc, bytes),
        _ => Err(RecordRefusal::BadRecord),
    }
}

fn all_of(alloc: Global, bytes: &[u8]) -> Result<ClientRecord, RecordRefusal>
    ensures { Gives (λ x. x) result (record_in client_forms bytes.now) }
{
    match bytes {
        [] => Err(RecordRefusal::BadRecord),
        [tag, fields @ ..] => fields_of(alloc, *tag, fields),
    }
}

fn put_record(out: &mut Vec<u8>, given: &ClientRecord) -> Result<(), sync_io::NoMemory>
    ensures spelled { OnOk result (out.new.items ≡ out.old.items ++ client_spelling given.now) }
    ensures is { OnOk result (IsClientRecord given.now) }
{
    match given {
        ClientRecord::Born { id } => put_bytes(out, 1, id),
        ClientRecord::Named(named) => put_number(out, 2, named.ident()),
        ClientRecord::Made { number, ms, body } => {
            put_number(out, 3, *number)?;
            put_varint64(out, *ms)?;
            out.extend_from_slice(body.bytes())?;
            Ok(())
        }
        ClientRecord::Took {
            origin,
            number,
            ms,
            body,
        } => {
            put_pair(out, 4, *origin, *number)?;
            put_varint64(out, *ms)?;
            out.extend_from_slice(body.bytes())?;
            Ok(())
        }
        ClientRecord::Form => put_number(out, 7, FORM),
        ClientRecord::Subset { tables } => {
            out.push(9)?;
            put_tables(out, tables)
        }
        ClientRecord::Part { body } => put_bytes(out, 11, body.bytes()),
        ClientRecord::Floor { version } => put_number(out, 12, *version),
        ClientRecord::Resumed { number, waiting } => put_pair(out, 16, *number, *waiting),
        ClientRecord::Waits {
            number,
            base,
            ms,
            body,
            current,
        } => put_waits(out, (*number, *base), *ms, body.bytes(), current.bytes()),
    }
}

impl ClientRecord {
    /// The one spelling of the record. `NoMemory` also where it has none: a `Waits` that was carried to no bytes at all but
    /// had some, or one of more than 4,294,967,295 bytes.
    pub fn record_bytes(&self, alloc: Global) -> Result<Vec<u8>, NoMemory>
        ensures spelled { IfOk result (λ bytes. bytes.items ≡ client_spelling self.now) }
        // So they are read as the record again.
        ensures is { OnOk result (IsClientRecord self.now) }
    {
        let Ok(out) = Vec::with_capacity(alloc, ROOM) else {
            return Err(NoMemory);
        };
        let mut out = out;
        match put_record(&mut out, self) {
            Ok(()) => Ok(out),
            Err(_) => Err(NoMemory),
        }
    }

    /// The fields of a Took, where all of the bytes spell one. It takes no memory.
    pub fn took_in(bytes: &[u8]) -> Option<Took<'_>>
        ensures spelled { IfSome result (λ took. bytes.now ≡ client_spelling (took_seen took)) }
        ensures exact { IfSome result (λ took. record_in client_forms bytes.now ≡ Some (took_seen took)) }
    {
        took_all(bytes)
    }

    /// The record that all of the bytes spell.
    pub fn record_of(alloc: Global, bytes: &[u8]) -> Result<ClientRecord, RecordRefusal>
        // What is read is spelled so.
        ensures found { IfOk result (λ found. bytes.now ≡ client_spelling found) }
        // What is spelled so is read, unless memory runs out.
        ensures only { (spelled : ClientRecord) → IsClientRecord spelled → bytes.now ≡ client_spelling spelled → Gives (λ x. x) result (Some spelled) }
        // What is read, unless memory runs out.
        ensures exact { Gives (λ x. x) result (record_in client_forms bytes.now) }
        ensures is { IfOk result IsClientRecord }
    {
        all_of(alloc, bytes)
    }
}
