ghost use Rattle.std.specs.Prelude.{◌≡◌, ◌++◌, ◌≤◌, List, length, OnOk};
ghost use Rattle.sync_recip.specs.Lists.{entry_of};
ghost use Rattle.sync_dump.specs.Dump.{dump};
ghost use Rattle.sync_model.specs.Clients as clients;
ghost use Rattle.sync_model.specs.Reports.{node_line};
ghost use Rattle.sync_exchange.specs.Profile.{the_profile};
ghost use Rattle.sync_client.specs.Clients.{IsClientOf};
ghost use Rattle.server_memory.specs.Kept.{parts};
ghost use Rattle.sync_server.specs.Serving.{kept_of};
ghost use Rattle.sync_words.specs.Reports.{client_text, entries_text, entry_text, floor_text, kept_text, standing_text};

use super::text::{put, put_name, put_numbers, put_said};
use std::alloc::Global;
use sync_client::Client;
use sync_codec::encode;
use sync_data::{Entry, Name, NoMemory};
use sync_disk::Disk;
use sync_dump::dump_lines;
use sync_server::Server;
use sync_store::Store;

/// Puts the dump of objects.
fn put_dump(alloc: Global, out: &mut Vec<u8>, objects: &Store) -> Result<(), NoMemory>
    ensures { OnOk result (out.new.items ≡ out.old.items ++ dump objects.now) }
{
    let lines = dump_lines(alloc, objects)?;
    match out.extend_from_slice(&lines) {
        Ok(()) => Ok(()),
        Err(_) => Err(NoMemory),
    }
}

/// Puts the line of the entry of that version: the bytes are those of the changeset as it was carried.
fn put_entry(alloc: Global, out: &mut Vec<u8>, version: u32, entry: &Entry) -> Result<(), NoMemory>
    ensures { OnOk result (out.new.items ≡ out.old.items ++ entry_text version (entry_of entry.now)) }
{
    let body = encode(alloc, &entry.changes)?;
    let Ok(text) = hex::encode(alloc, &body) else {
        return Err(NoMemory);
    };
    put_said(
        alloc,
        out,
        "entry",
        &[
            version as u64,
            entry.origin as u64,
            entry.number as u64,
            entry.changes.ms(),
        ],
    )?;
    put(out, " ")?;
    put(out, text.as_str())?;
    put(out, "\n")
}

/// Puts the line of the floor of a history, where it isn't 0.
fn put_floor(alloc: Global, out: &mut Vec<u8>, floor: u32) -> Result<(), NoMemory>
    ensures { OnOk result (out.new.items ≡ out.old.items ++ floor_text floor) }
{
    if floor == 0 {
        return Ok(());
    }
    put_said(alloc, out, "floor", &[floor as u64])?;
    put(out, "\n")
}

/// Puts a line for each entry of the history, from its floor on.
fn put_entries<D: Disk>(
    alloc: Global,
    out: &mut Vec<u8>,
    server: &Server<D>,
) -> Result<(), NoMemory>
    ensures { OnOk result (out.new.items ≡ out.old.items ++ entries_text (parts (kept_of server.now)).floor (parts (kept_of server.now)).entries) }
{
    for version in server.floor()..server.len() {
        if let Some(entry) = server.entry(version) {
            put_entry(alloc, out, version, entry)?;
        }
    }
    Ok(())
}

/// Puts the server's part of the report: how many entries the history has, its floor where it isn't 0, a line for each entry
/// from there on, and the dump
/// (docs/FORMATS.md, "Report and dump").
pub fn put_server<D: Disk>(
    alloc: Global,
    out: &mut Vec<u8>,
    server: &Server<D>,
) -> Result<(), NoMemory>
    ensures { OnOk result (out.new.items ≡ out.old.items ++ kept_text (parts (kept_of server.now))) }
{
    put_said(alloc, out, "server", &[server.len() as u64])?;
    put(out, "\n")?;
    put_floor(alloc, out, server.floor())?;
    put_entries(alloc, out, server)?;
    put_dump(alloc, out, server.objects())
}

/// Puts what stands behind a client's name: its ident, its cursor, how many changesets are unsent, and the dump.
pub fn put_standing<D: Disk>(
    alloc: Global,
    out: &mut Vec<u8>,
    client: &Client<D>,
) -> Result<(), NoMemory>
    ensures { (records : List clients.ClientRecord) → IsClientOf records client.now
        → OnOk result (out.new.items ≡ out.old.items ++ standing_text (clients.client_of the_profile records).ident (clients.client_of the_profile records).cursor (length (clients.client_of the_profile records).unsent) (clients.client_of the_profile records).objects) }
{
    put_numbers(
        alloc,
        out,
        &[
            client.ident() as u64,
            client.cursor() as u64,
            client.unsent() as u64,
        ],
    )?;
    put(out, "\n")?;
    put_dump(alloc, out, client.objects())
}

/// Puts a client's part of the report (docs/FORMATS.md, "Report and dump").
pub fn put_client<D: Disk>(
    alloc: Global,
    out: &mut Vec<u8>,
    name: &Name,
    client: &Client<D>,
) -> Result<(), NoMemory>
    ensures { (records : List clients.ClientRecord) → IsClientOf records client.now
        → OnOk result (out.new.items ≡ out.old.items ++ client_text (node_line the_profile (record { name = name.now; records = records }))) }
{
    put(out, "client ")?;
    put_name(alloc, out, name)?;
    put_standing(alloc, out, client)
}
