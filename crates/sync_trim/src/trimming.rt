ghost use Rattle.std.specs.Prelude.{◌≡◌, ◌++◌, ◌∷◌, [], map, if◌then◌else◌, false, IfOk, OnOk};
ghost use Rattle.sync_model.specs.Servers as model;
ghost use Rattle.sync_model.specs.Trimmed.{trim_records};
ghost use Rattle.sync_exchange.specs.Profile.{the_profile};
ghost use Rattle.sync_exchange.specs.Seen.{server_seen};
ghost use Rattle.server_memory.specs.Kept.{parts};
ghost use Rattle.sync_server.specs.Serving.{is_closed, kept_of};

use crate::bodies::part_bodies;
use crate::floor::{next_floor, state_at};
use crate::history::put_entries;
use crate::idents::{put_clients, put_counts, put_retired};
use crate::lists::put;
use crate::past::put_past;
use std::alloc::Global;
use sync_base::{Blob, NoMemory};
use sync_disk::Disk;
use sync_records::ServerRecord;
use sync_server::Server;

/// The records of the file that may stand in place of a server's file: those without the history before its next floor,
/// which is the least, over the idents that aren't retired, of the greater of the ident's settled number and the floor,
/// and the length where there is no such ident.
pub fn trimmed<D: Disk>(alloc: Global, server: &Server<D>) -> Result<Vec<ServerRecord>, NoMemory>
    requires open_ { is_closed server.now ≡ false }
    ensures trimmed { IfOk result (λ records. map server_seen records.items ≡ trim_records the_profile (parts (kept_of server.now))) }
{
    let floor = next_floor(server);
    let bodies = {
        let below = state_at(alloc, server, floor)?;
        part_bodies(alloc, &below)?
    };
    let mut records = Vec::new(alloc);
    put_form(&mut records, server)?;
    put_parts(&mut records, bodies)?;
    put(&mut records, ServerRecord::Floor { version: floor })?;
    put_clients(&mut records, server)?;
    put_retired(&mut records, server)?;
    put_counts(&mut records, server)?;
    put_entries(alloc, &mut records, server, floor)?;
    put_past(alloc, &mut records, server, floor)?;
    Ok(records)
}

/// Puts a Form where the server's file has one.
fn put_form<D: Disk>(records: &mut Vec<ServerRecord>, server: &Server<D>) -> Result<(), NoMemory>
    ensures { OnOk result (map server_seen records.new.items ≡ map server_seen records.old.items ++ (if (parts (kept_of server.now)).second then model.Form ∷ [] else [])) }
{
    if server.form() == 1 {
        return Ok(());
    }
    put(records, ServerRecord::Form)
}

/// Puts a Part with each of these bytes.
fn put_parts(records: &mut Vec<ServerRecord>, bodies: Vec<Blob>) -> Result<(), NoMemory>
    ensures { OnOk result (map server_seen records.new.items ≡ map server_seen records.old.items ++ map (λ body. model.Part body) bodies.items) }
{
    for body in bodies {
        put(records, ServerRecord::Part { body })?;
    }
    Ok(())
}
