ghost use Rattle.std.specs.Prelude.{◌≡◌, ◌++◌, ◌∷◌, [], map, if◌then◌else◌, false, IfOk, OnOk};
ghost use Rattle.sync_model.specs.Clients as model;
ghost use Rattle.sync_model.specs.Starts.{started};
ghost use Rattle.sync_exchange.specs.Profile.{the_profile};
ghost use Rattle.sync_exchange.specs.Seen.{client_seen};
ghost use Rattle.server_memory.specs.Kept.{parts};
ghost use Rattle.sync_server.specs.Serving.{is_closed, kept_of};

use crate::bodies::part_bodies;
use crate::lists::put;
use std::alloc::Global;
use sync_base::{Blob, Id, NoMemory};
use sync_disk::Disk;
use sync_records::ClientRecord;
use sync_server::Server;

/// The records of a client that begins with the objects of a server: its uuid, a Form where the server's file has one, the
/// parts of the objects, and a Floor with the length of the server's history. The uuid is to be one that no server has
/// bound yet.
pub fn started<D: Disk>(
    alloc: Global,
    server: &Server<D>,
    id: Id,
) -> Result<Vec<ClientRecord>, NoMemory>
    requires open_ { is_closed server.now ≡ false }
    ensures started { IfOk result (λ records. map client_seen records.items ≡ started the_profile id (parts (kept_of server.now)).second (parts (kept_of server.now)).len (parts (kept_of server.now)).objects) }
{
    let bodies = part_bodies(alloc, server.objects())?;
    let mut records = Vec::new(alloc);
    put(&mut records, ClientRecord::Born { id })?;
    put_form(&mut records, server)?;
    put_parts(&mut records, bodies)?;
    let version = server.len();
    put(&mut records, ClientRecord::Floor { version })?;
    Ok(records)
}

/// Puts a Form where the server's file has one.
fn put_form<D: Disk>(records: &mut Vec<ClientRecord>, server: &Server<D>) -> Result<(), NoMemory>
    ensures { OnOk result (map client_seen records.new.items ≡ map client_seen records.old.items ++ (if (parts (kept_of server.now)).second then model.Form ∷ [] else [])) }
{
    if server.form() == 1 {
        return Ok(());
    }
    put(records, ClientRecord::Form)
}

/// Puts a Part with each of these bytes.
pub(crate) fn put_parts(records: &mut Vec<ClientRecord>, bodies: Vec<Blob>) -> Result<(), NoMemory>
    ensures { OnOk result (map client_seen records.new.items ≡ map client_seen records.old.items ++ map (λ body. model.Part body) bodies.items) }
{
    for body in bodies {
        put(records, ClientRecord::Part { body })?;
    }
    Ok(())
}
