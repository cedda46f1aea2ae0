// The files that nodes make.
ghost use Rattle.std.specs.Prelude.{◌≡◌, List};
ghost use Rattle.sync_model.specs.Clients as model;
ghost use Rattle.sync_client.specs.Clients.{IsClientOf};
ghost use Rattle.server_memory.specs.Kept.{parts};
ghost use Rattle.sync_server.specs.Serving.{kept_of};
ghost use Rattle.sync_host.specs.Steps.{IfTold};
ghost use Rattle.sync_host.specs.Trimming.{TellsShort, TellsStarted, TellsTrimmed, id_in};

use crate::reply::Reply;
use std::alloc::Global;
use sync_client::Client;
use sync_data::Id;
use sync_disk::Disk;
use sync_server::Server;
use sync_trim::{short_file, started_file, trimmed_file};

/// The uuid that these bytes are.
fn id_of(bytes: &[u8]) -> Option<Id>
    ensures { result ≡ id_in bytes.now }
{
    match bytes.split_first_chunk::<16>() {
        Some((id, rest)) => { if rest.is_empty() { Some(*id) } else { None } }
        None => None,
    }
}

/// The bytes of the file that may stand in place of the server's: the history begins where all clients need it.
pub(crate) fn trimmed<D: Disk>(alloc: Global, server: &Server<D>) -> Reply
    ensures { IfTold result (TellsTrimmed (parts (kept_of server.now)) result) }
{
    if server.journal.is_closed() {
        return Reply::Closed;
    }
    match trimmed_file(alloc, server) {
        Ok(bytes) => Reply::Bytes(bytes),
        Err(_) => Reply::NoMemory,
    }
}

/// The bytes of the file of a client with that uuid, which begins with the server's objects.
pub(crate) fn started<D: Disk>(alloc: Global, server: &Server<D>, uuid: &[u8]) -> Reply
    ensures { IfTold result (TellsStarted (id_in uuid.now) (parts (kept_of server.now)) result) }
{
    if server.journal.is_closed() {
        return Reply::Closed;
    }
    let Some(id) = id_of(uuid) else {
        return Reply::BadRequest;
    };
    match started_file(alloc, server, id) {
        Ok(bytes) => Reply::Bytes(bytes),
        Err(_) => Reply::NoMemory,
    }
}

/// The bytes of the short file that may stand in place of the client's.
pub(crate) fn shortened<D: Disk>(alloc: Global, client: &Client<D>) -> Reply
    ensures { (records : List model.ClientRecord) → IsClientOf records client.now → IfTold result (TellsShort records result) }
{
    if client.journal.is_closed() {
        return Reply::Closed;
    }
    match short_file(alloc, client) {
        Ok(bytes) => Reply::Bytes(bytes),
        Err(_) => Reply::NoMemory,
    }
}
