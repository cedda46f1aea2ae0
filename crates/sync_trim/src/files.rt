// The bytes of the files: journals of the records.
ghost use Rattle.std.specs.Prelude.{◌≡◌, ◌++◌, ◌∷◌, [], List, ℕ, All, Some, map, false, IfOk, OnOk};
ghost use Rattle.sync_journal.specs.Files.{AreBytes, IsFile};
ghost use Rattle.sync_model.specs.Clients as model;
ghost use Rattle.sync_model.specs.Each.{Each};
ghost use Rattle.sync_model.specs.Starts.{started};
ghost use Rattle.sync_model.specs.Trimmed.{trim_records};
ghost use Rattle.sync_exchange.specs.Profile.{the_profile};
ghost use Rattle.sync_exchange.specs.Seen.{client_bytes, read_client, read_server, server_bytes};
ghost use Rattle.sync_records.specs.Limits.{IsClientRecord, IsServerRecord};
ghost use Rattle.sync_records.specs.Spelling.{client_spelling, server_spelling};
ghost use Rattle.sync_client.specs.Clients.{IsClientOf};
ghost use Rattle.shrink_law.specs.Short.{short_records};
ghost use Rattle.server_memory.specs.Kept.{parts};
ghost use Rattle.sync_server.specs.Serving.{is_closed, kept_of};

use crate::shortening::shortened;
use crate::starting::started;
use crate::trimming::trimmed;
use std::alloc::Global;
use sync_base::{Id, NoMemory};
use sync_client::Client;
use sync_disk::Disk;
use sync_journal::JournalBytes;
use sync_records::{ClientRecord, ServerRecord};
use sync_server::Server;

/// Puts the bytes of a record.
fn put(file: &mut JournalBytes, bytes: &[u8]) -> Result<(), NoMemory>
    ensures { (before : List (List ℕ)) → AreBytes before file.old → OnOk result (AreBytes (before ++ bytes.now ∷ []) file.new) }
{
    match file.put(bytes) {
        Ok(()) => Ok(()),
        Err(_) => Err(NoMemory),
    }
}

fn put_server_records(
    alloc: Global,
    file: &mut JournalBytes,
    records: &[ServerRecord],
) -> Result<(), NoMemory>
    ensures put { (before : List (List ℕ)) → AreBytes before file.old → OnOk result (AreBytes (before ++ map server_spelling records.now) file.new) }
    ensures are { OnOk result (All IsServerRecord records.now) }
{
    for record in records {
        let bytes = record.record_bytes(alloc)?;
        put(file, &bytes)?;
    }
    Ok(())
}

fn put_client_records(
    alloc: Global,
    file: &mut JournalBytes,
    records: &[ClientRecord],
) -> Result<(), NoMemory>
    ensures put { (before : List (List ℕ)) → AreBytes before file.old → OnOk result (AreBytes (before ++ map client_spelling records.now) file.new) }
    ensures are { OnOk result (All IsClientRecord records.now) }
{
    for record in records {
        let bytes = record.record_bytes(alloc)?;
        put(file, &bytes)?;
    }
    Ok(())
}

fn new(alloc: Global) -> Result<JournalBytes, NoMemory>
    ensures { IfOk result (AreBytes []) }
{
    match JournalBytes::new(alloc) {
        Ok(file) => Ok(file),
        Err(_) => Err(NoMemory),
    }
}

fn end(file: JournalBytes) -> Result<Vec<u8>, NoMemory>
    ensures { (records : List (List ℕ)) → AreBytes records file → IfOk result (λ bytes. IsFile records bytes.items) }
{
    match file.end() {
        Ok(bytes) => Ok(bytes),
        Err(_) => Err(NoMemory),
    }
}

/// The bytes of the file that may stand in place of a server's file: a journal of the records that `trimmed` answers.
pub fn trimmed_file<D: Disk>(alloc: Global, server: &Server<D>) -> Result<Vec<u8>, NoMemory>
    requires open_ { is_closed server.now ≡ false }
    ensures file { IfOk result (λ bytes. IsFile (map server_bytes (trim_records the_profile (parts (kept_of server.now)))) bytes.items) }
    // Each record is read back from its bytes.
    ensures back { OnOk result (Each (λ r. read_server (server_bytes r) ≡ Some r) (trim_records the_profile (parts (kept_of server.now)))) }
{
    let records = trimmed(alloc, server)?;
    let mut file = new(alloc)?;
    put_server_records(alloc, &mut file, records.as_slice())?;
    end(file)
}

/// The bytes of the file of a client that begins with the objects of a server: a journal of the records that `started`
/// answers.
pub fn started_file<D: Disk>(alloc: Global, server: &Server<D>, id: Id) -> Result<Vec<u8>, NoMemory>
    requires open_ { is_closed server.now ≡ false }
    ensures file { IfOk result (λ bytes. IsFile (map client_bytes (started the_profile id (parts (kept_of server.now)).second (parts (kept_of server.now)).len (parts (kept_of server.now)).objects)) bytes.items) }
    // Each record is read back from its bytes.
    ensures back { OnOk result (Each (λ r. read_client (client_bytes r) ≡ Some r) (started the_profile id (parts (kept_of server.now)).second (parts (kept_of server.now)).len (parts (kept_of server.now)).objects)) }
{
    let records = started(alloc, server, id)?;
    let mut file = new(alloc)?;
    put_client_records(alloc, &mut file, records.as_slice())?;
    end(file)
}

/// The bytes of the short file that may stand in place of a client's file: a journal of the records that `shortened` answers.
pub fn short_file<D: Disk>(alloc: Global, client: &Client<D>) -> Result<Vec<u8>, NoMemory>
    ensures file { (of : List model.ClientRecord) → IsClientOf of client.now → IfOk result (λ bytes. IsFile (map client_bytes (short_records the_profile (model.client_of the_profile of))) bytes.items) }
    // Each record is read back from its bytes.
    ensures back { (of : List model.ClientRecord) → IsClientOf of client.now → OnOk result (Each (λ r. read_client (client_bytes r) ≡ Some r) (short_records the_profile (model.client_of the_profile of))) }
{
    let records = shortened(alloc, client)?;
    let mut file = new(alloc)?;
    put_client_records(alloc, &mut file, records.as_slice())?;
    end(file)
}
