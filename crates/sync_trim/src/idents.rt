ghost use Rattle.std.specs.Prelude.{◌≡◌, ◌++◌, map, OnOk};
ghost use Rattle.sync_model.specs.Servers as model;
ghost use Rattle.sync_model.specs.Trimmed.{count_records};
ghost use Rattle.sync_exchange.specs.Profile.{the_profile};
ghost use Rattle.sync_exchange.specs.Seen.{server_seen};
ghost use Rattle.server_memory.specs.Kept.{parts};
ghost use Rattle.sync_server.specs.Serving.{kept_of};

use crate::lists::put;
use sync_base::NoMemory;
use sync_disk::Disk;
use sync_records::ServerRecord;
use sync_server::Server;

/// Puts the uuids of all idents.
pub(crate) fn put_clients<D: Disk>(
    records: &mut Vec<ServerRecord>,
    server: &Server<D>,
) -> Result<(), NoMemory>
    ensures { OnOk result (map server_seen records.new.items ≡ map server_seen records.old.items ++ map (λ g. model.Client g.uuid) (parts (kept_of server.now)).idents) }
{
    for place in 0..server.idents() {
        let Some(id) = server.id_of(place + 1) else {
            return Ok(());
        };
        put(records, ServerRecord::Client { id: *id })?;
    }
    Ok(())
}

/// Puts the retired idents with their heirs.
pub(crate) fn put_retired<D: Disk>(
    records: &mut Vec<ServerRecord>,
    server: &Server<D>,
) -> Result<(), NoMemory>
    ensures { OnOk result (map server_seen records.new.items ≡ map server_seen records.old.items ++ map (λ q. model.Retired q.0 q.1) (parts (kept_of server.now)).retired) }
{
    for place in 0..u32::MAX {
        let Some(pair) = server.retired(place) else {
            return Ok(());
        };
        let (ident, by) = (pair.0, pair.1);
        put(records, ServerRecord::Retired { ident, by })?;
    }
    // No list of so many is kept.
    Err(NoMemory)
}

/// Puts the numbers of all idents.
pub(crate) fn put_counts<D: Disk>(
    records: &mut Vec<ServerRecord>,
    server: &Server<D>,
) -> Result<(), NoMemory>
    ensures { OnOk result (map server_seen records.new.items ≡ map server_seen records.old.items ++ count_records the_profile 1 (parts (kept_of server.now)).idents) }
{
    for place in 0..server.idents() {
        let ident = place + 1;
        let Some(counts) = server.counts(ident) else {
            return Ok(());
        };
        put(
            records,
            ServerRecord::Count {
                ident,
                number: counts.number,
                base: counts.base,
                settled: counts.settled,
            },
        )?;
    }
    Ok(())
}
