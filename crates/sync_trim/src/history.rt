ghost use Rattle.std.specs.Prelude.{◌≡◌, ◌≤◌, ◌-◌, ◌++◌, map, drop, OnOk};
ghost use Rattle.sync_model.specs.Trimmed.{entry_records};
ghost use Rattle.sync_exchange.specs.Profile.{the_profile};
ghost use Rattle.sync_exchange.specs.Seen.{server_seen};
ghost use Rattle.server_memory.specs.Kept.{parts};
ghost use Rattle.sync_server.specs.Serving.{kept_of};

use crate::bodies::body_of;
use crate::lists::put;
use std::alloc::Global;
use sync_base::NoMemory;
use sync_disk::Disk;
use sync_records::ServerRecord;
use sync_server::Server;

/// Puts the entries from a version on.
pub(crate) fn put_entries<D: Disk>(
    alloc: Global,
    records: &mut Vec<ServerRecord>,
    server: &Server<D>,
    floor: u32,
) -> Result<(), NoMemory>
    requires above { (parts (kept_of server.now)).floor ≤ floor }
    ensures { OnOk result (map server_seen records.new.items ≡ map server_seen records.old.items ++ entry_records the_profile (drop (floor - (parts (kept_of server.now)).floor) (parts (kept_of server.now)).entries) (drop (floor - (parts (kept_of server.now)).floor) (parts (kept_of server.now)).bases)) }
{
    for version in floor..server.len() {
        let (Some(entry), Some(base)) = (server.entry(version), server.base_of(version)) else {
            return Ok(());
        };
        let body = body_of(alloc, &entry.changes)?;
        put(
            records,
            ServerRecord::Carried {
                origin: entry.origin,
                number: entry.number,
                base,
                ms: entry.changes.ms(),
                body,
            },
        )?;
    }
    Ok(())
}
