ghost use Rattle.std.specs.Prelude.{◌≡◌, ◌≤◌, ◌-◌, ◌++◌, [], ℕ, map, drop, if◌then◌else◌, max, Some, OnOk};
ghost use Rattle.sync_model.specs.Trimmed.{crossed_record, crossed_of, crossed_records};
ghost use Rattle.sync_data.specs.declared.instr.Instr.{Instr};
ghost use Rattle.sync_model.specs.Parts.{Given, at_ident};
ghost use Rattle.sync_model.specs.Trims.{is_live, pairs_from};
ghost use Rattle.sync_exchange.specs.Profile.{the_profile};
ghost use Rattle.sync_exchange.specs.Seen.{server_seen};
ghost use Rattle.server_memory.specs.Kept.{parts};
ghost use Rattle.server_memory.specs.Readers.{item_from};
ghost use Rattle.sync_server.specs.Serving.{kept_of};
ghost use Rattle.sync_recip.specs.Lists.{entry_of};

use crate::bodies::body_of;
use crate::lists::put;
use std::alloc::Global;
use sync_base::{Entry, Ident, NoMemory};
use sync_disk::Disk;
use sync_recip::Recip;
use sync_records::ServerRecord;
use sync_server::Server;

/// Puts, of each ident that isn't retired, the entries from a floor on that its next changes cross as others than they
/// stand in the history.
pub(crate) fn put_past<D: Disk>(
    alloc: Global,
    records: &mut Vec<ServerRecord>,
    server: &Server<D>,
    floor: u32,
) -> Result<(), NoMemory>
    requires above { (parts (kept_of server.now)).floor ≤ floor }
    ensures { OnOk result (map server_seen records.new.items ≡ map server_seen records.old.items ++ crossed_records the_profile 1 floor (drop (floor - (parts (kept_of server.now)).floor) (parts (kept_of server.now)).entries) (parts (kept_of server.now)).idents) }
{
    for place in 0..server.idents() {
        put_past_by(alloc, records, server, place + 1, floor)?;
    }
    Ok(())
}

/// The same of one ident, whose next changes have no base before its last one.
fn put_past_by<D: Disk>(
    alloc: Global,
    records: &mut Vec<ServerRecord>,
    server: &Server<D>,
    ident: Ident,
    floor: u32,
) -> Result<(), NoMemory>
    requires above { (parts (kept_of server.now)).floor ≤ floor }
    ensures { OnOk result ((g : Given Instr) → at_ident ident (parts (kept_of server.now)).idents ≡ Some g → map server_seen records.new.items ≡ map server_seen records.old.items ++ (if is_live g then crossed_of the_profile ident floor (drop (floor - (parts (kept_of server.now)).floor) (parts (kept_of server.now)).entries) (pairs_from (max floor g.last) g.reciprocal) else [])) }
{
    let Some(list) = server.reciprocal(ident) else {
        return Ok(());
    };
    let Some(counts) = server.counts(ident) else {
        return Ok(());
    };
    let from = floor.max(counts.base);
    put_past_of(alloc, records, server, ident, from, list)?;
    Ok(())
}

/// The pairs of a reciprocal list from a version on.
fn put_past_of<D: Disk>(
    alloc: Global,
    records: &mut Vec<ServerRecord>,
    server: &Server<D>,
    ident: Ident,
    from: u32,
    list: &Recip,
) -> Result<(), NoMemory>
    ensures { OnOk result ((floor : ℕ) → (parts (kept_of server.now)).floor ≤ floor → floor ≤ from → map server_seen records.new.items ≡ map server_seen records.old.items ++ crossed_of the_profile ident floor (drop (floor - (parts (kept_of server.now)).floor) (parts (kept_of server.now)).entries) (pairs_from from list.now)) }
{
    for place in 0..list.len() {
        let found = list.get(place)?;
        let Some((version, crossed)) = found else {
            continue;
        };
        if version < from {
            continue;
        }
        put_crossed(alloc, records, server, ident, version, &crossed)?;
    }
    Ok(())
}

/// Puts an entry as an ident's changes crossed it, where that changed it.
fn put_crossed<D: Disk>(
    alloc: Global,
    records: &mut Vec<ServerRecord>,
    server: &Server<D>,
    ident: Ident,
    version: u32,
    crossed: &Entry,
) -> Result<(), NoMemory>
    ensures { OnOk result (map server_seen records.new.items ≡ map server_seen records.old.items ++ crossed_record the_profile ident (version, entry_of crossed.now) (item_from (parts (kept_of server.now)).floor (parts (kept_of server.now)).entries version)) }
{
    let Some(entry) = server.entry(version) else {
        return Ok(());
    };
    let body = body_of(alloc, &crossed.changes)?;
    if body == body_of(alloc, &entry.changes)? {
        return Ok(());
    }
    put(
        records,
        ServerRecord::Past {
            ident,
            version,
            ms: crossed.changes.ms(),
            body,
        },
    )
}
