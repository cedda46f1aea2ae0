ghost use Rattle.std.specs.Prelude.{◌≡◌, ◌-◌, ◌++◌, ◌∷◌, [], List, ℕ, map, length, if◌then◌else◌, IfOk, OnOk};
ghost use Rattle.sync_data.specs.declared.instr.Instr.{Instr};
ghost use Rattle.sync_model.specs.Clients as model;
ghost use Rattle.sync_exchange.specs.Profile.{the_profile};
ghost use Rattle.sync_exchange.specs.Seen.{client_seen};
ghost use Rattle.sync_client.specs.Clients.{IsClientOf};
ghost use Rattle.sync_rebase.specs.Stretches.{IsAt};
ghost use Rattle.shrink_law.specs.Short.{count_records, form_records, has_begun, id_records, ident_records, short_records, state_records, tables_records, waits};

use crate::bodies::{body_of, part_bodies};
use crate::lists::put;
use crate::starting::put_parts;
use std::alloc::Global;
use sync_base::NoMemory;
use sync_client::Client;
use sync_disk::Disk;
use sync_rebase::PendingList;
use sync_records::{ClientRecord, Named};

/// The records of the short file that may stand in place of a client's file: what its calls read, and nothing of what it
/// took from the history.
pub fn shortened<D: Disk>(alloc: Global, client: &Client<D>) -> Result<Vec<ClientRecord>, NoMemory>
    ensures { (of : List model.ClientRecord) → IsClientOf of client.now → IfOk result (λ records. map client_seen records.items ≡ short_records the_profile (model.client_of the_profile of)) }
{
    let mut records = Vec::new(alloc);
    put_id(&mut records, client)?;
    put_form(&mut records, client)?;
    if !client.has_begun() {
        put_tables(&mut records, client)?;
        put_ident(&mut records, client)?;
        return Ok(records);
    }
    put_counts(&mut records, client)?;
    put_tables(&mut records, client)?;
    put_waits(alloc, &mut records, client.waiting())?;
    put_objects(alloc, &mut records, client)?;
    put_ident(&mut records, client)?;
    Ok(records)
}

/// The client's uuid, where it has one.
fn put_id<D: Disk>(records: &mut Vec<ClientRecord>, client: &Client<D>) -> Result<(), NoMemory>
    ensures { (of : List model.ClientRecord) → IsClientOf of client.now → OnOk result (map client_seen records.new.items ≡ map client_seen records.old.items ++ id_records (model.client_of the_profile of).id) }
{
    match client.id() {
        Some(id) => put(records, ClientRecord::Born { id }),
        None => Ok(()),
    }
}

/// Form 2, where its file is in it.
fn put_form<D: Disk>(records: &mut Vec<ClientRecord>, client: &Client<D>) -> Result<(), NoMemory>
    ensures { (of : List model.ClientRecord) → IsClientOf of client.now → OnOk result (map client_seen records.new.items ≡ map client_seen records.old.items ++ form_records (model.client_of the_profile of).second) }
{
    if client.is_second() {
        put(records, ClientRecord::Form)
    } else {
        Ok(())
    }
}

/// How many of its transactions it took, and how many are unsent.
fn put_counts<D: Disk>(records: &mut Vec<ClientRecord>, client: &Client<D>) -> Result<(), NoMemory>
    ensures { (of : List model.ClientRecord) → IsClientOf of client.now → OnOk result (map client_seen records.new.items ≡ map client_seen records.old.items ++ count_records the_profile (model.client_of the_profile of)) }
{
    let waiting = client.unsent();
    let number = client.last().saturating_sub(waiting);
    put(records, ClientRecord::Resumed { number, waiting })
}

/// Its tables, where it named some.
fn put_tables<D: Disk>(records: &mut Vec<ClientRecord>, client: &Client<D>) -> Result<(), NoMemory>
    ensures { (of : List model.ClientRecord) → IsClientOf of client.now → OnOk result (map client_seen records.new.items ≡ map client_seen records.old.items ++ tables_records (model.client_of the_profile of).subset) }
{
    match client.tables()? {
        Some(tables) => put(records, ClientRecord::Subset { tables }),
        None => Ok(()),
    }
}

/// The unsent changesets, each as it was made and as it was carried since.
fn put_waits(
    alloc: Global,
    records: &mut Vec<ClientRecord>,
    waiting: &PendingList,
) -> Result<(), NoMemory>
    ensures { OnOk result (map client_seen records.new.items ≡ map client_seen records.old.items ++ map (waits the_profile) waiting.now) }
{
    for place in 0..waiting.len() {
        put_wait(alloc, records, waiting, place)?;
    }
    Ok(())
}

/// The one at that place.
fn put_wait(
    alloc: Global,
    records: &mut Vec<ClientRecord>,
    waiting: &PendingList,
    place: usize,
) -> Result<(), NoMemory>
    ensures { OnOk result ((u : model.Unsent Instr) → IsAt place waiting.now u → map client_seen records.new.items ≡ map client_seen records.old.items ++ waits the_profile u ∷ []) }
{
    let Some(original) = waiting.get(place) else {
        return Err(NoMemory);
    };
    let Some(current) = waiting.current(place) else {
        return Err(NoMemory);
    };
    let body = body_of(alloc, original.changes())?;
    let current = body_of(alloc, &current?)?;
    let (number, base) = (original.number(), original.base());
    let ms = original.changes().ms();
    put(
        records,
        ClientRecord::Waits {
            number,
            base,
            ms,
            body,
            current,
        },
    )
}

/// The parts of its objects, and its cursor.
fn put_objects<D: Disk>(
    alloc: Global,
    records: &mut Vec<ClientRecord>,
    client: &Client<D>,
) -> Result<(), NoMemory>
    ensures { (of : List model.ClientRecord) → IsClientOf of client.now → OnOk result (map client_seen records.new.items ≡ map client_seen records.old.items ++ (map (λ is. model.Part (the_profile.spell is)) (the_profile.build (model.client_of the_profile of).objects) ++ model.Floor (model.client_of the_profile of).cursor ∷ [])) }
{
    let bodies = part_bodies(alloc, client.objects())?;
    put_parts(records, bodies)?;
    let version = client.cursor();
    put(records, ClientRecord::Floor { version })
}

/// Its ident, where it has one.
fn put_ident<D: Disk>(records: &mut Vec<ClientRecord>, client: &Client<D>) -> Result<(), NoMemory>
    ensures { (of : List model.ClientRecord) → IsClientOf of client.now → OnOk result (map client_seen records.new.items ≡ map client_seen records.old.items ++ ident_records (model.client_of the_profile of).ident) }
{
    let ident = client.ident();
    if ident == 0 {
        return Ok(());
    }
    put(records, ClientRecord::Named(Named::new(ident)))
}
