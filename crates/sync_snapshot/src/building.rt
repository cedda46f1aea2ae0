ghost use Rattle.std.specs.Prelude.{◌≡◌, map, flat_map, IfOk, OnOk};
ghost use Rattle.std.specs.FinMap as fin;
ghost use Rattle.snapshot_law.specs.Build.{build};
ghost use Rattle.sync_exchange.specs.Profile.{fits_changeset};
ghost use Rattle.sync_snapshot.specs.Lists.{table_instrs};
ghost use Rattle.sync_snapshot.specs.Parts.{untimed, Takes};

use super::cutter::Cutter;
use super::objects::object_instrs;
use super::schema::schema_instrs;
use std::alloc::Global;
use sync_base::{Changeset, Name, NoMemory};
use sync_store::Store;

/// The state of a store as changesets that lead to it from the store without tables: the tables, their columns, and each
/// object with what isn't the default of its cells, all in order of names and keys. Each changeset has time 0 and is the
/// longest beginning of the rest within the limits of a changeset.
pub fn build(alloc: Global, objects: &Store) -> Result<Vec<Changeset>, NoMemory>
    ensures parts { IfOk result (λ parts. parts.items ≡ map untimed (build fits_changeset objects.now)) }
{
    objects.keeps_its_limits();
    let mut cutter = Cutter::new(alloc);
    cutter.push_all(schema_instrs(alloc, objects)?)?;
    put_objects(alloc, &mut cutter, objects)?;
    cutter.finish()
}

/// Puts the objects of each table in turn.
fn put_objects(alloc: Global, cutter: &mut Cutter, objects: &Store) -> Result<(), NoMemory>
    ensures { OnOk result (Takes cutter.old cutter.new (flat_map (λ e. table_instrs objects.now e.0) (fin.entries objects.now.tables))) }
{
    let mut table = objects.next_table(None);
    while let Some(name) = table {
        put_table_objects(alloc, cutter, objects, name)?;
        table = objects.next_table(Some(name));
    }
    Ok(())
}

/// Puts the objects of a table in order of keys.
fn put_table_objects(
    alloc: Global,
    cutter: &mut Cutter,
    objects: &Store,
    table: &Name,
) -> Result<(), NoMemory>
    ensures { OnOk result (Takes cutter.old cutter.new (table_instrs objects.now table.now)) }
{
    let mut key = objects.next_key(table, None);
    while let Some(found) = key {
        let made = object_instrs(alloc, objects, table, found)?;
        cutter.push_all(made)?;
        key = objects.next_key(table, Some(found));
    }
    Ok(())
}
