ghost use Rattle.std.specs.Prelude.{◌≡◌, true, IfOk, OnOk, is_some};
ghost use Rattle.std.specs.Option.{option_copied};
ghost use Rattle.std.specs.FinMap as map;
ghost use Rattle.sync_data.specs.Orders.{key_cmp};
ghost use Rattle.sync_base.specs.Maps.{map_with};
ghost use Rattle.sync_base.specs.After.{with_default};
ghost use Rattle.sync_base.specs.Effects.{path_of};
ghost use Rattle.sync_maps.specs.Next.{IsNext};
ghost use Rattle.sync_maps.specs.Seen.{at_key};
ghost use Rattle.sync_cells.specs.Undoing.{done, undone, has_place};
ghost use Rattle.sync_store.specs.Flat.{without_cell};

use super::object::{Object, refused};
use super::rows::Rows;
use std::alloc::Global;
use std::collections::BTreeMap;
use std::marker::Model;
use sync_base::{CellName, Column, Key, Name, NoMemory};
use sync_cells::{CellRefusal, Edit, Former};

/// The objects of all tables, by table and then key.
#[derive(Drop)]
pub(crate) struct Objects {
    alloc: Global,
    tables: BTreeMap<Name, Rows>,
}

impl Model for Objects {
    ghost use Rattle.sync_store.specs.Flat.{Objects, flat};
    ghost use Rattle.sync_store.specs.Codes.{coded_objects};
    ghost use Rattle.std.specs.FinMap as map;

    ghost Value = { Objects };

    ghost coded = { coded_objects };

    ghost view = { λ a. flat (map.from_entries a.tables.entries) };
}

impl Objects {
    /// No objects.
    pub(crate) fn new(alloc: Global) -> Objects
        ensures { result ≡ map.empty }
    {
        let tables = BTreeMap::new(alloc);
        Objects { alloc, tables }
    }

    /// The object of a table and a key.
    pub(crate) fn object(&self, table: &Name, key: &Key) -> Option<&Object>
        ensures { option_copied result ≡ map.get self.now (table.now, key.now) }
    {
        self.tables.get(table)?.object(key)
    }

    /// Puts an object at a table and a key.
    pub(crate) fn insert(&mut self, table: Name, key: Key, object: Object) -> Result<(), NoMemory>
        ensures { OnOk result (self.new ≡ map.insert self.old (table, key) object) }
    {
        if let Some(rows) = self.tables.get_mut(&table) {
            return rows.insert(key, object);
        }
        let mut rows = Rows::new(self.alloc);
        rows.insert(key, object)?;
        if self.tables.insert(table, rows).is_err() {
            return Err(NoMemory);
        }
        Ok(())
    }

    /// Takes the object of a table and a key out.
    pub(crate) fn remove(&mut self, table: &Name, key: &Key) -> Option<Object>
        ensures object { result ≡ map.get self.old (table.now, key.now) }
        ensures others { self.new ≡ map.remove self.old (table.now, key.now) }
    {
        let Some(rows) = self.tables.get_mut(table) else {
            return None;
        };
        rows.remove(key)
    }

    /// Edits a cell, and hands back what brings it back.
    pub(crate) fn edit(&mut self, cell: &CellName, edit: Edit) -> Result<Former, CellRefusal>
        ensures done { OnOk result (self.new ≡ at_key (path_of cell.now).0 (at_key cell.now.column (done edit)) self.old) }
        ensures former { IfOk result (λ former. at_key (path_of cell.now).0 (at_key cell.now.column (undone edit former)) self.new ≡ self.old) }
        ensures placed { OnOk result (has_place edit ≡ true) }
    {
        let Some(rows) = self.tables.get_mut(&cell.table) else {
            return refused(edit);
        };
        rows.edit(&cell.key, &cell.column, edit)
    }

    /// Gives each object of a table the default cell of a new column.
    pub(crate) fn add_column(
        &mut self,
        table: &Name,
        column: &Name,
        def: &Column,
    ) -> Result<(), NoMemory>
        ensures { OnOk result (self.new ≡ map_with (with_default table.now column.now def.now) self.old) }
    {
        let Some(rows) = self.tables.get_mut(table) else {
            return Ok(());
        };
        rows.add_column(column, def)
    }

    /// Takes the cell of a column out of each object of a table.
    pub(crate) fn remove_column(&mut self, table: &Name, column: &Name) -> Result<(), NoMemory>
        ensures { OnOk result (self.new ≡ map_with (without_cell table.now column.now) self.old) }
    {
        let Some(rows) = self.tables.get_mut(table) else {
            return Ok(());
        };
        rows.remove_column(column)
    }

    /// Takes all objects out.
    pub(crate) fn clear(&mut self)
        ensures { self.new ≡ map.empty }
    {
        self.tables.clear();
    }

    /// The least key of a table's objects above `after`, or the least of all.
    pub(crate) fn next_key(&self, table: &Name, after: Option<&Key>) -> Option<&Key>
        ensures { IsNext key_cmp (λ k. is_some (map.get self.now (table.now, k))) (option_copied after.entry) (option_copied result) }
    {
        self.tables.get(table)?.next_key(after)
    }
}
