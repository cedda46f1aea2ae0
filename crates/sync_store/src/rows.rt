ghost use Rattle.std.specs.Prelude.{◌≡◌, true, IfOk, OnOk, is_some};
ghost use Rattle.std.specs.Option.{option_copied};
ghost use Rattle.std.specs.FinMap as map;
ghost use Rattle.sync_data.specs.Orders.{key_cmp};
ghost use Rattle.sync_maps.specs.Next.{IsNext};
ghost use Rattle.sync_maps.specs.Seen.{at_key};
ghost use Rattle.sync_cells.specs.Undoing.{done, undone, has_place};
ghost use Rattle.sync_store.specs.Flat.{each_row, with_cell, cut_cell};

use super::object::{Object, refused};
use std::alloc::Global;
use std::collections::BTreeMap;
use std::marker::Model;
use std::mem;
use sync_base::{Column, Key, Name, NoMemory};
use sync_cells::{CellRefusal, Edit, Former};
use sync_maps::next_key;

/// The objects of a table, by key.
#[derive(Drop)]
pub(crate) struct Rows {
    alloc: Global,
    objects: BTreeMap<Key, Object>,
}

impl Model for Rows {
    ghost use Rattle.sync_store.specs.Flat.{Rows};
    ghost use Rattle.sync_store.specs.Codes.{coded_rows};
    ghost use Rattle.std.specs.FinMap as map;

    ghost Value = { Rows };

    ghost coded = { coded_rows };

    ghost view = { λ a. map.from_entries a.objects.entries };
}

impl Rows {
    /// No objects.
    pub(crate) fn new(alloc: Global) -> Rows
        ensures { result ≡ map.empty }
    {
        Rows {
            alloc,
            objects: BTreeMap::new(alloc),
        }
    }

    /// The object of a key.
    pub(crate) fn object(&self, key: &Key) -> Option<&Object>
        ensures { option_copied result ≡ map.get self.now key.now }
    {
        self.objects.get(key)
    }

    /// Puts an object at a key.
    pub(crate) fn insert(&mut self, key: Key, object: Object) -> Result<(), NoMemory>
        ensures { OnOk result (self.new ≡ map.insert self.old key object) }
    {
        if self.objects.insert(key, object).is_err() {
            return Err(NoMemory);
        }
        Ok(())
    }

    /// Takes the object of a key out.
    pub(crate) fn remove(&mut self, key: &Key) -> Option<Object>
        ensures object { result ≡ map.get self.old key.now }
        ensures others { self.new ≡ map.remove self.old key.now }
    {
        self.objects.remove(key)
    }

    /// Edits a cell, and hands back what brings it back.
    pub(crate) fn edit(
        &mut self,
        key: &Key,
        column: &Name,
        edit: Edit,
    ) -> Result<Former, CellRefusal>
        ensures done { OnOk result (self.new ≡ at_key key.now (at_key column.now (done edit)) self.old) }
        ensures former { IfOk result (λ former. at_key key.now (at_key column.now (undone edit former)) self.new ≡ self.old) }
        ensures placed { OnOk result (has_place edit ≡ true) }
    {
        let Some(object) = self.objects.get_mut(key) else {
            return refused(edit);
        };
        object.edit(column, edit)
    }

    /// Gives each object the default cell of a new column.
    pub(crate) fn add_column(&mut self, column: &Name, def: &Column) -> Result<(), NoMemory>
        ensures { OnOk result (self.new ≡ each_row (with_cell column.now def.now) self.old) }
    {
        let alloc = self.alloc;
        let empty = BTreeMap::new(alloc);
        let objects = mem::replace(&mut self.objects, empty);
        for (key, object) in objects {
            let mut object = object;
            object.add_default(alloc, column, def)?;
            self.insert(key, object)?;
        }
        Ok(())
    }

    /// Takes the cell of a column out of each object.
    pub(crate) fn remove_column(&mut self, column: &Name) -> Result<(), NoMemory>
        ensures { OnOk result (self.new ≡ each_row (cut_cell column.now) self.old) }
    {
        let empty = BTreeMap::new(self.alloc);
        let objects = mem::replace(&mut self.objects, empty);
        for (key, object) in objects {
            let mut object = object;
            object.remove(column);
            self.insert(key, object)?;
        }
        Ok(())
    }

    /// The least key above `after`, or the least of all.
    pub(crate) fn next_key(&self, after: Option<&Key>) -> Option<&Key>
        ensures { IsNext key_cmp (λ k. is_some (map.get self.now k)) (option_copied after.entry) (option_copied result) }
    {
        next_key(&self.objects, after)
    }
}
