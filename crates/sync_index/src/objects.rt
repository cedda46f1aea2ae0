ghost use Rattle.std.specs.Prelude.{◌≡◌, OnOk, OnErr};
ghost use Rattle.std.specs.FinMap as map;
ghost use Rattle.sync_index.specs.Touched.{holds, with_name};

use super::keys::Keys;
use std::alloc::Global;
use std::collections::BTreeMap;
use std::marker::Model;
use sync_base::{Key, Name, NoMemory};

/// A set of objects: the keys, by table.
#[derive(Drop)]
pub(crate) struct Objects {
    alloc: Global,
    tables: BTreeMap<Name, Keys>,
}

impl Model for Objects {
    ghost use Rattle.std.specs.FinMap as map;
    ghost use Rattle.std.specs.FinSet as set;
    ghost use Rattle.sync_data.specs.Orders.{name_cmp, key_cmp};
    ghost use Rattle.sync_index.specs.Codes.{coded_objects};

    ghost Value = { map.FinMap name_cmp (set.FinSet key_cmp) };

    ghost coded = { coded_objects };

    ghost view = { λ a. map.from_entries a.tables.entries };
}

impl Objects {
    /// No objects.
    pub(crate) fn new(alloc: Global) -> Objects
        ensures { result ≡ map.empty }
    {
        Objects {
            alloc,
            tables: BTreeMap::new(alloc),
        }
    }

    /// Whether the object is there. It takes no memory.
    pub(crate) fn contains(&self, table: &Name, key: &Key) -> bool
        ensures { result ≡ holds self.now (table.now, key.now) }
    {
        match self.tables.get(table) {
            Some(keys) => keys.contains(key),
            None => false,
        }
    }

    /// Puts an object there.
    pub(crate) fn put(&mut self, table: &Name, key: Key) -> Result<(), NoMemory>
        ensures ok { OnOk result (self.new ≡ with_name (table.now, key) self.old) }
        ensures unchanged { OnErr result (self.new ≡ self.old) }
    {
        if let Some(keys) = self.tables.get_mut(table) {
            return keys.put(key);
        }
        let mut keys = Keys::new(self.alloc);
        keys.put(key)?;
        if self.tables.insert(table.copy()?, keys).is_err() {
            return Err(NoMemory);
        }
        Ok(())
    }
}
