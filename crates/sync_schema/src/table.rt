ghost use Rattle.std.specs.Prelude.{◌≡◌, IfOk, OnOk, OnErr, is_some};
ghost use Rattle.std.specs.Option.{option_copied};
ghost use Rattle.std.specs.FinMap as map;
ghost use Rattle.sync_data.specs.Orders.{name_cmp};
ghost use Rattle.sync_base.specs.After.{with_column};
ghost use Rattle.sync_maps.specs.Next.{IsNext};
ghost use Rattle.sync_schema.specs.Steps.{without_column};

use std::alloc::Global;
use std::collections::BTreeMap;
use std::marker::Model;
use sync_base::{Column, KeyKind, Name, NoMemory};
use sync_maps::next_key;

/// A table: the kind of its keys, and its columns by name.
#[derive(Drop)]
pub struct TableDef {
    alloc: Global,
    kind: KeyKind,
    columns: BTreeMap<Name, Column>,
}

impl Model for TableDef {
    ghost use Rattle.sync_base.specs.States.{Table};
    ghost use Rattle.sync_schema.specs.Codes.{coded_table};
    ghost use Rattle.std.specs.FinMap as map;

    ghost Value = { Table };

    ghost coded = { coded_table };

    ghost view = { λ a. record { key = a.kind; columns = map.from_entries a.columns.entries } };
}

impl TableDef {
    /// A table without columns.
    pub(crate) fn new(alloc: Global, kind: KeyKind) -> TableDef
        ensures { result ≡ record { key = kind; columns = map.empty } }
    {
        TableDef {
            alloc,
            kind,
            columns: BTreeMap::new(alloc),
        }
    }

    /// The kind of its keys. It takes no memory.
    pub fn kind(&self) -> KeyKind
        ensures { result ≡ self.now.key }
    {
        self.kind
    }

    /// The column of that name. It takes no memory.
    pub fn column(&self, name: &Name) -> Option<&Column>
        ensures { option_copied result ≡ map.get self.now.columns name.now }
    {
        self.columns.get(name)
    }

    /// Its columns by name.
    pub(crate) fn columns(&self) -> &BTreeMap<Name, Column>
        ensures { map.from_entries result.now.entries ≡ self.now.columns }
    {
        &self.columns
    }

    /// Puts a column into it.
    pub(crate) fn add(&mut self, name: Name, def: Column) -> Result<(), NoMemory>
        ensures ok { OnOk result (self.new ≡ with_column name def self.old) }
        ensures no_memory { OnErr result (self.new ≡ self.old) }
    {
        if self.columns.insert(name, def).is_err() {
            return Err(NoMemory);
        }
        Ok(())
    }

    /// Takes the column out of it.
    pub(crate) fn remove(&mut self, name: &Name)
        ensures { self.new ≡ without_column name.now self.old }
    {
        let _ = self.columns.remove(name);
    }

    /// An equal table.
    pub(crate) fn copy(&self) -> Result<TableDef, NoMemory>
        ensures equal { IfOk result (λ copy. copy ≡ self.now) }
    {
        let mut columns = BTreeMap::new(self.alloc);
        for (name, def) in &self.columns {
            if columns.insert(name.copy()?, def.copy()?).is_err() {
                return Err(NoMemory);
            }
        }
        Ok(TableDef {
            alloc: self.alloc,
            kind: self.kind,
            columns,
        })
    }

    /// The least column name above `after`, or the least of all.
    pub(crate) fn next_column(&self, after: Option<&Name>) -> Option<&Name>
        ensures { IsNext name_cmp (λ c. is_some (map.get self.now.columns c)) (option_copied after.entry) (option_copied result) }
    {
        next_key(&self.columns, after)
    }
}
