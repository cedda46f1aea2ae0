ghost use Rattle.std.specs.Prelude.{◌≡◌, IfOk, OnOk, OnErr, is_some};
ghost use Rattle.std.specs.Option.{option_copied, option_map};
ghost use Rattle.std.specs.FinMap as map;
ghost use Rattle.sync_data.specs.Orders.{name_cmp};
ghost use Rattle.sync_base.specs.Effects.{NewTable, NewColumn};
ghost use Rattle.sync_base.specs.States.{column_in, is_of, is_key_of, fits, has_target};
ghost use Rattle.sync_base.specs.After.{tables_after};
ghost use Rattle.sync_base.specs.Checks.{break_of};
ghost use Rattle.sync_maps.specs.Next.{IsNext};
ghost use Rattle.sync_schema.specs.Steps.{IsRefusedBy, bare, tables_without_column};

use super::kinds::{is_of_kind, is_sound};
use super::refusal::SchemaRefusal;
use super::table::TableDef;
use std::alloc::Global;
use std::collections::BTreeMap;
use std::marker::Model;
use sync_base::{
    AddColumn, AddTable, Column, Key, KeyKind, Kind, Name, NoMemory, Shape, Value, same_name,
};
use sync_maps::next_key;

/// The tables, each with the kind of its keys and its columns.
#[derive(Drop)]
pub struct Schema {
    alloc: Global,
    tables: BTreeMap<Name, TableDef>,
}

impl Model for Schema {
    ghost use Rattle.sync_base.specs.States.{Tables};
    ghost use Rattle.sync_schema.specs.Codes.{coded_tables};
    ghost use Rattle.std.specs.FinMap as map;

    ghost Value = { Tables };

    ghost coded = { coded_tables };

    ghost view = { λ a. map.from_entries a.tables.entries };
}

impl Schema {
    /// The schema without tables.
    pub fn new(alloc: Global) -> Result<Schema, NoMemory>
        ensures empty { result ≡ Ok map.empty }
    {
        Ok(Schema {
            alloc,
            tables: BTreeMap::new(alloc),
        })
    }

    /// Adds a table without columns. `TableExists` comes exactly where the table is there.
    pub fn add_table(&mut self, add: AddTable) -> Result<(), SchemaRefusal>
        ensures ok { OnOk result (self.new ≡ tables_after (NewTable add.table add.key) self.old) }
        ensures unchanged { OnErr result (self.new ≡ self.old) }
        ensures refused { IsRefusedBy (break_of (bare self.old) (NewTable add.table add.key)) result }
    {
        if self.tables.contains_key(&add.table) {
            return Err(SchemaRefusal::TableExists);
        }
        let table = TableDef::new(self.alloc, add.key);
        if self.tables.insert(add.table, table).is_err() {
            return Err(SchemaRefusal::NoMemory);
        }
        Ok(())
    }

    /// Adds a column to a table. In this order: `NoTable` exactly where the table is absent; `ColumnExists` exactly where
    /// it has that column; `BadColumn` exactly where a link of shape One isn't nullable or a link of another shape is;
    /// `NoTable` exactly where a link's target is absent.
    pub fn add_column(&mut self, add: AddColumn) -> Result<(), SchemaRefusal>
        ensures ok { OnOk result (self.new ≡ tables_after (NewColumn add.table add.column add.def) self.old) }
        ensures unchanged { OnErr result (self.new ≡ self.old) }
        ensures refused { IsRefusedBy (break_of (bare self.old) (NewColumn add.table add.column add.def)) result }
    {
        let AddColumn { table, column, def } = add;
        if self.table(&table).is_none() {
            return Err(SchemaRefusal::NoTable);
        }
        if self.column(&table, &column).is_some() {
            return Err(SchemaRefusal::ColumnExists);
        }
        if !is_sound(&def) {
            return Err(SchemaRefusal::BadColumn);
        }
        if !self.has_target(&def.kind) {
            return Err(SchemaRefusal::NoTable);
        }
        if self.put_column(&table, column, def).is_err() {
            return Err(SchemaRefusal::NoMemory);
        }
        Ok(())
    }

    fn put_column(&mut self, table: &Name, column: Name, def: Column) -> Result<(), NoMemory>
        ensures ok { OnOk result (self.new ≡ tables_after (NewColumn table.now column def) self.old) }
        ensures unchanged { OnErr result (self.new ≡ self.old) }
    {
        let Some(found) = self.tables.get_mut(table) else {
            return Ok(());
        };
        found.add(column, def)
    }

    /// Takes a table out again, with its columns.
    pub fn remove_table(&mut self, table: &Name)
        ensures { self.new ≡ map.remove self.old table.now }
    {
        let _ = self.tables.remove(table);
    }

    /// Takes a column of a table out again.
    pub fn remove_column(&mut self, table: &Name, column: &Name)
        ensures { self.new ≡ tables_without_column table.now column.now self.old }
    {
        let Some(found) = self.tables.get_mut(table) else {
            return;
        };
        found.remove(column);
    }

    /// Takes all tables out.
    pub fn clear(&mut self)
        ensures { self.new ≡ map.empty }
    {
        self.tables.clear();
    }

    /// Whether the value fits the column: null where the column is nullable, another value where its kind is the column's;
    /// a link's table is the target, and its key is of the target's kind. It takes no memory.
    pub fn fits(&self, column: &Column, value: &Value) -> bool
        ensures { result ≡ fits self.now column.now value.now }
    {
        match value {
            Value::Null => column.nullable,
            _ => self.is_of(&column.kind, value),
        }
    }

    fn is_of(&self, kind: &Kind, value: &Value) -> bool
        ensures { result ≡ is_of self.now kind.now value.now }
    {
        match (kind, value) {
            (Kind::Int, Value::Int(_)) => true,
            (Kind::Bool, Value::Bool(_)) => true,
            (Kind::Text, Value::Text(_)) => true,
            (Kind::Bytes, Value::Bytes(_)) => true,
            (Kind::Time, Value::Time(_)) => true,
            (Kind::Uuid, Value::Uuid(_)) => true,
            (Kind::Link(target), Value::Link { table, key }) => {
                same_name(target, table) && self.is_key_of(target, key)
            }
            _ => false,
        }
    }

    /// Whether the table is there and the key is of its kind. It takes no memory.
    pub fn is_key_of(&self, table: &Name, key: &Key) -> bool
        ensures { result ≡ is_key_of self.now table.now key.now }
    {
        match self.tables.get(table) {
            None => false,
            Some(found) => is_of_kind(found.kind(), key),
        }
    }

    /// Whether a link's target is there. It takes no memory.
    pub fn has_target(&self, kind: &Kind) -> bool
        ensures { result ≡ has_target self.now kind.now }
    {
        match kind {
            Kind::Link(target) => self.tables.contains_key(target),
            _ => true,
        }
    }

    /// An equal schema.
    pub fn copy(&self) -> Result<Schema, NoMemory>
        ensures equal { IfOk result (λ copy. copy ≡ self.now) }
    {
        let mut tables = BTreeMap::new(self.alloc);
        for (name, table) in &self.tables {
            if tables.insert(name.copy()?, table.copy()?).is_err() {
                return Err(NoMemory);
            }
        }
        Ok(Schema {
            alloc: self.alloc,
            tables,
        })
    }

    /// The table of a name: the kind of its keys and its columns. It takes no memory.
    pub fn definition(&self, name: &Name) -> Option<&TableDef>
        ensures { option_copied result ≡ map.get self.now name.now }
    {
        self.tables.get(name)
    }

    /// The kind of a table's keys. It takes no memory.
    pub fn table(&self, name: &Name) -> Option<KeyKind>
        ensures { result ≡ option_map (λ t. t.key) (map.get self.now name.now) }
    {
        Some(self.tables.get(name)?.kind())
    }

    /// A column of a table. It takes no memory.
    pub fn column(&self, table: &Name, column: &Name) -> Option<&Column>
        ensures { option_copied result ≡ column_in self.now table.now column.now }
    {
        self.tables.get(table)?.column(column)
    }

    /// The columns of a table by name. It takes no memory.
    pub fn columns(&self, table: &Name) -> Option<&BTreeMap<Name, Column>>
        ensures { option_map (λ m. map.from_entries m.now.entries) result ≡ option_map (λ t. t.columns) (map.get self.now table.now) }
    {
        Some(self.tables.get(table)?.columns())
    }

    /// The least table name above `after`, or the least of all. It takes no memory.
    pub fn next_table(&self, after: Option<&Name>) -> Option<&Name>
        ensures { IsNext name_cmp (λ t. is_some (map.get self.now t)) (option_copied after.entry) (option_copied result) }
    {
        next_key(&self.tables, after)
    }

    /// The least column name of a table above `after`, or the least of all. It takes no memory.
    pub fn next_column(&self, table: &Name, after: Option<&Name>) -> Option<&Name>
        ensures { IsNext name_cmp (λ c. is_some (column_in self.now table.now c)) (option_copied after.entry) (option_copied result) }
    {
        self.tables.get(table)?.next_column(after)
    }
}
