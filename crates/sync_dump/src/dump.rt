ghost use Rattle.std.specs.Prelude.{◌≡◌, [], ◌++◌, IfOk};
ghost use Rattle.std.specs.Option.{option_map_or};
ghost use Rattle.std.specs.FinMap as map;
ghost use Rattle.sync_base.specs.States.{column_in};
ghost use Rattle.sync_dump.specs.Dump.{line, data_of_column, data_of_object, column_lines, object_lines, objects_in, table_lines, dump};
ghost use Rattle.sync_dump.specs.Walks.{columns_in};

use super::lines::{column_line, object_line, table_line};
use std::alloc::{AllocError, Global};
use sync_base::{Key, Name, NoMemory};
use sync_store::Store;

/// The dump of a store: for each table in the order of names its line, that of each of its columns in the order of
/// names, and that of each of its objects in the order of keys (docs/FORMATS.md, "Report and dump").
pub fn dump_lines(alloc: Global, store: &Store) -> Result<Vec<u8>, NoMemory>
    ensures { IfOk result (λ lines. lines.items ≡ dump store.now) }
{
    match put_tables(alloc, Vec::new(alloc), store) {
        Ok(lines) => Ok(lines),
        Err(_) => Err(NoMemory),
    }
}

/// The line of one object, which stands.
pub fn object_text(
    alloc: Global,
    store: &Store,
    table: &Name,
    key: &Key,
) -> Result<Vec<u8>, NoMemory>
    ensures { IfOk result (λ text. text.items ≡ line (data_of_object store.now (columns_in store.now.tables table.now) (table.now, key.now))) }
{
    match object_line(alloc, Vec::new(alloc), store, table, key) {
        Ok(text) => Ok(text),
        Err(_) => Err(NoMemory),
    }
}

fn put_tables(alloc: Global, mut out: Vec<u8>, store: &Store) -> Result<Vec<u8>, AllocError>
    ensures { IfOk result (λ new. new.items ≡ out.items ++ dump store.now) }
{
    let mut table = store.next_table(None);
    while let Some(name) = table {
        out = put_table(alloc, out, store, name)?;
        table = store.next_table(Some(name));
    }
    Ok(out)
}

fn put_table(
    alloc: Global,
    out: Vec<u8>,
    store: &Store,
    table: &Name,
) -> Result<Vec<u8>, AllocError>
    ensures { IfOk result (λ new. new.items ≡ out.items ++ option_map_or (table_lines store.now table.now) (map.get store.now.tables table.now) []) }
{
    match store.schema().table(table) {
        None => Ok(out),
        Some(kind) => {
            let out = table_line(out, table, kind)?;
            let out = put_columns(out, store, table)?;
            put_objects(alloc, out, store, table)
        }
    }
}

fn put_columns(mut out: Vec<u8>, store: &Store, table: &Name) -> Result<Vec<u8>, AllocError>
    ensures { IfOk result (λ new. new.items ≡ out.items ++ column_lines table.now (columns_in store.now.tables table.now)) }
{
    let mut column = store.next_column(table, None);
    while let Some(name) = column {
        out = put_column(out, store, table, name)?;
        column = store.next_column(table, Some(name));
    }
    Ok(out)
}

fn put_column(out: Vec<u8>, store: &Store, table: &Name, name: &Name) -> Result<Vec<u8>, AllocError>
    ensures { IfOk result (λ new. new.items ≡ out.items ++ option_map_or (λ column. line (data_of_column table.now name.now column)) (column_in store.now.tables table.now name.now) []) }
{
    match store.schema().column(table, name) {
        Some(column) => column_line(out, table, name, column),
        None => Ok(out),
    }
}

fn put_objects(
    alloc: Global,
    mut out: Vec<u8>,
    store: &Store,
    table: &Name,
) -> Result<Vec<u8>, AllocError>
    ensures { IfOk result (λ new. new.items ≡ out.items ++ object_lines store.now (columns_in store.now.tables table.now) table.now (objects_in table.now (map.entries store.now.objects))) }
{
    let mut object = store.next_key(table, None);
    while let Some(key) = object {
        out = object_line(alloc, out, store, table, key)?;
        object = store.next_key(table, Some(key));
    }
    Ok(out)
}
