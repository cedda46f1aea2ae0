ghost use Rattle.std.specs.Prelude.{◌≡◌, ◌++◌, ◌∷◌, OnOk};
ghost use Rattle.json.specs.Token.{key as key_token};
ghost use Rattle.serde_json.specs.Data.{object};
ghost use Rattle.sync_base.specs.States.{cell_at};
ghost use Rattle.sync_dump.specs.Dump.{data_of_field, cells_of};
ghost use Rattle.sync_dump.specs.Tokens.{tokens_of, Adds};
ghost use Rattle.sync_dump.specs.Walks.{columns_in};

use super::cells::put_cell;
use json::Writer;
use std::alloc::{AllocError, Global};
use sync_base::{Key, Name};
use sync_store::Store;

/// Writes the cells of an object, a field for each column.
pub(crate) fn put_cells(
    alloc: Global,
    writer: &mut Writer,
    store: &Store,
    table: &Name,
    key: &Key,
) -> Result<(), AllocError>
    ensures { OnOk result (Adds writer.old writer.new (tokens_of (object (cells_of store.now (table.now, key.now) (columns_in store.now.tables table.now))))) }
{
    writer.begin_object()?;
    let mut column = store.next_column(table, None);
    while let Some(name) = column {
        put_field(alloc, writer, store, table, key, name)?;
        column = store.next_column(table, Some(name));
    }
    writer.end_object()
}

fn put_field(
    alloc: Global,
    writer: &mut Writer,
    store: &Store,
    table: &Name,
    key: &Key,
    column: &Name,
) -> Result<(), AllocError>
    ensures { OnOk result (Adds writer.old writer.new (key_token column.now ∷ tokens_of (data_of_field store.now (cell_at store.now (table.now, key.now) column.now)))) }
{
    writer.key(column.text())?;
    match store.cell(table, key, column) {
        Some(cell) => put_cell(alloc, writer, store, cell),
        None => writer.null(),
    }
}
