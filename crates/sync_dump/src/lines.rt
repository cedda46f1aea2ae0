ghost use Rattle.std.specs.Prelude.{◌≡◌, [], ◌∷◌, ◌++◌, IfOk, OnOk, Some, None, option_map};
ghost use Rattle.json.specs.Token.{Token, key as key_token};
ghost use Rattle.json.specs.Tree.{members_tokens};
ghost use Rattle.serde_json.specs.Data.{Data, object};
ghost use Rattle.serde_json.specs.Written.{members_outline};
ghost use Rattle.sync_value_text.specs.Printed.{target_name, target_field};
ghost use Rattle.sync_dump.specs.Dump.{line, data_of_table, data_of_column, data_of_object};
ghost use Rattle.sync_dump.specs.Tokens.{tokens_of, Adds};
ghost use Rattle.sync_dump.specs.Walks.{columns_in};

use super::fields::put_cells;
use super::values::{put_flag_field, put_key, put_text_field};
use super::words::{key_word, kind_word, shape_word, target_of};
use json::Writer;
use std::alloc::{AllocError, Global};
use sync_base::{Column, Key, KeyKind, Kind, Name};
use sync_store::Store;

/// Appends the line of a table.
pub(crate) fn table_line(out: Vec<u8>, table: &Name, kind: KeyKind) -> Result<Vec<u8>, AllocError>
    ensures { IfOk result (λ new. new.items ≡ out.items ++ line (data_of_table table.now kind)) }
{
    let mut writer = Writer::new(out);
    put_table(&mut writer, table, kind)?;
    end_line(writer)
}

/// Appends the line of a column.
pub(crate) fn column_line(
    out: Vec<u8>,
    table: &Name,
    name: &Name,
    column: &Column,
) -> Result<Vec<u8>, AllocError>
    ensures { IfOk result (λ new. new.items ≡ out.items ++ line (data_of_column table.now name.now column.now)) }
{
    let mut writer = Writer::new(out);
    put_column(&mut writer, table, name, column)?;
    end_line(writer)
}

/// Appends the line of an object.
pub(crate) fn object_line(
    alloc: Global,
    out: Vec<u8>,
    store: &Store,
    table: &Name,
    key: &Key,
) -> Result<Vec<u8>, AllocError>
    ensures { IfOk result (λ new. new.items ≡ out.items ++ line (data_of_object store.now (columns_in store.now.tables table.now) (table.now, key.now))) }
{
    let mut writer = Writer::new(out);
    put_object(alloc, &mut writer, store, table, key)?;
    end_line(writer)
}

fn end_line(writer: Writer) -> Result<Vec<u8>, AllocError>
    ensures { (d : Data) → writer.tokens ≡ tokens_of d → IfOk result (λ out. out.items ≡ writer.before ++ line d) }
{
    let mut out = writer.into_inner();
    out.push(b'\n')?;
    Ok(out)
}

fn put_table(writer: &mut Writer, table: &Name, kind: KeyKind) -> Result<(), AllocError>
    ensures { OnOk result (Adds writer.old writer.new (tokens_of (data_of_table table.now kind))) }
{
    writer.begin_object()?;
    put_text_field(writer, "key", key_word(kind))?;
    put_text_field(writer, "table", table.text())?;
    writer.end_object()
}

fn put_column(
    writer: &mut Writer,
    table: &Name,
    name: &Name,
    column: &Column,
) -> Result<(), AllocError>
    ensures { OnOk result (Adds writer.old writer.new (tokens_of (data_of_column table.now name.now column.now))) }
{
    writer.begin_object()?;
    put_text_field(writer, "column", name.text())?;
    put_text_field(writer, "kind", kind_word(&column.kind))?;
    put_flag_field(writer, "nullable", column.nullable)?;
    put_text_field(writer, "shape", shape_word(column.shape))?;
    put_text_field(writer, "table", table.text())?;
    put_target(writer, &column.kind)
}

/// Writes the target of a link, and ends the object.
fn put_target(writer: &mut Writer, kind: &Kind) -> Result<(), AllocError>
    ensures { OnOk result (Adds writer.old writer.new (members_tokens (members_outline (target_field (target_name kind.now))))) }
{
    if let Some(target) = target_of(kind) {
        put_text_field(writer, "target", target.text())?;
    }
    writer.end_object()
}

fn put_object(
    alloc: Global,
    writer: &mut Writer,
    store: &Store,
    table: &Name,
    key: &Key,
) -> Result<(), AllocError>
    ensures { OnOk result (Adds writer.old writer.new (tokens_of (data_of_object store.now (columns_in store.now.tables table.now) (table.now, key.now)))) }
{
    writer.begin_object()?;
    writer.key("cells")?;
    put_cells(alloc, writer, store, table, key)?;
    writer.key("key")?;
    put_key(writer, key)?;
    put_text_field(writer, "table", table.text())?;
    writer.end_object()
}
