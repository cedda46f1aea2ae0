ghost use Rattle.std.specs.Prelude.{◌≡◌, ◌++◌, ◌∷◌, [], map, flat_map, IfOk, OnOk};
ghost use Rattle.std.specs.Option.{option_map_or};
ghost use Rattle.std.specs.FinMap as fin;
ghost use Rattle.sync_base.specs.Effects.{NewTable, NewColumn, instr_of};
ghost use Rattle.sync_base.specs.States.{column_in};
ghost use Rattle.sync_snapshot.specs.Lists.{columns_instrs, schema_instrs};

use std::alloc::Global;
use sync_base::{AddColumn, AddTable, Instr, Name, NoMemory};
use sync_store::Store;

/// The instructions that add the tables of a store, in order of names, and then the columns of each.
pub fn schema_instrs(alloc: Global, objects: &Store) -> Result<Vec<Instr>, NoMemory>
    ensures made { IfOk result (λ list. list.items ≡ schema_instrs objects.now) }
{
    let mut list = Vec::new(alloc);
    put_tables(&mut list, objects)?;
    put_columns(&mut list, objects)?;
    Ok(list)
}

/// Puts an instruction at the end of a list.
pub(crate) fn put(list: &mut Vec<Instr>, instr: Instr) -> Result<(), NoMemory>
    ensures { OnOk result (list.new.items ≡ list.old.items ++ instr ∷ []) }
{
    match list.push(instr) {
        Ok(()) => Ok(()),
        Err(failed) => {
            drop(failed);
            Err(NoMemory)
        }
    }
}

fn put_tables(list: &mut Vec<Instr>, objects: &Store) -> Result<(), NoMemory>
    ensures { OnOk result (list.new.items ≡ list.old.items ++ flat_map (λ e. instr_of (NewTable e.0 e.1.key) ∷ []) (fin.entries objects.now.tables)) }
{
    let mut table = objects.next_table(None);
    while let Some(name) = table {
        put_table(list, objects, name)?;
        table = objects.next_table(Some(name));
    }
    Ok(())
}

fn put_table(list: &mut Vec<Instr>, objects: &Store, table: &Name) -> Result<(), NoMemory>
    ensures { OnOk result (list.new.items ≡ list.old.items ++ option_map_or (λ found. instr_of (NewTable table.now found.key) ∷ []) (fin.get objects.now.tables table.now) []) }
{
    match objects.schema().table(table) {
        None => Ok(()),
        Some(key) => {
            let table = table.copy()?;
            put(list, Instr::AddTable(AddTable { table, key }))
        }
    }
}

fn put_columns(list: &mut Vec<Instr>, objects: &Store) -> Result<(), NoMemory>
    ensures { OnOk result (list.new.items ≡ list.old.items ++ flat_map (λ e. columns_instrs objects.now.tables e.0) (fin.entries objects.now.tables)) }
{
    let mut table = objects.next_table(None);
    while let Some(name) = table {
        put_table_columns(list, objects, name)?;
        table = objects.next_table(Some(name));
    }
    Ok(())
}

fn put_table_columns(list: &mut Vec<Instr>, objects: &Store, table: &Name) -> Result<(), NoMemory>
    ensures { OnOk result (list.new.items ≡ list.old.items ++ columns_instrs objects.now.tables table.now) }
{
    let mut column = objects.next_column(table, None);
    while let Some(name) = column {
        put_column(list, objects, table, name)?;
        column = objects.next_column(table, Some(name));
    }
    Ok(())
}

fn put_column(
    list: &mut Vec<Instr>,
    objects: &Store,
    table: &Name,
    column: &Name,
) -> Result<(), NoMemory>
    ensures { OnOk result (list.new.items ≡ list.old.items ++ option_map_or (λ def. instr_of (NewColumn table.now column.now def) ∷ []) (column_in objects.now.tables table.now column.now) []) }
{
    match objects.schema().column(table, column) {
        None => Ok(()),
        Some(def) => {
            let table = table.copy()?;
            let column = column.copy()?;
            let def = def.copy()?;
            put(list, Instr::AddColumn(AddColumn { table, column, def }))
        }
    }
}
