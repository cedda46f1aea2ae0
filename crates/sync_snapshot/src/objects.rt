ghost use Rattle.std.specs.Prelude.{◌≡◌, ◌++◌, [], true, IfOk, OnOk};
ghost use Rattle.std.specs.Option.{option_map_or};
ghost use Rattle.sync_base.specs.States.{has, cell_at};
ghost use Rattle.sync_snapshot.specs.Lists.{cell_instrs, cells_instrs, object_instrs};

use super::cells::put_content;
use super::schema::put;
use std::alloc::Global;
use sync_base::{CellName, CreateObject, Instr, Key, Name, NoMemory};
use sync_store::Store;

/// The instructions that make an object with its cells where its table and columns stand: it is created, and then, column
/// by column in order of names, what isn't the default of its cells is put in.
pub fn object_instrs(
    alloc: Global,
    objects: &Store,
    table: &Name,
    key: &Key,
) -> Result<Vec<Instr>, NoMemory>
    requires there { has objects.now (table.now, key.now) ≡ true }
    ensures made { IfOk result (λ list. list.items ≡ object_instrs objects.now (table.now, key.now)) }
{
    let mut list = Vec::new(alloc);
    let table_name = table.copy()?;
    let key_name = key.copy()?;
    put(
        &mut list,
        Instr::CreateObject(CreateObject {
            table: table_name,
            key: key_name,
        }),
    )?;
    put_cells(alloc, &mut list, objects, table, key)?;
    Ok(list)
}

/// Puts what makes the cells of an object, column by column.
fn put_cells(
    alloc: Global,
    list: &mut Vec<Instr>,
    objects: &Store,
    table: &Name,
    key: &Key,
) -> Result<(), NoMemory>
    requires there { has objects.now (table.now, key.now) ≡ true }
    ensures { OnOk result (list.new.items ≡ list.old.items ++ cells_instrs objects.now (table.now, key.now)) }
{
    objects.keeps_its_limits();
    let mut column = objects.next_column(table, None);
    while let Some(name) = column {
        put_cell(alloc, list, objects, table, key, name)?;
        column = objects.next_column(table, Some(name));
    }
    Ok(())
}

fn put_cell(
    alloc: Global,
    list: &mut Vec<Instr>,
    objects: &Store,
    table: &Name,
    key: &Key,
    column: &Name,
) -> Result<(), NoMemory>
    ensures { OnOk result (list.new.items ≡ list.old.items ++ option_map_or (cell_instrs objects.now (table.now, key.now) column.now) (cell_at objects.now (table.now, key.now) column.now) []) }
{
    let Some(cell) = objects.cell(table, key, column) else {
        return Ok(());
    };
    let Some(def) = objects.schema().column(table, column) else {
        return Ok(());
    };
    let name = CellName {
        table: table.copy()?,
        key: key.copy()?,
        column: column.copy()?,
    };
    put_content(alloc, list, &name, def, cell)
}
