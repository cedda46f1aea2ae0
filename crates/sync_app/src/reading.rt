ghost use Rattle.std.specs.Prelude.{◌≡◌, Ok, Err, IfOk, IfErr};
ghost use Rattle.std.specs.FinMap as map;
ghost use Rattle.std.specs.FinSet as set;
ghost use Rattle.sync_base.specs.Effects.{path_of};
ghost use Rattle.sync_app.specs.Reading.{bindings_in, cell_found, elements_in, found, members_in, value_in};

use std::collections::{BTreeMap, BTreeSet};
use sum_list::SumList;
use sync_base::{CellName, KeyText, Value as Held};
use sync_cells::{Cell, Content, Element};
use sync_store::Store;
use thiserror::Error;

/// Why a cell isn't read.
#[derive(Clone, Copy, Debug, PartialEq, Eq, Error)]
pub enum Unread {
    /// There is no such table.
    #[error("there is no such table")]
    NoTable,
    /// The table has no object with that key.
    #[error("the table has no object with that key")]
    NoObject,
    /// The table has no such column.
    #[error("the table has no such column")]
    NoColumn,
    /// The cell holds something else: one value, a list, a set or a dictionary.
    #[error("the cell is of another shape")]
    WrongShape,
}

/// A cell. It takes no memory.
pub fn cell_of<'a>(objects: &'a Store, cell: &CellName) -> Result<&'a Cell, Unread>
    ensures cell { IfOk result (λ found. cell_found objects.now (path_of cell.now) ≡ Ok found.now) }
    ensures refused { IfErr result (λ why. cell_found objects.now (path_of cell.now) ≡ Err why) }
{
    if objects.schema().table(&cell.table).is_none() {
        return Err(Unread::NoTable);
    }
    if !objects.has(&cell.table, &cell.key) {
        return Err(Unread::NoObject);
    }
    match objects.cell(&cell.table, &cell.key, &cell.column) {
        Some(found) => Ok(found),
        None => Err(Unread::NoColumn),
    }
}

/// The value of a cell of one value. It takes no memory.
pub fn value_of<'a>(objects: &'a Store, cell: &CellName) -> Result<&'a Held, Unread>
    ensures value { IfOk result (λ value. found value_in objects.now (path_of cell.now) ≡ Ok value.now) }
    ensures refused { IfErr result (λ why. found value_in objects.now (path_of cell.now) ≡ Err why) }
{
    match cell_of(objects, cell) {
        Ok(found) => match found.content() {
            Content::One(value) => Ok(value),
            _ => Err(Unread::WrongShape),
        },
        Err(why) => Err(why),
    }
}

/// The elements of a list. It takes no memory.
pub fn list_of<'a>(objects: &'a Store, cell: &CellName) -> Result<&'a SumList<Element>, Unread>
    ensures list { IfOk result (λ list. found elements_in objects.now (path_of cell.now) ≡ Ok list.now) }
    ensures refused { IfErr result (λ why. found elements_in objects.now (path_of cell.now) ≡ Err why) }
{
    match cell_of(objects, cell) {
        Ok(found) => match found.content() {
            Content::List(list) => Ok(list),
            _ => Err(Unread::WrongShape),
        },
        Err(why) => Err(why),
    }
}

/// The members of a set, in order. It takes no memory.
pub fn set_of<'a>(objects: &'a Store, cell: &CellName) -> Result<&'a BTreeSet<Held>, Unread>
    ensures set { IfOk result (λ members. found members_in objects.now (path_of cell.now) ≡ Ok (set.from_list members.now.keys)) }
    ensures refused { IfErr result (λ why. found members_in objects.now (path_of cell.now) ≡ Err why) }
{
    match cell_of(objects, cell) {
        Ok(found) => match found.content() {
            Content::Set(members) => Ok(members),
            _ => Err(Unread::WrongShape),
        },
        Err(why) => Err(why),
    }
}

/// The bindings of a dictionary, in the order of their text keys. It takes no memory.
pub fn dict_of<'a>(
    objects: &'a Store,
    cell: &CellName,
) -> Result<&'a BTreeMap<KeyText, Held>, Unread>
    ensures dict { IfOk result (λ bindings. found bindings_in objects.now (path_of cell.now) ≡ Ok (map.from_entries bindings.now.entries)) }
    ensures refused { IfErr result (λ why. found bindings_in objects.now (path_of cell.now) ≡ Err why) }
{
    match cell_of(objects, cell) {
        Ok(found) => match found.content() {
            Content::Dict(bindings) => Ok(bindings),
            _ => Err(Unread::WrongShape),
        },
        Err(why) => Err(why),
    }
}
