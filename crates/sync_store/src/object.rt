ghost use Rattle.std.specs.Prelude.{◌≡◌, ◌≤◌, true, Err, IfOk, IfErr, OnOk, is_ok, if◌then◌else◌, vec_len};
ghost use Rattle.std.specs.List.{insert};
ghost use Rattle.std.specs.Option.{option_copied};
ghost use Rattle.std.specs.FinMap as map;
ghost use Rattle.sync_data.specs.Orders.{name_cmp};
ghost use Rattle.sync_base.specs.Maps.{map_with};
ghost use Rattle.sync_base.specs.After.{default_of};
ghost use Rattle.sync_maps.specs.Seen.{at_key};
ghost use Rattle.sync_cells.specs.Undoing.{done, undone, has_place};
ghost use Rattle.sync_store.specs.Places.{IsPlaceOf, IsGapFor};

use super::undo::let_go;
use std::alloc::Global;
use std::collections::BTreeMap;
use std::marker::Model;
use sync_base::{Column, Name, NoMemory};
use sync_cells::{Cell, CellRefusal, Edit, Former};

/// An object: its cells in the order of their columns, in one block of memory.
#[derive(Drop)]
pub struct Object {
    cells: Vec<(Name, Cell)>,
}

impl Model for Object {
    ghost use Rattle.sync_base.specs.States.{Cells};
    ghost use Rattle.sync_store.specs.Codes.{coded_cells};
    ghost use Rattle.std.specs.FinMap as map;

    ghost Value = { Cells };

    ghost coded = { coded_cells };

    ghost view = { λ a. map.from_sorted a.cells.items };

    ghost use Rattle.std.specs.Prelude.{T};
    ghost use Rattle.std.specs.FinMap.{is_sorted};
    ghost use Rattle.sync_data.specs.Orders.{name_cmp};

    ghost invariant = { λ a. T (is_sorted name_cmp a.cells.items) };
}

impl Object {
    /// An object without cells.
    pub(crate) fn new(alloc: Global) -> Object
        ensures { result ≡ map.empty }
    {
        Object {
            cells: Vec::new(alloc),
        }
    }

    /// An object without cells, with room for as many.
    fn with_room(alloc: Global, cells: usize) -> Result<Object, NoMemory>
        ensures { IfOk result (λ object. object ≡ map.empty) }
    {
        match Vec::with_capacity(alloc, cells) {
            Ok(cells) => Ok(Object { cells }),
            Err(_) => Err(NoMemory),
        }
    }

    /// Where the cell of a column stands, or where it would go.
    fn place(&self, column: &Name) -> Result<usize, usize>
        ensures found { IfOk result (IsPlaceOf column.now (map.entries self.now)) }
        ensures absent { IfErr result (IsGapFor column.now (map.entries self.now)) }
    {
        self.cells.binary_search_by(|cell| cell.0.cmp(column))
    }

    /// The cell of a column. It takes no memory.
    pub fn cell(&self, column: &Name) -> Option<&Cell>
        ensures { option_copied result ≡ map.get self.now column.now }
    {
        match self.place(column) {
            Ok(place) => Some(&self.cells[place].1),
            Err(_) => None,
        }
    }

    /// An object with the default cell of each column.
    pub(crate) fn of_columns(
        alloc: Global,
        columns: &BTreeMap<Name, Column>,
    ) -> Result<Object, NoMemory>
        ensures { IfOk result (λ object. object ≡ map_with (λ c def. default_of def) (map.from_entries {R = name_cmp} columns.now.entries)) }
    {
        let mut object = Object::with_room(alloc, columns.len())?;
        for (name, column) in columns {
            object.add_default(alloc, name, column)?;
        }
        Ok(object)
    }

    /// Puts a cell into it.
    pub(crate) fn add(&mut self, column: Name, cell: Cell) -> Result<(), NoMemory>
        ensures { OnOk result (self.new ≡ map.insert self.old column cell) }
    {
        match self.place(&column) {
            Ok(place) => {
                self.cells[place].1 = cell;
                Ok(())
            }
            Err(place) => insert_into(&mut self.cells, place, (column, cell)),
        }
    }

    /// Puts the default cell of a column into it.
    pub(crate) fn add_default(
        &mut self,
        alloc: Global,
        column: &Name,
        def: &Column,
    ) -> Result<(), NoMemory>
        ensures { OnOk result (self.new ≡ map.insert self.old column.now (default_of def.now)) }
    {
        self.add(column.copy()?, Cell::default_of(alloc, def)?)
    }

    /// Takes a cell out of it.
    pub(crate) fn remove(&mut self, column: &Name)
        ensures { self.new ≡ map.remove self.old column.now }
    {
        if let Ok(place) = self.place(column) {
            let_go(self.cells.remove(place));
        }
    }

    /// Edits the cell of a column, and hands back what brings it back.
    pub(crate) fn edit(&mut self, column: &Name, edit: Edit) -> Result<Former, CellRefusal>
        ensures done { OnOk result (self.new ≡ at_key column.now (done edit) self.old) }
        ensures former { IfOk result (λ former. at_key column.now (undone edit former) self.new ≡ self.old) }
        ensures placed { OnOk result (has_place edit ≡ true) }
    {
        match self.place(column) {
            Ok(place) => self.cells[place].1.edit(edit),
            Err(_) => refused(edit),
        }
    }
}

/// Puts an item into a list, before the one at `place`, or leaves the list as it is.
fn insert_into<T: Drop>(list: &mut Vec<T>, place: usize, item: T) -> Result<(), NoMemory>
    requires { place ≤ vec_len list.old }
    ensures { list.new.items ≡ (if is_ok result then insert list.old.items place item else list.old.items) }
{
    match list.insert(place, item) {
        Ok(()) => Ok(()),
        Err(_) => Err(NoMemory),
    }
}

/// The answer to an edit of a cell that isn't there.
pub(crate) fn refused<T: Drop>(_edit: T) -> Result<Former, CellRefusal>
    ensures { result ≡ Err CellRefusal.WrongShape }
{
    Err(CellRefusal::WrongShape)
}
