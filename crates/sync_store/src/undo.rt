ghost use Rattle.std.specs.Prelude.{◌≡◌, ◌++◌, ◌∷◌, [], OnOk};
ghost use Rattle.sync_cells.specs.Undoing.{done_if, inverse_at};
ghost use Rattle.sync_store.specs.Backs.{back, changed_at};

use super::object::Object;
use super::parts::Parts;
use sync_base::{CellName, Instr, Key, Name, NoMemory};
use sync_cells::{Former, inverse_of};

/// What takes one instruction back: names that the instruction holds, and what it took out.
#[derive(Drop)]
pub(crate) enum Undo<'a> {
    Nothing,
    RemoveTable(&'a Name),
    RemoveColumn(&'a Name, &'a Name),
    RemoveObject(&'a Name, &'a Key),
    PutObject(&'a Name, &'a Key, Object),
    EditCell(&'a Instr, &'a CellName, Former),
}

/// What isn't taken back.
pub(crate) fn let_go<T: Drop>(_undo: T) {}

/// Puts an item at the end of a list.
pub(crate) fn keep<T: Drop>(list: &mut Vec<T>, item: T) -> Result<(), NoMemory>
    ensures { OnOk result (list.new.items ≡ list.old.items ++ item ∷ []) }
{
    match list.push(item) {
        Ok(()) => Ok(()),
        Err(_) => Err(NoMemory),
    }
}

impl Parts {
    /// Takes one instruction back.
    pub(crate) fn take_back(&mut self, undo: Undo) -> Result<(), NoMemory>
        ensures { OnOk result (self.new ≡ back undo.entry self.old) }
    {
        match undo {
            Undo::Nothing => {}
            Undo::RemoveTable(table) => self.schema.remove_table(table),
            Undo::RemoveColumn(table, column) => {
                self.schema.remove_column(table, column);
                self.objects.remove_column(table, column)?;
            }
            Undo::RemoveObject(table, key) => {
                let _ = self.objects.remove(table, key);
            }
            Undo::PutObject(table, key, object) => {
                self.objects.insert(table.copy()?, key.copy()?, object)?;
            }
            Undo::EditCell(instr, cell, former) => self.edit_back(instr, cell, former)?,
        }
        Ok(())
    }

    /// Brings a cell back that an instruction changed, from what it took out.
    fn edit_back(&mut self, instr: &Instr, cell: &CellName, former: Former) -> Result<(), NoMemory>
        ensures { OnOk result (self.new ≡ changed_at cell.now (done_if (inverse_at instr.now former)) self.old) }
    {
        let Some(edit) = inverse_of(instr, former)? else {
            return Ok(());
        };
        if self.objects.edit(cell, edit).is_err() {
            return Err(NoMemory);
        }
        Ok(())
    }
}
