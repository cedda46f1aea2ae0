ghost use Rattle.std.specs.Prelude.{◌≡◌, true, IfOk, OnOk, OnErr};
ghost use Rattle.sync_cells.specs.Refusals.{edit_refusal, IsRefusedBy};
ghost use Rattle.sync_cells.specs.Undoing.{done, undone, has_place};

use super::cell::Cell;
use super::content::Content;
use super::refusal::{CellRefusal, WrongShape};
use std::mem;
use sync_base::{Between, Inside, KeyText, Value as Held};

/// What is done to a cell: an instruction's edit, or the content that it had before a Clear.
#[derive(Drop)]
pub enum Edit {
    Set(Held),
    Add(i64),
    Replace(Inside, Held),
    Insert(Between, Held),
    Remove(Inside),
    Include(Held),
    Exclude(Held),
    Bind(KeyText, Option<Held>),
    Empty,
    Restore(Content),
}

/// What an edit took out of the cell, which with the edit brings the cell back.
#[derive(Drop)]
pub enum Former {
    Nothing,
    Value(Held),
    Binding(Option<Held>),
    Content(Content),
    /// Whether the edit changed whether the value is a member.
    Changed(bool),
}

impl From<WrongShape> for CellRefusal {
    ghost use Rattle.sync_cells.specs.declared.refusal.CellRefusal.TheVariants as refusals;

    ghost from_gives = { λ _ e. e ≡ refusals.WrongShape };

    fn from(_: WrongShape) -> CellRefusal {
        CellRefusal::WrongShape
    }
}

impl Cell {
    /// Does an edit, and hands back what brings the cell back. Refusals as of the call for that edit; a restore has none.
    pub fn edit(&mut self, edit: Edit) -> Result<Former, CellRefusal>
        ensures done { OnOk result (self.new ≡ done edit self.old) }
        ensures former { IfOk result (λ former. undone edit former self.new ≡ self.old) }
        ensures placed { OnOk result (has_place edit ≡ true) }
        ensures unchanged { OnErr result (self.new ≡ self.old) }
        ensures refused { IsRefusedBy (edit_refusal edit self.old) result }
    {
        match edit {
            Edit::Set(value) => Ok(Former::Value(self.replace(value)?)),
            Edit::Add(amount) => Ok(Former::Value(self.replace_sum(amount)?)),
            Edit::Replace(spot, value) => Ok(Former::Value(self.list_replace(spot, value)?)),
            Edit::Insert(spot, value) => {
                self.list_insert(spot, value)?;
                Ok(Former::Nothing)
            }
            Edit::Remove(spot) => Ok(Former::Value(self.list_remove(spot)?)),
            Edit::Include(value) => Ok(Former::Changed(self.set_add(value)?)),
            Edit::Exclude(value) => Ok(Former::Changed(self.set_remove(&value)?)),
            Edit::Bind(at, value) => Ok(Former::Binding(self.dict_bind(at, value)?)),
            Edit::Empty => Ok(Former::Content(self.take_content()?)),
            Edit::Restore(content) => {
                Ok(Former::Content(mem::replace(&mut self.content, content)))
            }
        }
    }
}
