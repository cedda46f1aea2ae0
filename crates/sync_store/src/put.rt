ghost use Rattle.std.specs.Prelude.{◌≡◌, ◌≤◌, true, Some, None, IfOk};
ghost use Rattle.sync_base.specs.Effects.{effect_of, is_effect, path_of, NewTable, NewColumn, Create, Erase};
ghost use Rattle.sync_base.specs.States.{IsState};
ghost use Rattle.std.specs.FinMap as map;
ghost use Rattle.sync_base.specs.After.{after, new_cells};
ghost use Rattle.sync_base.specs.Checks.{break_of};
ghost use Rattle.sync_cells.specs.Undoing.{done, edit_of, has_place};
ghost use Rattle.sync_store.specs.Backs.{back, changed_at, Steps};
ghost use Rattle.sync_store.specs.Small.{MayGrow};

use super::object::Object;
use super::parts::Parts;
use super::refusals::ApplyRefusal;
use super::undo::Undo;
use sync_base::{
    AddColumn, AddTable, CellName, CreateObject, EraseObject, Instr, ListInsert, Name, NoMemory,
    Value as Held,
};
use sync_cells::Edit;

impl Parts {
    /// Applies an instruction, and hands back what takes it back; or nothing changes, and it tells
    /// the break.
    pub(crate) fn apply<'a>(&mut self, instr: &'a Instr) -> Result<Undo<'a>, ApplyRefusal>
        requires { IsState self.old }
        ensures { Steps result instr.now self.old self.new }
    {
        match self.check(instr) {
            Ok(()) => {}
            Err(cause) => return Err(ApplyRefusal::Break(cause)),
        }
        match self.put(instr) {
            Ok(undo) => Ok(undo),
            Err(NoMemory) => Err(ApplyRefusal::NoMemory),
        }
    }

    /// Applies an instruction that acts, and hands back what takes it back.
    fn put<'a>(&mut self, instr: &'a Instr) -> Result<Undo<'a>, NoMemory>
        requires state { IsState self.old }
        requires acts { break_of self.old (effect_of instr.now) ≡ None }
        ensures after { IfOk result (λ undo. self.new ≡ after self.old (effect_of instr.now)) }
        ensures back { IfOk result (λ undo. back undo self.new ≡ self.old) }
        ensures placed { IfOk result (λ undo. is_effect (effect_of instr.now) ≡ true) }
        ensures grows { MayGrow (effect_of instr.now) }
    {
        match instr {
            Instr::AddTable(i) => self.put_table(i),
            Instr::AddColumn(i) => self.put_column(i),
            Instr::CreateObject(i) => self.put_object(i),
            Instr::EraseObject(i) => self.cut_object(i),
            Instr::Update(i) => self.change(instr, &i.cell, Edit::Set(i.value.copy()?)),
            Instr::AddInteger(i) => self.change(instr, &i.cell, Edit::Add(i.amount)),
            Instr::ListUpdate(i) => {
                self.change(instr, &i.cell, Edit::Replace(i.spot, i.value.copy()?))
            }
            Instr::ListInsert(i) => {
                fits_a_length(i);
                self.change(instr, &i.cell, Edit::Insert(i.spot, i.value.copy()?))
            }
            Instr::ListErase(i) => self.change(instr, &i.cell, Edit::Remove(i.spot)),
            Instr::SetInsert(i) => self.change(instr, &i.cell, Edit::Include(i.value.copy()?)),
            Instr::SetErase(i) => self.change(instr, &i.cell, Edit::Exclude(i.value.copy()?)),
            Instr::DictUpdate(i) => self.change(
                instr,
                &i.cell,
                Edit::Bind(i.at.copy()?, copy_binding(&i.value)?),
            ),
            Instr::Clear(i) => self.change(instr, &i.cell, Edit::Empty),
        }
    }

    fn put_table<'a>(&mut self, add: &'a AddTable) -> Result<Undo<'a>, NoMemory>
        requires { break_of self.old (NewTable add.now.table add.now.key) ≡ None }
        ensures after { IfOk result (λ undo. self.new ≡ after self.old (NewTable add.now.table add.now.key)) }
        ensures back { IfOk result (λ undo. back undo self.new ≡ self.old) }
    {
        let table = AddTable {
            table: add.table.copy()?,
            key: add.key,
        };
        if self.schema.add_table(table).is_err() {
            return Err(NoMemory);
        }
        Ok(Undo::RemoveTable(&add.table))
    }

    fn put_column<'a>(&mut self, add: &'a AddColumn) -> Result<Undo<'a>, NoMemory>
        requires state { IsState self.old }
        requires acts { break_of self.old (NewColumn add.now.table add.now.column add.now.def) ≡ None }
        ensures after { IfOk result (λ undo. self.new ≡ after self.old (NewColumn add.now.table add.now.column add.now.def)) }
        ensures back { IfOk result (λ undo. back undo self.new ≡ self.old) }
    {
        self.objects.add_column(&add.table, &add.column, &add.def)?;
        let column = AddColumn {
            table: add.table.copy()?,
            column: add.column.copy()?,
            def: add.def.copy()?,
        };
        if self.schema.add_column(column).is_err() {
            return Err(NoMemory);
        }
        Ok(Undo::RemoveColumn(&add.table, &add.column))
    }

    fn put_object<'a>(&mut self, create: &'a CreateObject) -> Result<Undo<'a>, NoMemory>
        ensures after { IfOk result (λ undo. self.new ≡ after self.old (Create (create.now.table, create.now.key))) }
        ensures back { IfOk result (λ undo. back undo self.new ≡ self.old) }
    {
        if self.objects.object(&create.table, &create.key).is_some() {
            return Ok(Undo::Nothing);
        }
        let object = self.new_object(&create.table)?;
        self.objects
            .insert(create.table.copy()?, create.key.copy()?, object)?;
        Ok(Undo::RemoveObject(&create.table, &create.key))
    }

    /// An object with the default cells of a table.
    fn new_object(&self, table: &Name) -> Result<Object, NoMemory>
        ensures { IfOk result (λ object. object ≡ new_cells (map.get self.now.tables table.now)) }
    {
        match self.schema.columns(table) {
            Some(columns) => Object::of_columns(self.alloc, columns),
            None => Ok(Object::new(self.alloc)),
        }
    }

    fn cut_object<'a>(&mut self, erase: &'a EraseObject) -> Result<Undo<'a>, NoMemory>
        ensures after { IfOk result (λ undo. self.new ≡ after self.old (Erase (erase.now.table, erase.now.key))) }
        ensures back { IfOk result (λ undo. back undo self.new ≡ self.old) }
    {
        let Some(object) = self.objects.remove(&erase.table, &erase.key) else {
            return Ok(Undo::Nothing);
        };
        Ok(Undo::PutObject(&erase.table, &erase.key, object))
    }

    /// Edits the cell of an instruction.
    fn change<'a>(
        &mut self,
        instr: &'a Instr,
        cell: &'a CellName,
        edit: Edit,
    ) -> Result<Undo<'a>, NoMemory>
        requires { edit_of instr.now ≡ Some edit }
        ensures after { IfOk result (λ undo. self.new ≡ changed_at cell.now (done edit) self.old) }
        ensures back { IfOk result (λ undo. back undo self.new ≡ self.old) }
        ensures placed { IfOk result (λ undo. has_place edit ≡ true) }
    {
        let Ok(former) = self.objects.edit(cell, edit) else {
            return Err(NoMemory);
        };
        Ok(Undo::EditCell(instr, cell, former))
    }
}

/// The length of the list that an insertion tells has 32 bits.
fn fits_a_length(insert: &ListInsert)
    ensures { insert.now.spot.prior ≤ 4294967295 }
{
    let _ = insert.spot.prior();
}

fn copy_binding(value: &Option<Held>) -> Result<Option<Held>, NoMemory>
    ensures { IfOk result (λ copy. copy ≡ value.now) }
{
    match value {
        Some(value) => Ok(Some(value.copy()?)),
        None => Ok(None),
    }
}
