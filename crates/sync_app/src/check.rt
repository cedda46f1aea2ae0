ghost use Rattle.std.specs.Prelude.{◌≡◌, ◌∷◌, ℕ, List, Bool, true, [], Some, Option, IfOk, IfErr, OnOk};
ghost use Rattle.std.specs.Option.{option_copied};
ghost use Rattle.sync_data.specs.declared.column.Column.{Column as ColumnSeen};
ghost use Rattle.sync_data.specs.declared.column.Shape.{Shape as ShapeSeen};
ghost use Rattle.sync_data.specs.declared.key.KeyKind.{KeyKind};
ghost use Rattle.sync_base.specs.Checks.{first_failed, is_int, object_checks};
ghost use Rattle.sync_base.specs.Effects.{NewTable, NewColumn, Change, effect_of, path_of};
ghost use Rattle.sync_base.specs.Effects as effects;
ghost use Rattle.sync_base.specs.States.{column_in};
ghost use Rattle.sync_base.specs.declared.answers.Break.{Break as BreakSeen};
ghost use Rattle.sync_store.specs.Asking.{takes, verdict};
ghost use Rattle.sync_app.specs.Finding.{Finds};
ghost use Rattle.sync_app.specs.Wants.{is_length, is_wanted};

use super::refusal::Refusal;
use super::sketch::{CellKey, ObjectKey, Sketch, cell_key, object_key};
use super::wanted::Wanted;
use sync_base::{AddColumn, Break, CellName, Column, Instr, Key, Kind, Name, Value as Held};
use sync_schema::is_sound;

impl Sketch<'_> {
    ghost use Rattle.sync_app.specs.Checking.{break_in, cell_checks, column_checks, stands_checks};
    ghost use Rattle.sync_app.specs.Sketches.{size_in, tables_in};

    /// Whether an instruction acts on what is sketched, or its first break.
    pub(crate) fn check(&self, instr: &Instr) -> Result<(), Refusal>
        ensures { Finds result (break_in self.now (effect_of instr.now)) }
    {
        match instr {
            Instr::AddTable(i) => judged(self.check_table(&i.table)),
            Instr::AddColumn(i) => judged(self.check_column(i)),
            Instr::CreateObject(i) => judged(self.check_key(&i.table, &i.key)),
            Instr::EraseObject(i) => {
                let Ok(object) = object_key(&i.table, &i.key) else {
                    return Err(Refusal::NoMemory);
                };
                judged(self.check_object(&object))
            }
            Instr::Update(i) => self.check_change(&i.cell, Wanted::One, Some(&i.value), None),
            Instr::AddInteger(i) => self.check_sum(&i.cell),
            Instr::ListUpdate(i) => {
                let prior = Some(i.spot.prior());
                self.check_change(&i.cell, Wanted::List, Some(&i.value), prior)
            }
            Instr::ListInsert(i) => {
                let prior = Some(i.spot.prior());
                self.check_change(&i.cell, Wanted::List, Some(&i.value), prior)
            }
            Instr::ListErase(i) => {
                let prior = Some(i.spot.prior());
                self.check_change(&i.cell, Wanted::List, None, prior)
            }
            Instr::SetInsert(i) => self.check_change(&i.cell, Wanted::Set, Some(&i.value), None),
            Instr::SetErase(i) => self.check_change(&i.cell, Wanted::Set, Some(&i.value), None),
            Instr::DictUpdate(i) => self.check_binding(&i.cell, &i.value),
            Instr::Clear(i) => self.check_change(&i.cell, Wanted::Collection, None, None),
        }
    }

    fn check_table(&self, table: &Name) -> Result<(), Break>
        ensures { (k : KeyKind) → result ≡ verdict (break_in self.now (NewTable table.now k)) }
    {
        if self.schema().table(table).is_some() {
            return Err(Break::TableExists);
        }
        Ok(())
    }

    fn check_column(&self, add: &AddColumn) -> Result<(), Break>
        ensures { result ≡ verdict (break_in self.now (NewColumn add.now.table add.now.column add.now.def)) }
    {
        let schema = self.schema();
        if schema.table(&add.table).is_none() {
            return Err(Break::NoTable);
        }
        if schema.column(&add.table, &add.column).is_some() {
            return Err(Break::ColumnExists);
        }
        if !is_sound(&add.def) {
            return Err(Break::BadColumn);
        }
        if !schema.has_target(&add.def.kind) {
            return Err(Break::NoTable);
        }
        Ok(())
    }

    fn check_key(&self, table: &Name, key: &Key) -> Result<(), Break>
        ensures { result ≡ verdict (first_failed (object_checks (tables_in self.now) (table.now, key.now))) }
    {
        let schema = self.schema();
        if schema.table(table).is_none() {
            return Err(Break::NoTable);
        }
        if !schema.is_key_of(table, key) {
            return Err(Break::WrongKeyKind);
        }
        Ok(())
    }

    fn check_object(&self, object: &ObjectKey) -> Result<(), Break>
        ensures { result ≡ verdict (first_failed (stands_checks self.now object.now)) }
    {
        match self.check_key(&object.0, &object.1) {
            Ok(()) => {}
            Err(cause) => return Err(cause),
        }
        if !self.stands(object) {
            return Err(Break::NoObject);
        }
        Ok(())
    }

    /// The column of a cell whose object stands.
    fn find_column(&self, cell: &CellKey) -> Result<&Column, Break>
        ensures there { IfOk result (λ column. column_in (tables_in self.now) cell.now.0.0 cell.now.1 ≡ Some column.now) }
        ensures passed { OnOk result ((shape : ShapeSeen → Bool) (kind : ColumnSeen → Bool) (prior : Bool) → first_failed (cell_checks self.now cell.now shape kind prior) ≡ first_failed (column_checks (column_in (tables_in self.now) cell.now.0.0 cell.now.1) shape kind prior)) }
        ensures cause { IfErr result (λ cause. (shape : ShapeSeen → Bool) (kind : ColumnSeen → Bool) (prior : Bool) → first_failed (cell_checks self.now cell.now shape kind prior) ≡ Some cause) }
    {
        match self.check_object(&cell.0) {
            Ok(()) => {}
            Err(cause) => return Err(cause),
        }
        match self.schema().column(&cell.0.0, &cell.1) {
            Some(column) => Ok(column),
            None => Err(Break::NoColumn),
        }
    }

    /// Whether a cell is changed whose column has a wanted shape and takes the value, and whose list has that length.
    pub(crate) fn check_change(
        &self,
        cell: &CellName,
        wanted: Wanted,
        value: Option<&Held>,
        prior: Option<u32>,
    ) -> Result<(), Refusal>
        ensures { let p = path_of cell.now in Finds result (first_failed (cell_checks self.now p (is_wanted wanted) (takes (tables_in self.now) (option_copied value.entry)) (is_length prior (size_in self.now p)))) }
    {
        let Ok(cell) = cell_key(cell) else {
            return Err(Refusal::NoMemory);
        };
        judged(self.judge_change(&cell, wanted, value, prior))
    }

    fn judge_change(
        &self,
        cell: &CellKey,
        wanted: Wanted,
        value: Option<&Held>,
        prior: Option<u32>,
    ) -> Result<(), Break>
        ensures { result ≡ verdict (first_failed (cell_checks self.now cell.now (is_wanted wanted) (takes (tables_in self.now) (option_copied value.entry)) (is_length prior (size_in self.now cell.now)))) }
    {
        let column = match self.find_column(cell) {
            Ok(column) => column,
            Err(cause) => return Err(cause),
        };
        let has_shape = wanted.is(column.shape);
        let fits = self.takes(column, value);
        let has_size = self.has_size(cell, prior);
        judge(has_shape, fits, has_size)
    }

    fn check_sum(&self, cell: &CellName) -> Result<(), Refusal>
        ensures { Finds result (first_failed (cell_checks self.now (path_of cell.now) (is_wanted Wanted.One) (λ c. is_int c.kind) true)) }
    {
        let Ok(cell) = cell_key(cell) else {
            return Err(Refusal::NoMemory);
        };
        judged(self.judge_sum(&cell))
    }

    fn judge_sum(&self, cell: &CellKey) -> Result<(), Break>
        ensures { result ≡ verdict (first_failed (cell_checks self.now cell.now (is_wanted Wanted.One) (λ c. is_int c.kind) true)) }
    {
        let column = match self.find_column(cell) {
            Ok(column) => column,
            Err(cause) => return Err(cause),
        };
        let has_shape = Wanted::One.is(column.shape);
        let fits = is_int(&column.kind);
        judge(has_shape, fits, true)
    }

    fn check_binding(&self, cell: &CellName, value: &Option<Held>) -> Result<(), Refusal>
        ensures { (at : List ℕ) → Finds result (break_in self.now (Change (path_of cell.now) (effects.Bind at value.now))) }
    {
        match value {
            Some(value) => self.check_change(cell, Wanted::Dict, Some(value), None),
            None => self.check_change(cell, Wanted::Dict, None, None),
        }
    }

    fn takes(&self, column: &Column, value: Option<&Held>) -> bool
        ensures { result ≡ takes (tables_in self.now) (option_copied value.entry) column.now }
    {
        match value {
            Some(value) => self.schema().fits(column, value),
            None => true,
        }
    }

    /// Whether the list has that length, where one is wanted.
    fn has_size(&self, cell: &CellKey, prior: Option<u32>) -> bool
        ensures { result ≡ is_length prior (size_in self.now cell.now) }
    {
        match prior {
            Some(prior) => prior as usize == self.size(cell),
            None => true,
        }
    }
}

fn judged(found: Result<(), Break>) -> Result<(), Refusal>
    ensures { (b : Option BreakSeen) → found ≡ verdict b → Finds result b }
{
    match found {
        Ok(()) => Ok(()),
        Err(cause) => Err(Refusal::Break(cause)),
    }
}

/// The first of these breaks whose test fails.
fn judge(has_shape: bool, fits: bool, has_size: bool) -> Result<(), Break>
    ensures { result ≡ verdict (first_failed ((has_shape, BreakSeen.WrongShape) ∷ (fits, BreakSeen.WrongKind) ∷ (has_size, BreakSeen.BadPrior) ∷ [])) }
{
    if !has_shape {
        return Err(Break::WrongShape);
    }
    if !fits {
        return Err(Break::WrongKind);
    }
    if !has_size {
        return Err(Break::BadPrior);
    }
    Ok(())
}

fn is_int(kind: &Kind) -> bool
    ensures { result ≡ is_int kind.now }
{
    match kind {
        Kind::Int => true,
        _ => false,
    }
}
