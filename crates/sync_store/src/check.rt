ghost use Rattle.std.specs.Prelude.{◌≡◌, ◌∷◌, ◌++◌, ℕ, List, Bool, true, false, [], is_some, Some, None, IfOk, IfErr, OnOk};
ghost use Rattle.std.specs.Option.{option_copied, option_map_or};
ghost use Rattle.sync_data.specs.declared.key.KeyKind.{KeyKind};
ghost use Rattle.sync_base.specs.Effects.{NewTable, NewColumn, Erase, Change, effect_of, path_of};
ghost use Rattle.sync_base.specs.Effects as effects;
ghost use Rattle.std.specs.FinMap as map;
ghost use Rattle.sync_base.specs.States.{IsState, column_in};
ghost use Rattle.sync_base.specs.Checks.{break_of, first_failed, object_checks, size, is_int};
ghost use Rattle.sync_base.specs.declared.answers.Break.{Break as BreakSeen};
ghost use Rattle.sync_store.specs.Asking.{verdict, standing_checks, cell_checks, change_checks, is_wanted, takes, has_size};

use super::object::Object;
use super::parts::Parts;
use super::wanted::Wanted;
use sync_base::{AddColumn, Break, CellName, Column, Instr, Key, Kind, Name, Shape, Value as Held};
use sync_cells::{Cell, Content};
use sync_schema::{TableDef, is_of_kind, is_sound};

impl Parts {
    /// Whether an instruction acts, or its first break. It takes no memory.
    pub(crate) fn check(&self, instr: &Instr) -> Result<(), Break>
        requires { IsState self.now }
        ensures { result ≡ verdict (break_of self.now (effect_of instr.now)) }
    {
        match instr {
            Instr::AddTable(i) => self.check_table(&i.table),
            Instr::AddColumn(i) => self.check_column(i),
            Instr::CreateObject(i) => self.check_key(&i.table, &i.key),
            Instr::EraseObject(i) => self.check_object(&i.table, &i.key),
            Instr::Update(i) => self.check_change(&i.cell, Wanted::One, Some(&i.value), None),
            Instr::AddInteger(i) => self.check_sum(&i.cell),
            Instr::ListUpdate(i) => {
                let prior = Some(i.spot.prior());
                self.check_change(&i.cell, Wanted::List, Some(&i.value), prior)
            }
            Instr::ListInsert(i) => {
                let prior = Some(i.spot.prior());
                self.check_change(&i.cell, Wanted::List, Some(&i.value), prior)
            }
            Instr::ListErase(i) => {
                let prior = Some(i.spot.prior());
                self.check_change(&i.cell, Wanted::List, None, prior)
            }
            Instr::SetInsert(i) => self.check_change(&i.cell, Wanted::Set, Some(&i.value), None),
            Instr::SetErase(i) => self.check_change(&i.cell, Wanted::Set, Some(&i.value), None),
            Instr::DictUpdate(i) => self.check_binding(&i.cell, &i.value),
            Instr::Clear(i) => self.check_change(&i.cell, Wanted::Collection, None, None),
        }
    }

    fn check_table(&self, table: &Name) -> Result<(), Break>
        ensures { (k : KeyKind) → result ≡ verdict (break_of self.now (NewTable table.now k)) }
    {
        if self.schema.table(table).is_some() {
            return Err(Break::TableExists);
        }
        Ok(())
    }

    fn check_column(&self, add: &AddColumn) -> Result<(), Break>
        ensures { result ≡ verdict (break_of self.now (NewColumn add.now.table add.now.column add.now.def)) }
    {
        if self.schema.table(&add.table).is_none() {
            return Err(Break::NoTable);
        }
        if self.schema.column(&add.table, &add.column).is_some() {
            return Err(Break::ColumnExists);
        }
        if !is_sound(&add.def) {
            return Err(Break::BadColumn);
        }
        if !self.schema.has_target(&add.def.kind) {
            return Err(Break::NoTable);
        }
        Ok(())
    }

    fn check_key(&self, table: &Name, key: &Key) -> Result<(), Break>
        ensures { result ≡ verdict (first_failed (object_checks self.now.tables (table.now, key.now))) }
    {
        match self.find_table(table, key) {
            Ok(_) => Ok(()),
            Err(cause) => Err(cause),
        }
    }

    fn check_object(&self, table: &Name, key: &Key) -> Result<(), Break>
        ensures { result ≡ verdict (break_of self.now (Erase (table.now, key.now))) }
    {
        match self.find_object(table, key) {
            Ok(_) => Ok(()),
            Err(cause) => Err(cause),
        }
    }

    /// The table of that name, whose keys are of that key's kind.
    fn find_table(&self, table: &Name, key: &Key) -> Result<&TableDef, Break>
        ensures there { IfOk result (λ found. map.get self.now.tables table.now ≡ Some found.now) }
        ensures passed { OnOk result ((rest : List (Bool × BreakSeen)) → first_failed (object_checks self.now.tables (table.now, key.now) ++ rest) ≡ first_failed rest) }
        ensures cause { IfErr result (λ cause. (rest : List (Bool × BreakSeen)) → first_failed (object_checks self.now.tables (table.now, key.now) ++ rest) ≡ Some cause) }
    {
        let Some(found) = self.schema.definition(table) else {
            return Err(Break::NoTable);
        };
        if !is_of_kind(found.kind(), key) {
            return Err(Break::WrongKeyKind);
        }
        Ok(found)
    }

    /// The table of an object, and the object, which stands.
    fn find_object(&self, table: &Name, key: &Key) -> Result<(&TableDef, &Object), Break>
        ensures there { IfOk result (λ found. map.get self.now.tables table.now ≡ Some found.0.now) }
        ensures object { IfOk result (λ found. map.get self.now.objects (table.now, key.now) ≡ Some found.1.now) }
        ensures passed { OnOk result ((rest : List (Bool × BreakSeen)) → first_failed (standing_checks self.now (table.now, key.now) rest) ≡ first_failed rest) }
        ensures cause { IfErr result (λ cause. (rest : List (Bool × BreakSeen)) → first_failed (standing_checks self.now (table.now, key.now) rest) ≡ Some cause) }
    {
        let found = match self.find_table(table, key) {
            Ok(found) => found,
            Err(cause) => return Err(cause),
        };
        match self.objects.object(table, key) {
            Some(object) => Ok((found, object)),
            None => Err(Break::NoObject),
        }
    }

    /// The column of a cell, and its object, which stands.
    fn find_column(&self, cell: &CellName) -> Result<(&Column, &Object), Break>
        ensures there { IfOk result (λ found. column_in self.now.tables cell.now.table cell.now.column ≡ Some found.0.now) }
        ensures object { IfOk result (λ found. map.get self.now.objects (cell.now.table, cell.now.key) ≡ Some found.1.now) }
        ensures passed { OnOk result ((rest : List (Bool × BreakSeen)) → first_failed (cell_checks self.now (path_of cell.now) rest) ≡ first_failed rest) }
        ensures cause { IfErr result (λ cause. (rest : List (Bool × BreakSeen)) → first_failed (cell_checks self.now (path_of cell.now) rest) ≡ Some cause) }
    {
        let (table, object) = match self.find_object(&cell.table, &cell.key) {
            Ok(found) => found,
            Err(cause) => return Err(cause),
        };
        match table.column(&cell.column) {
            Some(column) => Ok((column, object)),
            None => Err(Break::NoColumn),
        }
    }

    /// Whether a cell is changed whose column has a wanted shape and takes the value, and whose list has that length.
    fn check_change(
        &self,
        cell: &CellName,
        shape: Wanted,
        value: Option<&Held>,
        prior: Option<u32>,
    ) -> Result<(), Break>
        requires { IsState self.now }
        ensures { result ≡ verdict (first_failed (change_checks self.now (path_of cell.now) (is_wanted shape) (takes self.now.tables (option_copied value.entry)) (has_size prior))) }
    {
        let (column, object) = match self.find_column(cell) {
            Ok(found) => found,
            Err(cause) => return Err(cause),
        };
        let has_shape = is_wanted(shape, column.shape);
        let fits = self.takes(column, value);
        let has_size = has_size(object, &cell.column, prior);
        judge(has_shape, fits, has_size)
    }

    fn check_sum(&self, cell: &CellName) -> Result<(), Break>
        requires { IsState self.now }
        ensures { result ≡ verdict (first_failed (change_checks self.now (path_of cell.now) (is_wanted Wanted.One) (λ c. is_int c.kind) (has_size None))) }
    {
        let (column, object) = match self.find_column(cell) {
            Ok(found) => found,
            Err(cause) => return Err(cause),
        };
        let has_shape = is_wanted(Wanted::One, column.shape);
        let fits = is_int(&column.kind);
        let has_size = has_size(object, &cell.column, None);
        judge(has_shape, fits, has_size)
    }

    fn check_binding(&self, cell: &CellName, value: &Option<Held>) -> Result<(), Break>
        requires { IsState self.now }
        ensures { (at : List ℕ) → result ≡ verdict (break_of self.now (Change (path_of cell.now) (effects.Bind at value.now))) }
    {
        match value {
            Some(value) => self.check_change(cell, Wanted::Dict, Some(value), None),
            None => self.check_change(cell, Wanted::Dict, None, None),
        }
    }

    fn takes(&self, column: &Column, value: Option<&Held>) -> bool
        ensures { result ≡ takes self.now.tables (option_copied value.entry) column.now }
    {
        match value {
            Some(value) => self.schema.fits(column, value),
            None => true,
        }
    }
}

/// Whether the cell of a column is a list of that length, where one is wanted. Else the cell, which stands, isn't looked for.
fn has_size(object: &Object, column: &Name, prior: Option<u32>) -> bool
    requires { is_some (map.get object.now column.now) ≡ true }
    ensures { result ≡ option_map_or (has_size prior) (map.get object.now column.now) false }
{
    let Some(prior) = prior else {
        return true;
    };
    match object.cell(column) {
        Some(found) => prior as usize == size(found),
        None => false,
    }
}

/// The first of these breaks whose test fails.
fn judge(has_shape: bool, fits: bool, has_size: bool) -> Result<(), Break>
    ensures { result ≡ verdict (first_failed ((has_shape, BreakSeen.WrongShape) ∷ (fits, BreakSeen.WrongKind) ∷ (has_size, BreakSeen.BadPrior) ∷ [])) }
{
    if !has_shape {
        return Err(Break::WrongShape);
    }
    if !fits {
        return Err(Break::WrongKind);
    }
    if !has_size {
        return Err(Break::BadPrior);
    }
    Ok(())
}

/// The number of elements of a list; of another cell none.
fn size(cell: &Cell) -> usize
    ensures { result ≡ size cell.now }
{
    match cell.content() {
        Content::List(list) => list.len(),
        _ => 0,
    }
}

fn is_int(kind: &Kind) -> bool
    ensures { result ≡ is_int kind.now }
{
    match kind {
        Kind::Int => true,
        _ => false,
    }
}

fn is_wanted(wanted: Wanted, shape: Shape) -> bool
    ensures { result ≡ is_wanted wanted shape }
{
    match (wanted, shape) {
        (Wanted::One, Shape::One) => true,
        (Wanted::List, Shape::List) => true,
        (Wanted::Set, Shape::Set) => true,
        (Wanted::Dict, Shape::Dict) => true,
        (Wanted::Collection, Shape::One) => false,
        (Wanted::Collection, _) => true,
        _ => false,
    }
}
