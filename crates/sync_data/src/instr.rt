ghost use Rattle.std.specs.Prelude.{◌≡◌, IfOk};

use super::column::Column;
use super::key::{Key, KeyKind};
use super::key_text::KeyText;
use super::memory::NoMemory;
use super::name::Name;
use super::places::{Between, Inside};
use super::value::Value;
use std::alloc::AllocError;

/// The name of a cell: an object and a column of its table.
#[derive(PartialEq, Eq)]
pub struct CellName {
    pub table: Name,
    pub key: Key,
    pub column: Name,
}

impl Drop for CellName {
    fn drop(self) {
        let CellName {
            table: _,
            key: _,
            column: _,
        } = self;
    }
}

impl CellName {
    /// An equal name.
    pub fn copy(&self) -> Result<CellName, NoMemory>
        ensures equal { IfOk result (λ copy. copy ≡ self.now) }
    {
        Ok(CellName {
            table: self.table.copy()?,
            key: self.key.copy()?,
            column: self.column.copy()?,
        })
    }
}

/// Adds a table with keys of one kind, without columns.
#[derive(Drop)]
pub struct AddTable {
    pub table: Name,
    pub key: KeyKind,
}

/// Adds a column to a table. Each object of the table gets the default cell.
#[derive(Drop)]
pub struct AddColumn {
    pub table: Name,
    pub column: Name,
    pub def: Column,
}

/// Creates an object with default cells. Where it is there, nothing changes.
pub struct CreateObject {
    pub table: Name,
    pub key: Key,
}

impl Drop for CreateObject {
    fn drop(self) {
        let CreateObject { table: _, key: _ } = self;
    }
}

/// Erases an object.
pub struct EraseObject {
    pub table: Name,
    pub key: Key,
}

impl Drop for EraseObject {
    fn drop(self) {
        let EraseObject { table: _, key: _ } = self;
    }
}

/// Sets the value of a cell of one value.
pub struct Update {
    pub cell: CellName,
    pub value: Value,
}

impl Drop for Update {
    fn drop(self) {
        let Update { cell: _, value: _ } = self;
    }
}

/// Adds to an integer cell, modulo 2^64. A null stays null.
pub struct AddInteger {
    pub cell: CellName,
    pub amount: i64,
}

impl Drop for AddInteger {
    fn drop(self) {
        let AddInteger { cell: _, amount: _ } = self;
    }
}

/// Replaces an element of a list.
pub struct ListUpdate {
    pub cell: CellName,
    pub spot: Inside,
    pub value: Value,
}

impl Drop for ListUpdate {
    fn drop(self) {
        let ListUpdate {
            cell: _,
            spot: _,
            value: _,
        } = self;
    }
}

/// Inserts a value into a list, before the element at the place, or at the end.
pub struct ListInsert {
    pub cell: CellName,
    pub spot: Between,
    pub value: Value,
}

impl Drop for ListInsert {
    fn drop(self) {
        let ListInsert {
            cell: _,
            spot: _,
            value: _,
        } = self;
    }
}

/// Removes an element of a list.
pub struct ListErase {
    pub cell: CellName,
    pub spot: Inside,
}

impl Drop for ListErase {
    fn drop(self) {
        let ListErase { cell: _, spot: _ } = self;
    }
}

/// Makes a value a member of a set.
pub struct SetInsert {
    pub cell: CellName,
    pub value: Value,
}

impl Drop for SetInsert {
    fn drop(self) {
        let SetInsert { cell: _, value: _ } = self;
    }
}

/// Makes a value no member of a set.
pub struct SetErase {
    pub cell: CellName,
    pub value: Value,
}

impl Drop for SetErase {
    fn drop(self) {
        let SetErase { cell: _, value: _ } = self;
    }
}

/// Binds a text key of a dictionary to a value, or unbinds it where there is none.
pub struct DictUpdate {
    pub cell: CellName,
    pub at: KeyText,
    pub value: Option<Value>,
}

impl Drop for DictUpdate {
    fn drop(self) {
        let DictUpdate {
            cell: _,
            at: _,
            value: _,
        } = self;
    }
}

/// Empties a list, a set or a dictionary.
pub struct Clear {
    pub cell: CellName,
}

impl Drop for Clear {
    fn drop(self) {
        let Clear { cell: _ } = self;
    }
}

/// One instruction.
#[derive(Drop)]
pub enum Instr {
    AddTable(AddTable),
    AddColumn(AddColumn),
    CreateObject(CreateObject),
    EraseObject(EraseObject),
    Update(Update),
    AddInteger(AddInteger),
    ListUpdate(ListUpdate),
    ListInsert(ListInsert),
    ListErase(ListErase),
    SetInsert(SetInsert),
    SetErase(SetErase),
    DictUpdate(DictUpdate),
    Clear(Clear),
}

impl Instr {
    /// An equal instruction.
    pub fn copy(&self) -> Result<Instr, NoMemory>
        ensures equal { IfOk result (λ copy. copy ≡ self.now) }
    {
        match self {
            Instr::AddTable(i) => Ok(Instr::AddTable(AddTable {
                table: i.table.copy()?,
                key: i.key,
            })),
            Instr::AddColumn(i) => Ok(Instr::AddColumn(AddColumn {
                table: i.table.copy()?,
                column: i.column.copy()?,
                def: i.def.copy()?,
            })),
            Instr::CreateObject(i) => Ok(Instr::CreateObject(CreateObject {
                table: i.table.copy()?,
                key: i.key.copy()?,
            })),
            Instr::EraseObject(i) => Ok(Instr::EraseObject(EraseObject {
                table: i.table.copy()?,
                key: i.key.copy()?,
            })),
            Instr::Update(i) => Ok(Instr::Update(Update {
                cell: i.cell.copy()?,
                value: i.value.copy()?,
            })),
            Instr::AddInteger(i) => Ok(Instr::AddInteger(AddInteger {
                cell: i.cell.copy()?,
                amount: i.amount,
            })),
            Instr::ListUpdate(i) => Ok(Instr::ListUpdate(ListUpdate {
                cell: i.cell.copy()?,
                spot: i.spot,
                value: i.value.copy()?,
            })),
            Instr::ListInsert(i) => Ok(Instr::ListInsert(ListInsert {
                cell: i.cell.copy()?,
                spot: i.spot,
                value: i.value.copy()?,
            })),
            Instr::ListErase(i) => Ok(Instr::ListErase(ListErase {
                cell: i.cell.copy()?,
                spot: i.spot,
            })),
            Instr::SetInsert(i) => Ok(Instr::SetInsert(SetInsert {
                cell: i.cell.copy()?,
                value: i.value.copy()?,
            })),
            Instr::SetErase(i) => Ok(Instr::SetErase(SetErase {
                cell: i.cell.copy()?,
                value: i.value.copy()?,
            })),
            Instr::DictUpdate(i) => Ok(Instr::DictUpdate(DictUpdate {
                cell: i.cell.copy()?,
                at: i.at.copy()?,
                value: copy_binding(&i.value)?,
            })),
            Instr::Clear(i) => Ok(Instr::Clear(Clear {
                cell: i.cell.copy()?,
            })),
        }
    }
}

fn copy_binding(value: &Option<Value>) -> Result<Option<Value>, NoMemory>
    ensures equal { IfOk result (λ copy. copy ≡ value.now) }
{
    match value {
        Some(value) => Ok(Some(value.copy()?)),
        None => Ok(None),
    }
}

impl Clone for Instr {
    ghost is_clone = { λ x y. y ≡ x };

    ghost is_infallible = { λ _. ⊥ };

    fn clone(&self) -> Result<Instr, AllocError> {
        match self.copy() {
            Ok(copy) => Ok(copy),
            Err(_) => Err(AllocError),
        }
    }
}
