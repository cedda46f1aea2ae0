ghost use Rattle.std.specs.Prelude.{Some, None, true, nat_le, nat_lt};
ghost use Rattle.sync_app.specs.Drafts.{Puts, PutsAt, length_of};

use super::refusal::Refusal;
use super::slots::let_go;
use super::transaction::Transaction;
use sync_base::{
    AddColumn, AddInteger, AddTable, CellName, Clear, Column, CreateObject, DictUpdate,
    EraseObject, Instr, Key, KeyKind, KeyText, ListErase, ListInsert, ListUpdate, Name, SetErase,
    SetInsert, Update, Value,
};

impl Transaction<'_> {
    /// Adds a table with keys of one kind.
    pub fn add_table(&mut self, table: Name, key: KeyKind) -> Result<(), Refusal>
        ensures { Puts result (Instr.AddTable (record { table = table; key = key })) self.old self.new }
    {
        self.put(Instr::AddTable(AddTable { table, key }))
    }

    /// Adds a column to a table. Each object of the table gets the default cell.
    pub fn add_column(&mut self, table: Name, column: Name, def: Column) -> Result<(), Refusal>
        ensures { Puts result (Instr.AddColumn (record { table = table; column = column; def = def })) self.old self.new }
    {
        self.put(Instr::AddColumn(AddColumn { table, column, def }))
    }

    /// Creates an object with default cells. Where it is there, nothing changes.
    pub fn create(&mut self, table: Name, key: Key) -> Result<(), Refusal>
        ensures { Puts result (Instr.CreateObject (record { table = table; key = key })) self.old self.new }
    {
        self.put(Instr::CreateObject(CreateObject { table, key }))
    }

    /// Erases an object.
    pub fn erase(&mut self, table: Name, key: Key) -> Result<(), Refusal>
        ensures { Puts result (Instr.EraseObject (record { table = table; key = key })) self.old self.new }
    {
        self.put(Instr::EraseObject(EraseObject { table, key }))
    }

    /// Sets the value of a cell of one value.
    pub fn set(&mut self, cell: CellName, value: Value) -> Result<(), Refusal>
        ensures { Puts result (Instr.Update (record { cell = cell; value = value })) self.old self.new }
    {
        self.put(Instr::Update(Update { cell, value }))
    }

    /// Adds to an integer cell, modulo 2^64. A null stays null.
    pub fn add(&mut self, cell: CellName, amount: i64) -> Result<(), Refusal>
        ensures { Puts result (Instr.AddInteger (record { cell = cell; amount = amount })) self.old self.new }
    {
        self.put(Instr::AddInteger(AddInteger { cell, amount }))
    }

    /// Inserts a value into a list, before the element at the place, or at the end.
    pub fn insert(&mut self, cell: CellName, place: u32, value: Value) -> Result<(), Refusal>
        ensures { let n = length_of self.old cell in PutsAt result (nat_le place n) place n (Instr.ListInsert (record { cell = cell; spot = record { place = place; prior = n }; value = value })) self.old self.new }
    {
        let spot = match self.gap(&cell, place, &value) {
            Ok(spot) => spot,
            Err(refusal) => {
                let_go((cell, value));
                return Err(refusal);
            }
        };
        self.put(Instr::ListInsert(ListInsert { cell, spot, value }))
    }

    /// Inserts a value at the end of a list.
    pub fn push(&mut self, cell: CellName, value: Value) -> Result<(), Refusal>
        ensures { let n = length_of self.old cell in PutsAt result true n n (Instr.ListInsert (record { cell = cell; spot = record { place = n; prior = n }; value = value })) self.old self.new }
    {
        let spot = match self.end(&cell, &value) {
            Ok(spot) => spot,
            Err(refusal) => {
                let_go((cell, value));
                return Err(refusal);
            }
        };
        self.put(Instr::ListInsert(ListInsert { cell, spot, value }))
    }

    /// Replaces an element of a list.
    pub fn replace(&mut self, cell: CellName, place: u32, value: Value) -> Result<(), Refusal>
        ensures { let n = length_of self.old cell in PutsAt result (nat_lt place n) place n (Instr.ListUpdate (record { cell = cell; spot = record { place = place; prior = n }; value = value })) self.old self.new }
    {
        let spot = match self.element(&cell, place, Some(&value)) {
            Ok(spot) => spot,
            Err(refusal) => {
                let_go((cell, value));
                return Err(refusal);
            }
        };
        self.put(Instr::ListUpdate(ListUpdate { cell, spot, value }))
    }

    /// Removes an element of a list.
    pub fn remove(&mut self, cell: CellName, place: u32) -> Result<(), Refusal>
        ensures { let n = length_of self.old cell in PutsAt result (nat_lt place n) place n (Instr.ListErase (record { cell = cell; spot = record { place = place; prior = n } })) self.old self.new }
    {
        let spot = match self.element(&cell, place, None) {
            Ok(spot) => spot,
            Err(refusal) => {
                let_go(cell);
                return Err(refusal);
            }
        };
        self.put(Instr::ListErase(ListErase { cell, spot }))
    }

    /// Makes a value a member of a set.
    pub fn include(&mut self, cell: CellName, value: Value) -> Result<(), Refusal>
        ensures { Puts result (Instr.SetInsert (record { cell = cell; value = value })) self.old self.new }
    {
        self.put(Instr::SetInsert(SetInsert { cell, value }))
    }

    /// Makes a value no member of a set.
    pub fn exclude(&mut self, cell: CellName, value: Value) -> Result<(), Refusal>
        ensures { Puts result (Instr.SetErase (record { cell = cell; value = value })) self.old self.new }
    {
        self.put(Instr::SetErase(SetErase { cell, value }))
    }

    /// Binds a text key of a dictionary to a value.
    pub fn bind(&mut self, cell: CellName, at: KeyText, value: Value) -> Result<(), Refusal>
        ensures { Puts result (Instr.DictUpdate (record { cell = cell; at = at; value = Some value })) self.old self.new }
    {
        let value = Some(value);
        self.put(Instr::DictUpdate(DictUpdate { cell, at, value }))
    }

    /// Unbinds a text key of a dictionary.
    pub fn unbind(&mut self, cell: CellName, at: KeyText) -> Result<(), Refusal>
        ensures { Puts result (Instr.DictUpdate (record { cell = cell; at = at; value = None })) self.old self.new }
    {
        let value = None;
        self.put(Instr::DictUpdate(DictUpdate { cell, at, value }))
    }

    /// Empties a list, a set or a dictionary.
    pub fn clear(&mut self, cell: CellName) -> Result<(), Refusal>
        ensures { Puts result (Instr.Clear (record { cell = cell })) self.old self.new }
    {
        self.put(Instr::Clear(Clear { cell }))
    }
}
