ghost use Rattle.std.specs.Prelude.{◌≡◌, ◌≤◌, ◌&&◌, false, Ok, is_some};
ghost use Rattle.std.specs.Option.{option_copied};
ghost use Rattle.std.specs.FinMap as map;
ghost use Rattle.sync_data.specs.Orders.{name_cmp, key_cmp};
ghost use Rattle.sync_data.specs.Payload.{payload};
ghost use Rattle.sync_base.specs.Effects.{effect_of};
ghost use Rattle.sync_base.specs.States.{IsState, no_state, column_in, cell_at, has};
ghost use Rattle.sync_base.specs.Checks.{break_of};
ghost use Rattle.sync_maps.specs.Next.{IsNext};
ghost use Rattle.sync_store.specs.Asking.{verdict};
ghost use Rattle.sync_store.specs.Applying.{Applies, AppliesAll};
ghost use Rattle.sync_store.specs.Links.{is_resolved};
ghost use Rattle.sync_store.specs.Small.{IsSmallState, most_bytes};

use super::objects::Objects;
use super::parts::Parts;
use super::refusals::{AllRefusal, ApplyRefusal};
use super::undo::let_go;
use std::alloc::Global;
use std::marker::Model;
use sync_base::{Break, Changeset, Instr, Key, Name, NoMemory, Value as Held};
use sync_cells::Cell;
use sync_schema::Schema;

/// The tables with their columns, and the objects with their cells (docs/GUARANTEES.md, "The store").
#[derive(Drop)]
pub struct Store {
    parts: Parts,
}

impl Model for Store {
    ghost use Rattle.sync_base.specs.States.{State, IsState};
    ghost use Rattle.sync_store.specs.Codes.{coded_state};
    ghost use Rattle.sync_store.specs.Small.{IsSmallState};

    ghost Value = { State };

    ghost coded = { coded_state };

    ghost view = { λ a. a.parts };

    ghost invariant = { λ a. IsState a.parts × IsSmallState a.parts };
}

impl Store {
    /// The store without tables.
    pub fn new(alloc: Global) -> Result<Store, NoMemory>
        ensures empty { result ≡ Ok no_state }
    {
        Ok(Store {
            parts: Parts {
                alloc,
                schema: Schema::new(alloc)?,
                objects: Objects::new(alloc),
            },
        })
    }

    /// What every store keeps, whatever was applied: its objects have the cells of their tables' columns; each value has,
    /// with the names and text keys under which it stands, at most 4,194,304 bytes; and each list has at most
    /// 4,294,967,296 elements (docs/GUARANTEES.md, "The store"). It does nothing.
    pub fn keeps_its_limits(&self)
        ensures state { IsState self.now }
        ensures small { IsSmallState self.now }
    {
        let _ = &self.parts;
    }

    /// Whether an instruction acts on the state, or its first break (docs/FORMATS.md, "Outcome lines"). It takes no memory.
    pub fn check(&self, instr: &Instr) -> Result<(), Break>
        ensures first_break { result ≡ verdict (break_of self.now (effect_of instr.now)) }
    {
        self.parts.check(instr)
    }

    /// Applies one instruction, whose payload is at most 4,194,304 bytes. `Break` comes exactly where `check` gives it, and then nothing changes. After `NoMemory`
    /// the store is empty.
    pub fn apply(&mut self, instr: Instr) -> Result<(), ApplyRefusal>
        requires small { payload instr ≤ most_bytes }
        ensures applied { Applies result instr self.old self.new }
    {
        let applied = self.apply_one(&instr);
        let_go(instr);
        applied
    }

    fn apply_one(&mut self, instr: &Instr) -> Result<(), ApplyRefusal>
        requires small { payload instr.now ≤ most_bytes }
        ensures { Applies result instr.now self.old self.new }
    {
        match self.parts.apply(instr) {
            Ok(undo) => {
                let_go(undo);
                Ok(())
            }
            Err(ApplyRefusal::Break(cause)) => Err(ApplyRefusal::Break(cause)),
            Err(ApplyRefusal::NoMemory) => {
                self.parts.clear();
                Err(ApplyRefusal::NoMemory)
            }
        }
    }

    /// Applies the instructions of a transaction one after the other. `Break` comes exactly where one of them doesn't act
    /// after those before it, with the place of the first, and then nothing changes. After `NoMemory` the store is empty.
    pub fn apply_all(&mut self, changes: &Changeset) -> Result<(), AllRefusal>
        ensures applied { AppliesAll result changes.now.instrs self.old self.new }
    {
        match self.parts.put_all(changes.instrs()) {
            Ok(()) => Ok(()),
            Err(AllRefusal::Break { place, cause }) => Err(AllRefusal::Break { place, cause }),
            Err(AllRefusal::NoMemory) => {
                self.parts.clear();
                Err(AllRefusal::NoMemory)
            }
        }
    }

    /// The tables and their columns. It takes no memory.
    pub fn schema(&self) -> &Schema
        ensures { result.now ≡ self.now.tables }
    {
        &self.parts.schema
    }

    /// The cell of an object. It takes no memory.
    pub fn cell(&self, table: &Name, key: &Key, column: &Name) -> Option<&Cell>
        ensures { option_copied result ≡ cell_at self.now (table.now, key.now) column.now }
    {
        self.parts.objects.object(table, key)?.cell(column)
    }

    /// Whether an object stands. It takes no memory.
    pub fn has(&self, table: &Name, key: &Key) -> bool
        ensures { result ≡ has self.now (table.now, key.now) }
    {
        self.parts.objects.object(table, key).is_some()
    }

    /// Whether the value is a link whose object stands. It takes no memory.
    pub fn is_resolved(&self, value: &Held) -> bool
        ensures { result ≡ is_resolved self.now value.now }
    {
        match value {
            Held::Link { table, key } => self.has(table, key),
            _ => false,
        }
    }

    /// The least table name above `after`, or the least of all. It takes no memory.
    pub fn next_table(&self, after: Option<&Name>) -> Option<&Name>
        ensures { IsNext name_cmp (λ t. is_some (map.get self.now.tables t)) (option_copied after.entry) (option_copied result) }
    {
        self.parts.schema.next_table(after)
    }

    /// The least column name of a table above `after`, or the least of all. It takes no memory.
    pub fn next_column(&self, table: &Name, after: Option<&Name>) -> Option<&Name>
        ensures { IsNext name_cmp (λ c. is_some (column_in self.now.tables table.now c)) (option_copied after.entry) (option_copied result) }
    {
        self.parts.schema.next_column(table, after)
    }

    /// The least key of a table's objects above `after`, or the least of all. It takes no memory.
    pub fn next_key(&self, table: &Name, after: Option<&Key>) -> Option<&Key>
        ensures { IsNext key_cmp (λ k. has self.now (table.now, k)) (option_copied after.entry) (option_copied result) }
    {
        self.parts.objects.next_key(table, after)
    }
}
