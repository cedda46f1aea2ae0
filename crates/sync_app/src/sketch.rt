ghost use Rattle.std.specs.Prelude.{◌≡◌, ◌<◌, false, Some, None, IfOk, OnOk, OnErr};
ghost use Rattle.sync_base.specs.Checks.{size};
ghost use Rattle.sync_base.specs.Effects.{effect_of, path_of};
ghost use Rattle.sync_base.specs.States.{IsState};

use std::alloc::Global;
use std::collections::BTreeMap;
use sync_base::{AddColumn, AddTable, CellName, Instr, Key, Name, NoMemory};
use sync_cells::{Cell, Content};
use sync_schema::Schema;
use sync_store::Store;

/// An object, by its table and its key.
pub(crate) type ObjectKey = (Name, Key);

/// A cell, by its object and its column.
pub(crate) type CellKey = ((Name, Key), Name);

/// Whether an object stands that was created or erased, and since which instruction, counted from 1.
#[derive(Clone, Copy)]
pub(crate) struct Standing {
    pub(crate) stands: bool,
    pub(crate) life: usize,
}

/// How long a list became, and in which life of its object: the life of its `Standing`, or 0.
#[derive(Clone, Copy)]
pub(crate) struct Length {
    pub(crate) life: usize,
    pub(crate) len: usize,
}

/// What instructions change of objects, as far as it decides whether a further one acts: the tables, which objects stand,
/// and how long lists are.
#[derive(Drop)]
pub(crate) struct Sketch<'a> {
    pub(crate) objects: &'a Store,
    pub(crate) schema: Option<Schema>,
    pub(crate) standings: BTreeMap<ObjectKey, Standing>,
    pub(crate) lengths: BTreeMap<CellKey, Length>,
}

impl<'a> Sketch<'a> {
    ghost use Rattle.sync_app.specs.Sketches.{IsSketchOf, ShowsSame, Takes, base_of, birth, first_size, life_in, note_of, size_in, size_note, stands_in, tables_in};
    ghost use Rattle.sync_app.specs.Notes as notes;

    /// Nothing has changed.
    pub(crate) fn new(alloc: Global, objects: &'a Store) -> Sketch<'a>
        requires { IsState objects.now }
        ensures base { base_of result ≡ objects.now }
        ensures sketch { IsSketchOf result objects.now 0 }
    {
        Sketch {
            objects,
            schema: None,
            standings: BTreeMap::new(alloc),
            lengths: BTreeMap::new(alloc),
        }
    }

    /// The tables and their columns.
    pub(crate) fn schema(&self) -> &Schema
        ensures { result.now ≡ tables_in self.now }
    {
        match &self.schema {
            Some(schema) => schema,
            None => self.objects.schema(),
        }
    }

    /// Whether an object stands.
    pub(crate) fn stands(&self, object: &ObjectKey) -> bool
        ensures { result ≡ stands_in self.now object.now }
    {
        match self.standings.get(object) {
            Some(standing) => standing.stands,
            None => self.objects.has(&object.0, &object.1),
        }
    }

    /// Since which instruction an object has its cells, or 0 where it has them from before all.
    pub(crate) fn life(&self, object: &ObjectKey) -> usize
        ensures { result ≡ life_in self.now object.now }
    {
        match self.standings.get(object) {
            Some(standing) => standing.life,
            None => 0,
        }
    }

    /// How many elements the list of a cell has; 0 for a cell that is no list.
    pub(crate) fn size(&self, cell: &CellKey) -> usize
        ensures { result ≡ size_in self.now cell.now }
    {
        let life = self.life(&cell.0);
        match self.lengths.get(cell) {
            Some(length) => {
                if length.life == life {
                    length.len
                } else {
                    self.first_size(cell, life)
                }
            }
            None => self.first_size(cell, life),
        }
    }

    /// How many elements the list had in the beginning of that life.
    fn first_size(&self, cell: &CellKey, life: usize) -> usize
        ensures { result ≡ first_size (base_of self.now) cell.now life }
    {
        if life != 0 {
            return 0;
        }
        match self.objects.cell(&cell.0.0, &cell.0.1, &cell.1) {
            Some(found) => size_of(found),
            None => 0,
        }
    }

    /// Follows an instruction that acts, and comes after so many others. Where memory is wanting, the sketch shows what it
    /// showed.
    pub(crate) fn follow(&mut self, instr: &Instr, count: usize) -> Result<(), NoMemory>
        requires { count < 65536 }
        ensures taken { OnOk result (Takes (note_of self.old count (effect_of instr.now)) self.old self.new) }
        ensures unchanged { OnErr result (ShowsSame self.old self.new) }
    {
        match instr {
            Instr::AddTable(i) => self.add_table(i),
            Instr::AddColumn(i) => self.add_column(i),
            Instr::CreateObject(i) => self.create(&i.table, &i.key, count + 1),
            Instr::EraseObject(i) => self.erase(&i.table, &i.key, count + 1),
            Instr::ListInsert(i) => self.resize(&i.cell, i.spot.prior() as usize + 1),
            Instr::ListErase(i) => self.resize(&i.cell, i.spot.prior().saturating_sub(1) as usize),
            Instr::Clear(i) => self.resize(&i.cell, 0),
            _ => Ok(()),
        }
    }

    fn add_table(&mut self, add: &AddTable) -> Result<(), NoMemory>
        ensures taken { OnOk result (Takes (notes.Table add.now) self.old self.new) }
        ensures unchanged { OnErr result (ShowsSame self.old self.new) }
    {
        let add = AddTable {
            table: add.table.copy()?,
            key: add.key,
        };
        let mut schema = self.take_schema()?;
        let added = schema.add_table(add).is_ok();
        self.schema = Some(schema);
        if added { Ok(()) } else { Err(NoMemory) }
    }

    fn add_column(&mut self, add: &AddColumn) -> Result<(), NoMemory>
        ensures taken { OnOk result (Takes (notes.Column add.now) self.old self.new) }
        ensures unchanged { OnErr result (ShowsSame self.old self.new) }
    {
        let add = AddColumn {
            table: add.table.copy()?,
            column: add.column.copy()?,
            def: add.def.copy()?,
        };
        let mut schema = self.take_schema()?;
        let added = schema.add_column(add).is_ok();
        self.schema = Some(schema);
        if added { Ok(()) } else { Err(NoMemory) }
    }

    fn create(&mut self, table: &Name, key: &Key, life: usize) -> Result<(), NoMemory>
        ensures taken { OnOk result (Takes (birth self.old (table.now, key.now) life) self.old self.new) }
        ensures unchanged { OnErr result (ShowsSame self.old self.new) }
    {
        let object = object_key(table, key)?;
        if self.stands(&object) {
            return Ok(());
        }
        let stands = true;
        self.note_standing(object, Standing { stands, life })
    }

    fn erase(&mut self, table: &Name, key: &Key, life: usize) -> Result<(), NoMemory>
        ensures taken { OnOk result (Takes (notes.Object (table.now, key.now) (record { stands = false; life = life })) self.old self.new) }
        ensures unchanged { OnErr result (ShowsSame self.old self.new) }
    {
        let object = object_key(table, key)?;
        let stands = false;
        self.note_standing(object, Standing { stands, life })
    }

    fn note_standing(&mut self, object: ObjectKey, standing: Standing) -> Result<(), NoMemory>
        ensures taken { OnOk result (Takes (notes.Object object standing) self.old self.new) }
        ensures unchanged { OnErr result (ShowsSame self.old self.new) }
    {
        match self.standings.insert(object, standing) {
            Ok(_) => Ok(()),
            Err(_) => Err(NoMemory),
        }
    }

    fn resize(&mut self, cell: &CellName, len: usize) -> Result<(), NoMemory>
        ensures taken { OnOk result (Takes (size_note self.old (path_of cell.now) len) self.old self.new) }
        ensures unchanged { OnErr result (ShowsSame self.old self.new) }
    {
        let cell = cell_key(cell)?;
        let life = self.life(&cell.0);
        self.note_length(cell, Length { life, len })
    }

    fn note_length(&mut self, cell: CellKey, length: Length) -> Result<(), NoMemory>
        ensures taken { OnOk result (Takes (notes.List cell length) self.old self.new) }
        ensures unchanged { OnErr result (ShowsSame self.old self.new) }
    {
        match self.lengths.insert(cell, length) {
            Ok(_) => Ok(()),
            Err(_) => Err(NoMemory),
        }
    }

    /// The tables, taken out to be changed; a copy of those of the objects where none were changed yet.
    fn take_schema(&mut self) -> Result<Schema, NoMemory>
        ensures schema { IfOk result (λ schema. schema ≡ tables_in self.old) }
        ensures taken { OnOk result (self.new ≡ record self.old { schema = None }) }
        ensures unchanged { OnErr result (self.new ≡ self.old) }
    {
        match self.schema.take() {
            Some(schema) => Ok(schema),
            None => self.objects.schema().copy(),
        }
    }
}

/// How many elements a list has; 0 for a cell that is no list.
fn size_of(cell: &Cell) -> usize
    ensures { result ≡ size cell.now }
{
    match cell.content() {
        Content::List(items) => items.len(),
        _ => 0,
    }
}

/// The key of a cell's name.
pub(crate) fn cell_key(cell: &CellName) -> Result<CellKey, NoMemory>
    ensures { IfOk result (λ found. found ≡ path_of cell.now) }
{
    let object = object_key(&cell.table, &cell.key)?;
    Ok((object, cell.column.copy()?))
}

/// The key of an object's name.
pub(crate) fn object_key(table: &Name, key: &Key) -> Result<ObjectKey, NoMemory>
    ensures { IfOk result (λ found. found ≡ (table.now, key.now)) }
{
    Ok((table.copy()?, key.copy()?))
}
