ghost use Rattle.std.specs.Prelude.{◌≡◌, ◌||◌, List, true, false, Some, IfOk, OnOk};
ghost use Rattle.std.specs.List.{list_any};
ghost use Rattle.sync_data.specs.declared.instr.Instr.{Instr};
ghost use Rattle.sync_base.specs.Effects.{ObjectName, effect_of};
ghost use Rattle.sync_base.specs.Objects.{object_of};
ghost use Rattle.sync_index.specs.Touched.{has_object, may_touch, is_about, is_of_schema, Adds, Covers, ApartFromAll};
ghost use Rattle.sync_index.specs.Spots.{LieAt, Misses};

use super::filter::Filter;
use super::held::Held;
use super::object::object_of;
use std::alloc::Global;
use std::marker::Model;
use sync_base::{Instr, Key, Name, NoMemory};

/// The objects that a list of instructions is about, and whether one of them adds a table or a column.
#[derive(Drop)]
pub struct Index {
    filter: Filter,
    objects: Held,
    schema: bool,
}

impl Model for Index {
    ghost use Rattle.sync_index.specs.Touched.{Touched};
    ghost use Rattle.sync_index.specs.Codes.{coded_touched};

    ghost Value = { Touched };

    ghost coded = { coded_touched };

    ghost use Rattle.sync_index.specs.Filters.{PassesAll};

    ghost view = { λ a. record { objects = a.objects; schema = a.schema } };

    ghost invariant = { λ a. PassesAll a.filter a.objects };
}

impl Index {
    /// The index of a list: the objects of the instructions that have one, and whether one adds a table or a column.
    pub fn of(alloc: Global, instrs: &[Instr]) -> Result<Index, NoMemory>
        ensures objects { IfOk result (λ index. (o : ObjectName) → has_object index o ≡ list_any (is_about o) instrs.now) }
        ensures schema { IfOk result (λ index. index.schema ≡ list_any is_of_schema instrs.now) }
        ensures covers { IfOk result (λ index. Covers index instrs.now) }
    {
        let mut index = Index {
            filter: Filter::new(),
            objects: Held::new(alloc),
            schema: false,
        };
        for instr in instrs {
            index.include(instr)?;
        }
        Ok(index)
    }

    /// Whether the instruction may touch an instruction of the list: its object is there or, where it adds a table or a
    /// column, another of the list does so too. Where it may not, it meets none of them, and none that is left of them:
    /// all stay as they are. It takes no memory.
    #[inline(always)]
    pub fn may_touch(&self, instr: &Instr) -> bool
        ensures value { result ≡ may_touch self.now instr.now }
        ensures apart { result ≡ false → (instrs : List Instr) → Covers self.now instrs → ApartFromAll instr.now instrs }
    {
        match object_of(instr) {
            Some((table, key)) => self.has_object(table, key),
            None => self.schema,
        }
    }

    /// Whether it is plain that none of a list may be touched, by the spot at which all its objects lie: no object is there.
    /// It takes no memory.
    #[inline(always)]
    pub fn passes_over(&self, spot: Option<u8>) -> bool
        ensures { result ≡ true → (instrs : List Instr) → LieAt spot instrs → Misses self.now instrs }
    {
        match spot {
            Some(spot) => !self.filter.is_marked(spot),
            None => false,
        }
    }

    #[inline(always)]
    fn has_object(&self, table: &Name, key: &Key) -> bool
        ensures { result ≡ has_object self.now (table.now, key.now) }
    {
        self.filter.may_hold(key) && self.objects.contains(table, key)
    }

    fn include(&mut self, instr: &Instr) -> Result<(), NoMemory>
        ensures { OnOk result (Adds (object_of (effect_of instr.now)) self.old self.new) }
    {
        let Some((table, key)) = object_of(instr) else {
            self.schema = true;
            return Ok(());
        };
        self.include_object(table, key.copy()?)
    }

    fn include_object(&mut self, table: &Name, key: Key) -> Result<(), NoMemory>
        ensures { OnOk result (Adds (Some (table.now, key)) self.old self.new) }
    {
        self.filter.mark(&key);
        self.objects.put(table, key)
    }
}
