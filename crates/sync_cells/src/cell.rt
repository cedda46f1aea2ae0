ghost use Rattle.std.specs.Prelude.{◌≡◌, true, false, IfOk, IfErr, OnOk, OnErr, if◌then◌else◌};
ghost use Rattle.sync_base.specs.States.{One, cell_rank};
ghost use Rattle.sync_base.specs.Effects.{Set, Add, Empty};
ghost use Rattle.sync_base.specs.After.{default_of, edited, added, sum64, zero_of};
ghost use Rattle.sync_base.specs.Checks.{has_shape};
ghost use Rattle.sync_data.specs.declared.value.Value.TheVariants.{Null};
ghost use Rattle.sync_cells.specs.Contents.{content_seen};
ghost use Rattle.sync_cells.specs.Refusals.{shape_answer, sum_refusal, is_summand, answer_of};

use super::content::Content;
use super::refusal::{CellRefusal, WrongShape};
use std::alloc::Global;
use std::collections::{BTreeMap, BTreeSet};
use std::marker::Model;
use std::mem;
use sum_list::SumList;
use sync_base::{Blob, Column, Kind, NoMemory, Shape, Text, Time, Value as Held};

/// A cell: one value, a list of values, a set of values, or a dictionary from text keys to values.
#[derive(Drop)]
pub struct Cell {
    pub(crate) alloc: Global,
    pub(crate) content: Content,
}

impl Model for Cell {
    ghost use Rattle.sync_base.specs.States.{Cell};
    ghost use Rattle.sync_cells.specs.Codes.{coded_cell};

    ghost Value = { Cell };

    ghost coded = { coded_cell };

    ghost use Rattle.sync_cells.specs.Contents.{content_seen};

    ghost view = { λ a. content_seen a.content };
}

impl Cell {
    /// The default cell of a column: null where it is nullable and single, else 0, false, empty, the time 0, or the zero uuid.
    pub fn default_of(alloc: Global, column: &Column) -> Result<Cell, NoMemory>
        ensures { IfOk result (λ cell. cell ≡ default_of column.now) }
    {
        let content = match column.shape {
            Shape::One => Content::One(default_value(alloc, column)?),
            Shape::List => Content::List(SumList::new(alloc)),
            Shape::Set => Content::Set(BTreeSet::new(alloc)),
            Shape::Dict => Content::Dict(BTreeMap::new(alloc)),
        };
        Ok(Cell { alloc, content })
    }

    /// What the cell holds.
    pub fn content(&self) -> &Content
        ensures { content_seen result.now ≡ self.now }
    {
        &self.content
    }

    /// An equal cell.
    pub fn copy(&self) -> Result<Cell, NoMemory>
        ensures equal { IfOk result (λ copy. copy ≡ self.now) }
    {
        let content = match &self.content {
            Content::One(value) => Content::One(value.copy()?),
            Content::List(list) => match list.copy() {
                Ok(list) => Content::List(list),
                Err(_) => return Err(NoMemory),
            },
            Content::Set(set) => match set.clone() {
                Ok(set) => Content::Set(set),
                Err(_) => return Err(NoMemory),
            },
            Content::Dict(dict) => match dict.clone() {
                Ok(dict) => Content::Dict(dict),
                Err(_) => return Err(NoMemory),
            },
        };
        Ok(Cell {
            alloc: self.alloc,
            content,
        })
    }

    /// Sets the value of a single cell. `WrongShape` comes exactly where the cell isn't single. It takes no memory.
    pub fn set(&mut self, value: Held) -> Result<(), WrongShape>
        ensures ok { OnOk result (self.new ≡ edited (Set value) self.old) }
        ensures unchanged { OnErr result (self.new ≡ self.old) }
        ensures answer { result ≡ shape_answer (has_shape (Set value) (cell_rank self.old)) }
    {
        let _ = self.replace(value)?;
        Ok(())
    }

    /// `set`, which hands the value before back.
    pub(crate) fn replace(&mut self, value: Held) -> Result<Held, WrongShape>
        ensures ok { IfOk result (λ before. (self.old ≡ One before) × (self.new ≡ One value)) }
        ensures unchanged { OnErr result (self.new ≡ self.old) }
        ensures refused { OnErr result (has_shape (Set value) (cell_rank self.old) ≡ false) }
    {
        match &mut self.content {
            Content::One(held) => Ok(mem::replace(held, value)),
            _ => Err(WrongShape),
        }
    }

    /// Adds to the integer of a single cell, modulo 2^64; a null stays null. `WrongShape` comes exactly where the cell
    /// isn't single, then `WrongKind` exactly where it holds neither an integer nor null. It takes no memory.
    pub fn add(&mut self, amount: i64) -> Result<(), CellRefusal>
        ensures ok { OnOk result (self.new ≡ edited (Add amount) self.old) }
        ensures unchanged { OnErr result (self.new ≡ self.old) }
        ensures answer { result ≡ answer_of (sum_refusal self.old) }
    {
        let _ = self.replace_sum(amount)?;
        Ok(())
    }

    /// `add`, which hands the value before back.
    pub(crate) fn replace_sum(&mut self, amount: i64) -> Result<Held, CellRefusal>
        ensures ok { IfOk result (λ before. (self.old ≡ One before) × (self.new ≡ edited (Add amount) self.old) × (sum_refusal self.old ≡ None)) }
        ensures unchanged { OnErr result (self.new ≡ self.old) }
        ensures refused { IfErr result (λ e. sum_refusal self.old ≡ Some e) }
    {
        let Content::One(held) = &mut self.content else {
            return Err(CellRefusal::WrongShape);
        };
        let sum = added_to(held, amount)?;
        Ok(mem::replace(held, sum))
    }

    /// Empties a list, a set or a dictionary. `WrongShape` comes exactly where the cell is single. It takes no memory.
    pub fn clear(&mut self) -> Result<(), WrongShape>
        ensures ok { OnOk result (self.new ≡ edited Empty self.old) }
        ensures unchanged { OnErr result (self.new ≡ self.old) }
        ensures answer { result ≡ shape_answer (has_shape Empty (cell_rank self.old)) }
    {
        let _ = self.take_content()?;
        Ok(())
    }

    /// `clear`, which hands the content before back.
    pub(crate) fn take_content(&mut self) -> Result<Content, WrongShape>
        ensures ok { IfOk result (λ before. (self.old ≡ content_seen before) × (self.new ≡ edited Empty self.old) × (has_shape Empty (cell_rank self.old) ≡ true)) }
        ensures unchanged { OnErr result (self.new ≡ self.old) }
        ensures refused { OnErr result (has_shape Empty (cell_rank self.old) ≡ false) }
    {
        let empty = match &self.content {
            Content::One(_) => return Err(WrongShape),
            Content::List(_) => Content::List(SumList::new(self.alloc)),
            Content::Set(_) => Content::Set(BTreeSet::new(self.alloc)),
            Content::Dict(_) => Content::Dict(BTreeMap::new(self.alloc)),
        };
        Ok(mem::replace(&mut self.content, empty))
    }
}

/// The value with that amount added.
fn added_to(held: &Held, amount: i64) -> Result<Held, CellRefusal>
    ensures ok { IfOk result (λ sum. (sum ≡ added amount held.now) × (is_summand held.now ≡ true)) }
    ensures refused { IfErr result (λ e. (e ≡ CellRefusal.WrongKind) × (is_summand held.now ≡ false)) }
{
    match held {
        Held::Int(number) => Ok(Held::Int(sum_of(*number, amount))),
        Held::Null => Ok(Held::Null),
        _ => Err(CellRefusal::WrongKind),
    }
}

fn sum_of(number: i64, amount: i64) -> i64
    ensures { result ≡ sum64 number amount }
{
    number.wrapping_add(amount)
}

fn default_value(alloc: Global, column: &Column) -> Result<Held, NoMemory>
    ensures { IfOk result (λ value. value ≡ (if column.now.nullable then Null else zero_of column.now.kind)) }
{
    if column.nullable {
        return Ok(Held::Null);
    }
    zero_value(alloc, &column.kind)
}

fn zero_value(alloc: Global, kind: &Kind) -> Result<Held, NoMemory>
    ensures { IfOk result (λ value. value ≡ zero_of kind.now) }
{
    match kind {
        Kind::Int => Ok(Held::Int(0)),
        Kind::Bool => Ok(Held::Bool(false)),
        Kind::Text => Ok(Held::Text(Text::new(alloc, "")?)),
        Kind::Bytes => Ok(Held::Bytes(Blob::new(alloc, b"")?)),
        Kind::Time => match Time::new(0, 0) {
            Ok(time) => Ok(Held::Time(time)),
            Err(_) => unreachable!(),
        },
        Kind::Uuid => Ok(Held::Uuid([0; 16])),
        Kind::Link(_) => Ok(Held::Null),
    }
}
