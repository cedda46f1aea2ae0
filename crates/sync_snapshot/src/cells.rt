ghost use Rattle.std.specs.Prelude.{◌≡◌, ◌+◌, ◌^◌, ◌<◌, ◌++◌, ◌∷◌, [], Some, length, IfOk, OnOk};
ghost use Rattle.std.specs.FinMap as fin;
ghost use Rattle.std.specs.FinSet as set;
ghost use Rattle.sync_data.specs.Orders.{name_cmp};
ghost use Rattle.sync_base.specs.After.{default_of};
ghost use Rattle.sync_base.specs.Effects.{Insert, Include, Bind, path_of};
ghost use Rattle.sync_base.specs.States.{Members, Dict};
ghost use Rattle.snapshot_law.specs.Build.{insertions, is_default, edits_of};
ghost use Rattle.sync_snapshot.specs.Lists.{edit_instrs};

use super::schema::put;
use std::alloc::Global;
use std::collections::{BTreeMap, BTreeSet};
use sum_list::SumList;
use sync_base::{
    Between, CellName, Column, DictUpdate, Instr, KeyText, ListInsert, NoMemory, SetInsert, Update,
    Value,
};
use sync_cells::{Cell, Content, Element};

/// Puts what makes a cell of the default one.
pub(crate) fn put_content(
    alloc: Global,
    list: &mut Vec<Instr>,
    name: &CellName,
    def: &Column,
    cell: &Cell,
) -> Result<(), NoMemory>
    ensures { OnOk result (list.new.items ≡ list.old.items ++ edit_instrs (path_of name.now) (edits_of (default_of def.now) cell.now)) }
{
    match cell.content() {
        Content::One(value) => {
            if is_default(alloc, def, value)? {
                return Ok(());
            }
            let cell = name.copy()?;
            let value = value.copy()?;
            put(list, Instr::Update(Update { cell, value }))
        }
        Content::List(items) => put_elements(list, name, items),
        Content::Set(values) => put_members(list, name, values),
        Content::Dict(bindings) => put_bindings(list, name, bindings),
    }
}

/// Whether the value is that of the default cell.
fn is_default(alloc: Global, def: &Column, value: &Value) -> Result<bool, NoMemory>
    ensures { IfOk result (λ is. is ≡ is_default value.now (default_of def.now)) }
{
    let default = Cell::default_of(alloc, def)?;
    match default.content() {
        Content::One(first) => Ok(value == first),
        _ => Ok(false),
    }
}

/// Puts an insertion of each element, at its place.
fn put_elements(
    list: &mut Vec<Instr>,
    name: &CellName,
    items: &SumList<Element>,
) -> Result<(), NoMemory>
    ensures { OnOk result (list.new.items ≡ list.old.items ++ edit_instrs (path_of name.now) (insertions 0 items.now)) }
{
    let mut place = 0;
    while place < items.len() {
        let run = items.run_from(place);
        put_run(list, name, place, run)?;
        place += run.len();
    }
    Ok(())
}

/// Puts an insertion of each of the elements that follow each other from a place on.
fn put_run(
    list: &mut Vec<Instr>,
    name: &CellName,
    first: usize,
    run: &[Element],
) -> Result<(), NoMemory>
    requires { first + length run.now < 2 ^ 32 }
    ensures { OnOk result (list.new.items ≡ list.old.items ++ edit_instrs (path_of name.now) (insertions first run.now)) }
{
    for (i, element) in run.iter().enumerate() {
        put_element(list, name, (first + i) as u32, element.value())?;
    }
    Ok(())
}

fn put_element(
    list: &mut Vec<Instr>,
    name: &CellName,
    place: u32,
    value: &Value,
) -> Result<(), NoMemory>
    ensures { OnOk result (list.new.items ≡ list.old.items ++ edit_instrs (path_of name.now) (Insert (record { place = place; prior = place }) value.now ∷ [])) }
{
    let Ok(spot) = Between::new(place, place) else {
        unreachable!();
    };
    let cell = name.copy()?;
    let value = value.copy()?;
    put(list, Instr::ListInsert(ListInsert { cell, spot, value }))
}

fn put_members(
    list: &mut Vec<Instr>,
    name: &CellName,
    values: &BTreeSet<Value>,
) -> Result<(), NoMemory>
    ensures { OnOk result (list.new.items ≡ list.old.items ++ edit_instrs (path_of name.now) (edits_of (Members set.empty) (Members (set.from_list values.now.keys)))) }
{
    for value in values {
        put_member(list, name, value)?;
    }
    Ok(())
}

fn put_member(list: &mut Vec<Instr>, name: &CellName, value: &Value) -> Result<(), NoMemory>
    ensures { OnOk result (list.new.items ≡ list.old.items ++ edit_instrs (path_of name.now) (Include value.now ∷ [])) }
{
    let cell = name.copy()?;
    let value = value.copy()?;
    put(list, Instr::SetInsert(SetInsert { cell, value }))
}

fn put_bindings(
    list: &mut Vec<Instr>,
    name: &CellName,
    bindings: &BTreeMap<KeyText, Value>,
) -> Result<(), NoMemory>
    ensures { OnOk result (list.new.items ≡ list.old.items ++ edit_instrs (path_of name.now) (edits_of (Dict fin.empty) (Dict (fin.from_entries {R = name_cmp} bindings.now.entries)))) }
{
    for (at, value) in bindings {
        put_binding(list, name, at, value)?;
    }
    Ok(())
}

fn put_binding(
    list: &mut Vec<Instr>,
    name: &CellName,
    at: &KeyText,
    value: &Value,
) -> Result<(), NoMemory>
    ensures { OnOk result (list.new.items ≡ list.old.items ++ edit_instrs (path_of name.now) (Bind at.now (Some value.now) ∷ [])) }
{
    let cell = name.copy()?;
    let at = at.copy()?;
    let value = Some(value.copy()?);
    put(list, Instr::DictUpdate(DictUpdate { cell, at, value }))
}
