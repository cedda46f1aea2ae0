ghost use Rattle.std.specs.Prelude.{◌≡◌};
ghost use Rattle.sync_value_text.specs.Forms.{Decides, Reads};
ghost use Rattle.sync_edits.specs.Objects.{key_kind_of_word, cell_form, inside_form, between_form, add_table_form, add_column_form, create_object_form, erase_object_form, update_form, add_integer_form, list_update_form, list_insert_form, list_erase_form, set_insert_form, set_erase_form, dict_update_form, dict_erase_form, clear_form};
ghost use Rattle.serde_json.specs.View.{view};

use serde_json::Value as Json;
use std::alloc::Global;
use sync_data::{
    AddColumn, AddInteger, AddTable, Between, CellName, Clear, CreateObject, DictUpdate,
    EraseObject, Inside, Instr, KeyKind, ListErase, ListInsert, ListUpdate, SetErase, SetInsert,
    Update,
};
use sync_value_text::{
    TextRefusal, column_beside, exactly, int_field, key_field, key_text_field, name_field,
    place_field, text_field, value_field,
};

#[tactic(auto, unfolding(crate::specs::Objects::key_kind_of_word))]
fn key_kind(word: &str) -> Option<KeyKind>
    ensures { result ≡ key_kind_of_word word.now }
{
    match word {
        "Int" => Some(KeyKind::Int),
        "Text" => Some(KeyKind::Text),
        "Uuid" => Some(KeyKind::Uuid),
        _ => None,
    }
}

#[tactic(auto, unfolding(crate::specs::Objects::cell_form))]
fn cell_of(alloc: Global, json: &Json) -> Result<CellName, TextRefusal>
    ensures { Reads result (cell_form (view json.now)) }
{
    let table = name_field(json, "table")?;
    let key = key_field(alloc, json, "key")?;
    let column = name_field(json, "column")?;
    Ok(CellName { table, key, column })
}

#[tactic(auto, unfolding(crate::specs::Objects::inside_form))]
fn inside_of(json: &Json) -> Result<Inside, TextRefusal>
    ensures { Decides result (inside_form (view json.now)) }
{
    let place = place_field(json, "place")?;
    let prior = place_field(json, "prior")?;
    match Inside::new(place, prior) {
        Ok(spot) => Ok(spot),
        Err(_) => Err(TextRefusal::BadValue),
    }
}

#[tactic(auto, unfolding(crate::specs::Objects::between_form))]
fn between_of(json: &Json) -> Result<Between, TextRefusal>
    ensures { Decides result (between_form (view json.now)) }
{
    let place = place_field(json, "place")?;
    let prior = place_field(json, "prior")?;
    match Between::new(place, prior) {
        Ok(spot) => Ok(spot),
        Err(_) => Err(TextRefusal::BadValue),
    }
}

#[tactic(auto, unfolding(crate::specs::Objects::add_table_form))]
pub(crate) fn add_table(json: &Json) -> Result<Instr, TextRefusal>
    ensures { Decides result (add_table_form (view json.now)) }
{
    exactly(json, 3)?;
    let table = name_field(json, "table")?;
    let word = text_field(json, "key")?;
    let key = key_kind(word).ok_or(TextRefusal::BadValue)?;
    Ok(Instr::AddTable(AddTable { table, key }))
}

#[tactic(auto, unfolding(crate::specs::Objects::add_column_form))]
pub(crate) fn add_column(json: &Json) -> Result<Instr, TextRefusal>
    ensures { Decides result (add_column_form (view json.now)) }
{
    let table = name_field(json, "table")?;
    let column = name_field(json, "column")?;
    let def = column_beside(json, 3)?;
    Ok(Instr::AddColumn(AddColumn { table, column, def }))
}

#[tactic(auto, unfolding(crate::specs::Objects::create_object_form))]
pub(crate) fn create_object(alloc: Global, json: &Json) -> Result<Instr, TextRefusal>
    ensures { Reads result (create_object_form (view json.now)) }
{
    exactly(json, 3)?;
    let table = name_field(json, "table")?;
    let key = key_field(alloc, json, "key")?;
    Ok(Instr::CreateObject(CreateObject { table, key }))
}

#[tactic(auto, unfolding(crate::specs::Objects::erase_object_form))]
pub(crate) fn erase_object(alloc: Global, json: &Json) -> Result<Instr, TextRefusal>
    ensures { Reads result (erase_object_form (view json.now)) }
{
    exactly(json, 3)?;
    let table = name_field(json, "table")?;
    let key = key_field(alloc, json, "key")?;
    Ok(Instr::EraseObject(EraseObject { table, key }))
}

#[tactic(auto, unfolding(crate::specs::Objects::update_form))]
pub(crate) fn update(alloc: Global, json: &Json) -> Result<Instr, TextRefusal>
    ensures { Reads result (update_form (view json.now)) }
{
    exactly(json, 5)?;
    let cell = cell_of(alloc, json)?;
    let value = value_field(alloc, json, "value")?;
    Ok(Instr::Update(Update { cell, value }))
}

#[tactic(auto, unfolding(crate::specs::Objects::add_integer_form))]
pub(crate) fn add_integer(alloc: Global, json: &Json) -> Result<Instr, TextRefusal>
    ensures { Reads result (add_integer_form (view json.now)) }
{
    exactly(json, 5)?;
    let cell = cell_of(alloc, json)?;
    let amount = int_field(json, "amount")?;
    Ok(Instr::AddInteger(AddInteger { cell, amount }))
}

#[tactic(auto, unfolding(crate::specs::Objects::list_update_form))]
pub(crate) fn list_update(alloc: Global, json: &Json) -> Result<Instr, TextRefusal>
    ensures { Reads result (list_update_form (view json.now)) }
{
    exactly(json, 7)?;
    let cell = cell_of(alloc, json)?;
    let spot = inside_of(json)?;
    let value = value_field(alloc, json, "value")?;
    Ok(Instr::ListUpdate(ListUpdate { cell, spot, value }))
}

#[tactic(auto, unfolding(crate::specs::Objects::list_insert_form))]
pub(crate) fn list_insert(alloc: Global, json: &Json) -> Result<Instr, TextRefusal>
    ensures { Reads result (list_insert_form (view json.now)) }
{
    exactly(json, 7)?;
    let cell = cell_of(alloc, json)?;
    let spot = between_of(json)?;
    let value = value_field(alloc, json, "value")?;
    Ok(Instr::ListInsert(ListInsert { cell, spot, value }))
}

#[tactic(auto, unfolding(crate::specs::Objects::list_erase_form))]
pub(crate) fn list_erase(alloc: Global, json: &Json) -> Result<Instr, TextRefusal>
    ensures { Reads result (list_erase_form (view json.now)) }
{
    exactly(json, 6)?;
    let cell = cell_of(alloc, json)?;
    let spot = inside_of(json)?;
    Ok(Instr::ListErase(ListErase { cell, spot }))
}

#[tactic(auto, unfolding(crate::specs::Objects::set_insert_form))]
pub(crate) fn set_insert(alloc: Global, json: &Json) -> Result<Instr, TextRefusal>
    ensures { Reads result (set_insert_form (view json.now)) }
{
    exactly(json, 5)?;
    let cell = cell_of(alloc, json)?;
    let value = value_field(alloc, json, "value")?;
    Ok(Instr::SetInsert(SetInsert { cell, value }))
}

#[tactic(auto, unfolding(crate::specs::Objects::set_erase_form))]
pub(crate) fn set_erase(alloc: Global, json: &Json) -> Result<Instr, TextRefusal>
    ensures { Reads result (set_erase_form (view json.now)) }
{
    exactly(json, 5)?;
    let cell = cell_of(alloc, json)?;
    let value = value_field(alloc, json, "value")?;
    Ok(Instr::SetErase(SetErase { cell, value }))
}

#[tactic(auto, unfolding(crate::specs::Objects::dict_update_form))]
pub(crate) fn dict_update(alloc: Global, json: &Json) -> Result<Instr, TextRefusal>
    ensures { Reads result (dict_update_form (view json.now)) }
{
    exactly(json, 6)?;
    let cell = cell_of(alloc, json)?;
    let at = key_text_field(alloc, json, "at")?;
    let value = value_field(alloc, json, "value")?;
    Ok(Instr::DictUpdate(DictUpdate {
        cell,
        at,
        value: Some(value),
    }))
}

#[tactic(auto, unfolding(crate::specs::Objects::dict_erase_form))]
pub(crate) fn dict_erase(alloc: Global, json: &Json) -> Result<Instr, TextRefusal>
    ensures { Reads result (dict_erase_form (view json.now)) }
{
    exactly(json, 5)?;
    let cell = cell_of(alloc, json)?;
    let at = key_text_field(alloc, json, "at")?;
    Ok(Instr::DictUpdate(DictUpdate {
        cell,
        at,
        value: None,
    }))
}

#[tactic(auto, unfolding(crate::specs::Objects::clear_form))]
pub(crate) fn clear(alloc: Global, json: &Json) -> Result<Instr, TextRefusal>
    ensures { Reads result (clear_form (view json.now)) }
{
    exactly(json, 4)?;
    let cell = cell_of(alloc, json)?;
    Ok(Instr::Clear(Clear { cell }))
}
