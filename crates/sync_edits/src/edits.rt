ghost use Rattle.sync_value_text.specs.Forms.{Reads, ReadsBy};
ghost use Rattle.sync_edits.specs.Edits.{edit_form, edit_by_word as by_word, list_or_dict_form as collection_form, edits_form};
ghost use Rattle.sync_edits.specs.Items.{all_items};
ghost use Rattle.serde_json.specs.View.{view, items_view};

use super::objects::{
    add_column, add_integer, add_table, clear, create_object, dict_erase, dict_update,
    erase_object, list_erase, list_insert, list_update, set_erase, set_insert, update,
};
use serde_json::Value as Json;
use std::alloc::Global;
use sync_data::{Instr, Listed};
use sync_value_text::{TextRefusal, text_field};

/// The edits under the field `edits`, a list of objects.
#[tactic(auto, unfolding(crate::specs::Edits::edits_form))]
pub(crate) fn edits_field(alloc: Global, json: &Json) -> Result<Listed<Instr>, TextRefusal>
    ensures { Reads result (edits_form (view json.now)) }
{
    let found = json.get("edits").ok_or(TextRefusal::BadValue)?;
    let items = found.as_array().ok_or(TextRefusal::BadValue)?;
    Ok(Listed::of(all_edits(alloc, items.as_slice())?))
}

fn all_edits(alloc: Global, items: &[Json]) -> Result<Vec<Instr>, TextRefusal>
    ensures { ReadsBy (λ edits. edits.items) result (all_items edit_form (items_view items.now)) }
{
    let mut edits = Vec::new(alloc);
    for item in items {
        let edit = edit_of(alloc, item)?;
        edits.push(edit)?;
    }
    Ok(edits)
}

#[tactic(auto, unfolding(crate::specs::Edits::edit_form))]
fn edit_of(alloc: Global, json: &Json) -> Result<Instr, TextRefusal>
    ensures { Reads result (edit_form (view json.now)) }
{
    let word = text_field(json, "op")?;
    edit_by_word(alloc, word, json)
}

#[tactic(auto, unfolding(crate::specs::Edits::edit_by_word))]
fn edit_by_word(alloc: Global, word: &str, json: &Json) -> Result<Instr, TextRefusal>
    ensures { Reads result (by_word word.now (view json.now)) }
{
    match word {
        "AddTable" => add_table(json),
        "AddColumn" => add_column(json),
        "CreateObject" => create_object(alloc, json),
        "EraseObject" => erase_object(alloc, json),
        "Update" => update(alloc, json),
        "AddInteger" => add_integer(alloc, json),
        "SetInsert" => set_insert(alloc, json),
        "SetErase" => set_erase(alloc, json),
        _ => edit_of_collection(alloc, word, json),
    }
}

#[tactic(auto, unfolding(crate::specs::Edits::list_or_dict_form))]
fn edit_of_collection(alloc: Global, word: &str, json: &Json) -> Result<Instr, TextRefusal>
    ensures { Reads result (collection_form word.now (view json.now)) }
{
    match word {
        "ListUpdate" => list_update(alloc, json),
        "ListInsert" => list_insert(alloc, json),
        "ListErase" => list_erase(alloc, json),
        "DictUpdate" => dict_update(alloc, json),
        "DictErase" => dict_erase(alloc, json),
        "Clear" => clear(alloc, json),
        _ => Err(TextRefusal::BadValue),
    }
}
