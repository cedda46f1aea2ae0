ghost use Rattle.sync_value_text.specs.Forms.{Decides, Reads, ReadsBy};
ghost use Rattle.sync_edits.specs.Items.{all_items};
ghost use Rattle.sync_edits.specs.Tables.{table_form, tables_form, is_subset};
ghost use Rattle.sync_value_text.specs.Forms.{provided};
ghost use Rattle.serde_json.specs.View.{view, items_view};

use serde_json::Value as Json;
use std::alloc::Global;
use sync_data::Name;
use sync_subset::{BadSubset, Subset};
use sync_value_text::TextRefusal;

/// The tables under the field `tables`: a list of 1 to 64 names in strictly rising order.
#[tactic(auto, unfolding(crate::specs::Tables::tables_form))]
pub(crate) fn tables_field(alloc: Global, json: &Json) -> Result<Subset, TextRefusal>
    ensures { Reads result (tables_form (view json.now)) }
{
    let found = json.get("tables").ok_or(TextRefusal::BadValue)?;
    let items = found.as_array().ok_or(TextRefusal::BadValue)?;
    let names = all_tables(alloc, items.as_slice())?;
    subset_of(names)
}

fn subset_of(names: Vec<Name>) -> Result<Subset, TextRefusal>
    ensures { Decides result (provided (is_subset names.items) names.items) }
{
    match Subset::new(names) {
        Ok(tables) => Ok(tables),
        Err(BadSubset) => Err(TextRefusal::BadValue),
    }
}

fn all_tables(alloc: Global, items: &[Json]) -> Result<Vec<Name>, TextRefusal>
    ensures { ReadsBy (λ names. names.items) result (all_items table_form (items_view items.now)) }
{
    let mut names = Vec::new(alloc);
    for item in items {
        let name = table_of(item)?;
        names.push(name)?;
    }
    Ok(names)
}

#[tactic(auto, unfolding(crate::specs::Tables::table_form))]
fn table_of(json: &Json) -> Result<Name, TextRefusal>
    ensures { Reads result (table_form (view json.now)) }
{
    let text = json.as_str().ok_or(TextRefusal::BadValue)?;
    match Name::new(text) {
        Ok(name) => Ok(name),
        Err(_) => Err(TextRefusal::BadValue),
    }
}
