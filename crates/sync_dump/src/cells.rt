ghost use Rattle.std.specs.Prelude.{◌≡◌, ◌++◌, OnOk};
ghost use Rattle.std.specs.FinMap as map;
ghost use Rattle.std.specs.FinSet as set;
ghost use Rattle.serde_json.specs.Data.{array, object};
ghost use Rattle.sync_data.specs.Orders.{name_cmp};
ghost use Rattle.sync_dump.specs.Dump.{data_of_cell, items_of, bindings_of, in_order};
ghost use Rattle.sync_dump.specs.Tokens.{tokens_of, tokens_of_values, Adds};

use super::values::put_value;
use json::Writer;
use std::alloc::{AllocError, Global};
use std::collections::{BTreeMap, BTreeSet};
use sum_list::SumList;
use sync_base::{KeyText, Value};
use sync_cells::{Cell, Content, Element};
use sync_store::Store;

/// Writes what a cell holds.
pub(crate) fn put_cell(
    alloc: Global,
    writer: &mut Writer,
    store: &Store,
    cell: &Cell,
) -> Result<(), AllocError>
    ensures { OnOk result (Adds writer.old writer.new (tokens_of (data_of_cell store.now cell.now))) }
{
    match cell.content() {
        Content::One(value) => put_value(alloc, writer, store, value),
        Content::List(list) => put_list(alloc, writer, store, list),
        Content::Set(set) => put_set(alloc, writer, store, set),
        Content::Dict(dict) => put_dict(alloc, writer, store, dict),
    }
}

fn put_list(
    alloc: Global,
    writer: &mut Writer,
    store: &Store,
    list: &SumList<Element>,
) -> Result<(), AllocError>
    ensures { OnOk result (Adds writer.old writer.new (tokens_of (array (items_of store.now list.now)))) }
{
    writer.begin_array()?;
    let mut place = 0;
    while place < list.len() {
        let run = list.run_from(place);
        put_elements(alloc, writer, store, run)?;
        place += run.len();
    }
    writer.end_array()
}

/// Writes the values of elements that follow each other.
fn put_elements(
    alloc: Global,
    writer: &mut Writer,
    store: &Store,
    elements: &[Element],
) -> Result<(), AllocError>
    ensures { OnOk result (Adds writer.old writer.new (tokens_of_values store.now elements.now)) }
{
    for element in elements {
        put_value(alloc, writer, store, element.value())?;
    }
    Ok(())
}

fn put_set(
    alloc: Global,
    writer: &mut Writer,
    store: &Store,
    values: &BTreeSet<Value>,
) -> Result<(), AllocError>
    ensures { OnOk result (Adds writer.old writer.new (tokens_of (array (items_of store.now (in_order (set.from_list values.now.keys)))))) }
{
    writer.begin_array()?;
    for value in values {
        put_value(alloc, writer, store, value)?;
    }
    writer.end_array()
}

fn put_dict(
    alloc: Global,
    writer: &mut Writer,
    store: &Store,
    dict: &BTreeMap<KeyText, Value>,
) -> Result<(), AllocError>
    ensures { OnOk result (Adds writer.old writer.new (tokens_of (object (bindings_of store.now (map.entries (map.from_entries {R = name_cmp} dict.now.entries)))))) }
{
    writer.begin_object()?;
    for (key, value) in dict {
        writer.key(key.text())?;
        put_value(alloc, writer, store, value)?;
    }
    writer.end_object()
}
