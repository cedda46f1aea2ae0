ghost use Rattle.std.specs.Prelude.{◌≡◌, IfOk, None, Some, option_map};
ghost use Rattle.sync_value_text.specs.Printed.{data_of_int, data_of_id, data_of_key, data_of_bytes, data_of_time, data_of_link, data_of_value, kind_word as word_of_kind, shape_word as word_of_shape, data_of_column, column_fields, target_field, target_name};
ghost use Rattle.sync_value_text.specs.Keys.{uuid_form, key_form};
ghost use Rattle.sync_value_text.specs.Values.{bytes_form, time_form, link_form, value_form};
ghost use Rattle.sync_value_text.specs.Columns.{column_form};
ghost use Rattle.sync_data.specs.declared.value.Value.TheVariants as values;
ghost use Rattle.serde_json.specs.Data.{string};
ghost use Rattle.serde_json.specs.View.{view};

use serde_json::{Value as Json, json};
use std::alloc::Global;
use sync_data::{Column, Id, Key, Kind, Name, NoMemory, Shape, Time, Value};
use uuid::Uuid;

/// The form of a key, which `key_of` reads back.
#[tactic(auto, using(crate::proofs::Back::int_back, crate::proofs::Back::key_text_back), unfolding(crate::specs::Keys::key_form))]
pub fn json_of_key(alloc: Global, key: &Key) -> Result<Json, NoMemory>
    ensures form { IfOk result (λ json. view json ≡ data_of_key key.now) }
    ensures reads_back { key_form (data_of_key key.now) ≡ Some key.now }
{
    match key {
        Key::Int(number) => Ok(json_of_int(*number)),
        Key::Text(text) => json_of_text(alloc, text.text()),
        Key::Uuid(id) => json_of_id(alloc, id),
    }
}

/// The form of a value, which `value_of` reads back. Bytes are hex in lower case, and uuids are hyphenated and in
/// lower case.
#[tactic(auto, using(crate::proofs::Back::int_back), unfolding(crate::specs::Values::value_form, crate::specs::Values::object_form))]
pub fn json_of_value(alloc: Global, value: &Value) -> Result<Json, NoMemory>
    ensures form { IfOk result (λ json. view json ≡ data_of_value value.now) }
    ensures reads_back { value_form (data_of_value value.now) ≡ Some value.now }
{
    match value {
        Value::Null => Ok(Json::Null),
        Value::Int(number) => Ok(json_of_int(*number)),
        Value::Bool(flag) => Ok(Json::Bool(*flag)),
        Value::Text(text) => json_of_text(alloc, text.text()),
        Value::Bytes(bytes) => json_of_bytes(alloc, bytes.bytes()),
        Value::Time(time) => json_of_time(alloc, time),
        Value::Uuid(id) => json_of_id(alloc, id),
        Value::Link { table, key } => json_of_link(alloc, table, key),
    }
}

/// The form of a column, which `column_of` reads back.
#[tactic(auto, using(crate::proofs::Back::column_back))]
pub fn json_of_column(alloc: Global, column: &Column) -> Result<Json, NoMemory>
    ensures form { IfOk result (λ json. view json ≡ data_of_column column.now) }
    ensures reads_back { column_form (data_of_column column.now) ≡ Some column.now }
{
    let kind = kind_word(&column.kind);
    let shape = shape_word(column.shape);
    match target_of(&column.kind) {
        Some(target) => json_of_link_column(alloc, kind, column.nullable, shape, target.text()),
        None => json_of_plain_column(alloc, kind, column.nullable, shape),
    }
}

/// The form of a column whose kind has that word, and is a link to objects of that table.
fn json_of_link_column(
    alloc: Global,
    kind: &str,
    nullable: bool,
    shape: &str,
    target: &str,
) -> Result<Json, NoMemory>
    ensures { IfOk result (λ json. view json ≡ column_fields kind.now nullable shape.now (target_field (Some target.now))) }
{
    json!(in alloc; {"kind": kind, "nullable": nullable, "shape": shape, "target": target}).map_err(
        |_| NoMemory,
    )
}

/// The form of a column whose kind has that word, and is no link.
fn json_of_plain_column(
    alloc: Global,
    kind: &str,
    nullable: bool,
    shape: &str,
) -> Result<Json, NoMemory>
    ensures { IfOk result (λ json. view json ≡ column_fields kind.now nullable shape.now (target_field None)) }
{
    json!(in alloc; {"kind": kind, "nullable": nullable, "shape": shape}).map_err(|_| NoMemory)
}

fn target_of(kind: &Kind) -> Option<&Name>
    ensures { option_map (λ target. target.now) result ≡ target_name kind.now }
{
    match kind {
        Kind::Link(target) => Some(target),
        _ => None,
    }
}

fn json_of_int(number: i64) -> Json
    ensures { view result ≡ data_of_int number }
{
    Json::from(number)
}

fn json_of_text(alloc: Global, text: &str) -> Result<Json, NoMemory>
    ensures { IfOk result (λ json. view json ≡ string text.now) }
{
    Json::try_from_str(alloc, text).map_err(|_| NoMemory)
}

#[tactic(auto, using(crate::proofs::Back::id_back))]
fn json_of_id(alloc: Global, id: &Id) -> Result<Json, NoMemory>
    ensures form { IfOk result (λ json. view json ≡ data_of_id id.now) }
    ensures reads_back { uuid_form (data_of_id id.now) ≡ Some id.now }
{
    let mut buffer = Uuid::encode_buffer();
    let text = Uuid::from_bytes(*id).hyphenated().encode_lower(&mut buffer);
    json!(in alloc; {"uuid": &*text}).map_err(|_| NoMemory)
}

fn json_of_bytes(alloc: Global, bytes: &[u8]) -> Result<Json, NoMemory>
    ensures form { IfOk result (λ json. view json ≡ data_of_bytes bytes.now) }
    ensures reads_back { bytes_form (data_of_bytes bytes.now) ≡ Some bytes.now }
{
    let Ok(text) = hex::encode(alloc, bytes) else {
        return Err(NoMemory);
    };
    json!(in alloc; {"bytes": text}).map_err(|_| NoMemory)
}

#[tactic(auto, using(crate::proofs::Back::time_back))]
fn json_of_time(alloc: Global, time: &Time) -> Result<Json, NoMemory>
    ensures form { IfOk result (λ json. view json ≡ data_of_time time.now.secs time.now.nanos) }
    ensures reads_back { time_form (data_of_time time.now.secs time.now.nanos) ≡ Some time.now }
{
    json!(in alloc; {"secs": time.secs(), "nanos": time.nanos()}).map_err(|_| NoMemory)
}

#[tactic(auto, using(crate::proofs::Back::link_back))]
fn json_of_link(alloc: Global, table: &Name, key: &Key) -> Result<Json, NoMemory>
    ensures form { IfOk result (λ json. view json ≡ data_of_link table.now key.now) }
    ensures reads_back { link_form (data_of_link table.now key.now) ≡ Some (values.Link table.now key.now) }
{
    let table = table.text();
    let key = json_of_key(alloc, key)?;
    json!(in alloc; {"link": table, "key": key}).map_err(|_| NoMemory)
}

fn kind_word(kind: &Kind) -> &'static str
    ensures { result.now ≡ word_of_kind kind.now }
{
    match kind {
        Kind::Int => "Int",
        Kind::Bool => "Bool",
        Kind::Text => "Text",
        Kind::Bytes => "Bytes",
        Kind::Time => "Time",
        Kind::Uuid => "Uuid",
        Kind::Link(_) => "Link",
    }
}

fn shape_word(shape: Shape) -> &'static str
    ensures { result.now ≡ word_of_shape shape }
{
    match shape {
        Shape::One => "One",
        Shape::List => "List",
        Shape::Set => "Set",
        Shape::Dict => "Dict",
    }
}
