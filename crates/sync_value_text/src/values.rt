ghost use Rattle.sync_value_text.specs.Forms.{Decides, Reads};
ghost use Rattle.sync_value_text.specs.Values.{bytes_form, time_form, link_form, object_form, value_form, value_field_form};
ghost use Rattle.serde_json.specs.View.{view};

use super::fields::{exactly, has_field, hex_field, int_field, name_field};
use super::keys::{key_field, uuid_of};
use super::refusal::TextRefusal;
use serde_json::Value as Json;
use std::alloc::Global;
use sync_data::{Blob, Text, Time, Value};

/// The value that a JSON value stands for: null, an integer from -2^63 to 2^63 - 1, a flag, a text,
/// `{"bytes":HEX}`, `{"secs":I,"nanos":I}`, `{"uuid":U}` or `{"link":TABLE,"key":KEY}`.
/// `BadValue` exactly where it is none of them.
#[tactic(auto, unfolding(crate::specs::Values::value_form))]
pub fn value_of(alloc: Global, json: &Json) -> Result<Value, TextRefusal>
    ensures { Reads result (value_form (view json.now)) }
{
    match json {
        Json::Null => Ok(Value::Null),
        Json::Bool(flag) => Ok(Value::Bool(*flag)),
        Json::Number(number) => Ok(Value::Int(number.as_i64().ok_or(TextRefusal::BadValue)?)),
        Json::String(text) => Ok(Value::Text(Text::new(alloc, text.as_str())?)),
        Json::Array(_) => Err(TextRefusal::BadValue),
        Json::Object(_) => object_value_of(alloc, json),
    }
}

/// The value under that field.
#[tactic(auto, unfolding(crate::specs::Values::value_field_form))]
pub fn value_field(alloc: Global, json: &Json, field: &str) -> Result<Value, TextRefusal>
    ensures { Reads result (value_field_form (view json.now) field.now) }
{
    let found = json.get(field).ok_or(TextRefusal::BadValue)?;
    value_of(alloc, found)
}

#[tactic(auto, unfolding(crate::specs::Values::object_form))]
fn object_value_of(alloc: Global, json: &Json) -> Result<Value, TextRefusal>
    ensures { Reads result (object_form (view json.now)) }
{
    if has_field(json, "bytes") {
        Ok(Value::Bytes(bytes_of(alloc, json)?))
    } else if has_field(json, "secs") {
        Ok(Value::Time(time_of(json)?))
    } else if has_field(json, "uuid") {
        Ok(Value::Uuid(uuid_of(json)?))
    } else {
        link_of(alloc, json)
    }
}

#[tactic(auto, unfolding(crate::specs::Values::bytes_form))]
fn bytes_of(alloc: Global, json: &Json) -> Result<Blob, TextRefusal>
    ensures { Reads result (bytes_form (view json.now)) }
{
    exactly(json, 1)?;
    hex_field(alloc, json, "bytes")
}

#[tactic(auto, unfolding(crate::specs::Values::time_form))]
fn time_of(json: &Json) -> Result<Time, TextRefusal>
    ensures { Decides result (time_form (view json.now)) }
{
    exactly(json, 2)?;
    let secs = int_field(json, "secs")?;
    let nanos = int_field(json, "nanos")?;
    let Ok(nanos) = i32::try_from(nanos) else {
        return Err(TextRefusal::BadValue);
    };
    match Time::new(secs, nanos) {
        Ok(time) => Ok(time),
        Err(_) => Err(TextRefusal::BadValue),
    }
}

#[tactic(auto, unfolding(crate::specs::Values::link_form))]
fn link_of(alloc: Global, json: &Json) -> Result<Value, TextRefusal>
    ensures { Reads result (link_form (view json.now)) }
{
    exactly(json, 2)?;
    let table = name_field(json, "link")?;
    let key = key_field(alloc, json, "key")?;
    Ok(Value::Link { table, key })
}
