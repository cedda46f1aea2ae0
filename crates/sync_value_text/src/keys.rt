ghost use Rattle.sync_value_text.specs.Forms.{Decides, Reads};
ghost use Rattle.sync_value_text.specs.Keys.{uuid_form, key_form, key_field_form};
ghost use Rattle.serde_json.specs.View.{view};

use super::fields::{exactly, id_field, key_text_of};
use super::refusal::TextRefusal;
use serde_json::Value as Json;
use std::alloc::Global;
use sync_data::{Id, Key};

#[tactic(auto, unfolding(crate::specs::Keys::uuid_form))]
pub(crate) fn uuid_of(json: &Json) -> Result<Id, TextRefusal>
    ensures { Decides result (uuid_form (view json.now)) }
{
    exactly(json, 1)?;
    id_field(json, "uuid")
}

/// The key that a JSON value stands for: an integer, a text of at most 255 bytes, or `{"uuid":U}`.
/// `BadValue` exactly where it is none of them.
#[tactic(auto, unfolding(crate::specs::Keys::key_form))]
pub fn key_of(alloc: Global, json: &Json) -> Result<Key, TextRefusal>
    ensures { Reads result (key_form (view json.now)) }
{
    match json {
        Json::Number(number) => Ok(Key::Int(number.as_i64().ok_or(TextRefusal::BadValue)?)),
        Json::String(text) => Ok(Key::Text(key_text_of(alloc, text.as_str())?)),
        Json::Object(_) => Ok(Key::Uuid(uuid_of(json)?)),
        _ => Err(TextRefusal::BadValue),
    }
}

/// The key under that field.
#[tactic(auto, unfolding(crate::specs::Keys::key_field_form))]
pub fn key_field(alloc: Global, json: &Json, field: &str) -> Result<Key, TextRefusal>
    ensures { Reads result (key_field_form (view json.now) field.now) }
{
    let found = json.get(field).ok_or(TextRefusal::BadValue)?;
    key_of(alloc, found)
}
