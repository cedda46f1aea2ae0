ghost use Rattle.std.specs.Prelude.{◌≡◌};
ghost use Rattle.sync_value_text.specs.Forms.{Decides, DecidesBy, Reads};
ghost use Rattle.sync_value_text.specs.Fields.{exactly_form, text_form, name_form, key_text_form, id_form, hex_form, flag_form, int_form, number_form, place_form, key_of_text, has};
ghost use Rattle.serde_json.specs.View.{view};
ghost use Rattle.uuid.specs.Text.{parsed};

use super::refusal::TextRefusal;
use hex::FromHexError;
use serde_json::Value as Json;
use std::alloc::Global;
use sync_data::{Blob, Id, KeyRefusal, KeyText, Name};
use uuid::Uuid;

/// An object of that many fields, or `BadValue` exactly where it is none. A form that also looks up so many names
/// has no other field. It takes no memory.
#[tactic(auto, using(crate::proofs::Members::member_count), unfolding(crate::specs::Fields::exactly_form))]
pub fn exactly(json: &Json, count: usize) -> Result<(), TextRefusal>
    ensures { Decides result (exactly_form count (view json.now)) }
{
    let fields = json.as_object().ok_or(TextRefusal::BadValue)?;
    if fields.len() != count {
        return Err(TextRefusal::BadValue);
    }
    Ok(())
}

/// Whether there is a field of that name. It takes no memory.
pub fn has_field(json: &Json, field: &str) -> bool
    ensures { result ≡ has (view json.now) field.now }
{
    json.get(field).is_some()
}

/// The text under that field. It takes no memory.
#[tactic(auto, unfolding(crate::specs::Fields::text_form))]
pub fn text_field<'j>(json: &'j Json, field: &str) -> Result<&'j str, TextRefusal>
    ensures { DecidesBy (λ text. text.now) result (text_form (view json.now) field.now) }
{
    let found = json.get(field).ok_or(TextRefusal::BadValue)?;
    found.as_str().ok_or(TextRefusal::BadValue)
}

/// The name under that field: a text of 1 to 63 bytes. It takes no memory.
#[tactic(auto, unfolding(crate::specs::Fields::name_form))]
pub fn name_field(json: &Json, field: &str) -> Result<Name, TextRefusal>
    ensures { Decides result (name_form (view json.now) field.now) }
{
    let text = text_field(json, field)?;
    match Name::new(text) {
        Ok(name) => Ok(name),
        Err(_) => Err(TextRefusal::BadValue),
    }
}

/// A text key: a text of at most 255 bytes.
pub(crate) fn key_text_of(alloc: Global, text: &str) -> Result<KeyText, TextRefusal>
    ensures { Reads result (key_of_text text.now) }
{
    match KeyText::new(alloc, text) {
        Ok(key) => Ok(key),
        Err(KeyRefusal::BadKey) => Err(TextRefusal::BadValue),
        Err(KeyRefusal::NoMemory) => Err(TextRefusal::NoMemory),
    }
}

/// The text key under that field.
#[tactic(auto, unfolding(crate::specs::Fields::key_text_form))]
pub fn key_text_field(alloc: Global, json: &Json, field: &str) -> Result<KeyText, TextRefusal>
    ensures { Reads result (key_text_form (view json.now) field.now) }
{
    let text = text_field(json, field)?;
    key_text_of(alloc, text)
}

/// The uuid under that field, as its 16 bytes: a text that `uuid` parses. It takes no memory.
#[tactic(auto, unfolding(crate::specs::Fields::id_form))]
pub fn id_field(json: &Json, field: &str) -> Result<Id, TextRefusal>
    ensures { Decides result (id_form (view json.now) field.now) }
{
    let text = text_field(json, field)?;
    id_of_text(text)
}

fn id_of_text(text: &str) -> Result<Id, TextRefusal>
    ensures { Decides result (parsed text.now) }
{
    match Uuid::parse_str(text) {
        Ok(id) => Ok(id.into_bytes()),
        Err(_) => Err(TextRefusal::BadValue),
    }
}

/// The bytes under that field: a text of two hex digits a byte, in either case.
#[tactic(auto, unfolding(crate::specs::Fields::hex_form))]
pub fn hex_field(alloc: Global, json: &Json, field: &str) -> Result<Blob, TextRefusal>
    ensures { Reads result (hex_form (view json.now) field.now) }
{
    let text = text_field(json, field)?;
    match hex::decode(alloc, text.as_bytes()) {
        Ok(bytes) => Ok(Blob::new(alloc, bytes.as_slice())?),
        Err(FromHexError::OutOfMemory) => Err(TextRefusal::NoMemory),
        Err(_) => Err(TextRefusal::BadValue),
    }
}

/// The flag under that field. It takes no memory.
#[tactic(auto, unfolding(crate::specs::Fields::flag_form))]
pub fn flag_field(json: &Json, field: &str) -> Result<bool, TextRefusal>
    ensures { Decides result (flag_form (view json.now) field.now) }
{
    let found = json.get(field).ok_or(TextRefusal::BadValue)?;
    found.as_bool().ok_or(TextRefusal::BadValue)
}

/// The signed integer under that field. It takes no memory.
#[tactic(auto, unfolding(crate::specs::Fields::int_form))]
pub fn int_field(json: &Json, field: &str) -> Result<i64, TextRefusal>
    ensures { Decides result (int_form (view json.now) field.now) }
{
    let found = json.get(field).ok_or(TextRefusal::BadValue)?;
    found.as_i64().ok_or(TextRefusal::BadValue)
}

/// The unsigned integer under that field. It takes no memory.
#[tactic(auto, unfolding(crate::specs::Fields::number_form))]
pub fn number_field(json: &Json, field: &str) -> Result<u64, TextRefusal>
    ensures { Decides result (number_form (view json.now) field.now) }
{
    let found = json.get(field).ok_or(TextRefusal::BadValue)?;
    found.as_u64().ok_or(TextRefusal::BadValue)
}

/// The integer below 2^32 under that field. It takes no memory.
#[tactic(auto, unfolding(crate::specs::Fields::place_form))]
pub fn place_field(json: &Json, field: &str) -> Result<u32, TextRefusal>
    ensures { Decides result (place_form (view json.now) field.now) }
{
    match u32::try_from(number_field(json, field)?) {
        Ok(place) => Ok(place),
        Err(_) => Err(TextRefusal::BadValue),
    }
}
