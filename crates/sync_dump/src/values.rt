ghost use Rattle.std.specs.Prelude.{◌≡◌, codes, [], ◌∷◌, ◌++◌, OnOk};
ghost use Rattle.json.specs.Token.{key, string, boolean};
ghost use Rattle.sync_value_text.specs.Printed.{data_of_int, data_of_id, data_of_key, data_of_bytes, data_of_time};
ghost use Rattle.sync_dump.specs.Dump.{data_of, data_of_link};
ghost use Rattle.sync_dump.specs.Tokens.{tokens_of, Adds};

use json::Writer;
use std::alloc::{AllocError, Global};
use sync_base::{Id, Key, Name, Time, Value};
use sync_store::Store;
use uuid::Uuid;

/// Writes a value; a link tells whether its object stands.
pub(crate) fn put_value(
    alloc: Global,
    writer: &mut Writer,
    store: &Store,
    value: &Value,
) -> Result<(), AllocError>
    ensures { OnOk result (Adds writer.old writer.new (tokens_of (data_of store.now value.now))) }
{
    match value {
        Value::Null => writer.null(),
        Value::Int(number) => put_int(writer, *number),
        Value::Bool(flag) => writer.boolean(*flag),
        Value::Text(text) => writer.string(text.text()),
        Value::Bytes(bytes) => put_bytes(alloc, writer, bytes.bytes()),
        Value::Time(time) => put_time(writer, time),
        Value::Uuid(id) => put_uuid(writer, id),
        Value::Link { table, key } => put_link(writer, store, table, key),
    }
}

/// Writes a key.
pub(crate) fn put_key(writer: &mut Writer, key: &Key) -> Result<(), AllocError>
    ensures { OnOk result (Adds writer.old writer.new (tokens_of (data_of_key key.now))) }
{
    match key {
        Key::Int(number) => put_int(writer, *number),
        Key::Text(text) => writer.string(text.text()),
        Key::Uuid(id) => put_uuid(writer, id),
    }
}

#[tactic(auto, using(crate::proofs::Digits::digits_of))]
fn put_int(writer: &mut Writer, number: i64) -> Result<(), AllocError>
    ensures { OnOk result (Adds writer.old writer.new (tokens_of (data_of_int number))) }
{
    writer.i64(number)
}

/// Writes a field with a text.
pub(crate) fn put_text_field(writer: &mut Writer, name: &str, text: &str) -> Result<(), AllocError>
    ensures { OnOk result (Adds writer.old writer.new (key name.now ∷ string text.now ∷ [])) }
{
    writer.key(name)?;
    writer.string(text)
}

/// Writes a field with a flag.
pub(crate) fn put_flag_field(writer: &mut Writer, name: &str, flag: bool) -> Result<(), AllocError>
    ensures { OnOk result (Adds writer.old writer.new (key name.now ∷ boolean flag ∷ [])) }
{
    writer.key(name)?;
    writer.boolean(flag)
}

fn put_uuid(writer: &mut Writer, id: &Id) -> Result<(), AllocError>
    ensures { OnOk result (Adds writer.old writer.new (tokens_of (data_of_id id.now))) }
{
    let mut buffer = Uuid::encode_buffer();
    let text = Uuid::from_bytes(*id).hyphenated().encode_lower(&mut buffer);
    writer.begin_object()?;
    put_text_field(writer, "uuid", text)?;
    writer.end_object()
}

fn put_bytes(alloc: Global, writer: &mut Writer, bytes: &[u8]) -> Result<(), AllocError>
    ensures { OnOk result (Adds writer.old writer.new (tokens_of (data_of_bytes bytes.now))) }
{
    let text = hex::encode(alloc, bytes)?;
    writer.begin_object()?;
    put_text_field(writer, "bytes", text.as_str())?;
    writer.end_object()
}

#[tactic(auto, using(crate::proofs::Digits::digits_of))]
fn put_time(writer: &mut Writer, time: &Time) -> Result<(), AllocError>
    ensures { OnOk result (Adds writer.old writer.new (tokens_of (data_of_time time.now.secs time.now.nanos))) }
{
    writer.begin_object()?;
    writer.key("nanos")?;
    put_int(writer, i64::from(time.nanos()))?;
    writer.key("secs")?;
    put_int(writer, time.secs())?;
    writer.end_object()
}

fn put_link(writer: &mut Writer, store: &Store, table: &Name, key: &Key) -> Result<(), AllocError>
    ensures { OnOk result (Adds writer.old writer.new (tokens_of (data_of_link store.now table.now key.now))) }
{
    writer.begin_object()?;
    writer.key("key")?;
    put_key(writer, key)?;
    put_text_field(writer, "link", table.text())?;
    put_flag_field(writer, "resolved", store.has(table, key))?;
    writer.end_object()
}
