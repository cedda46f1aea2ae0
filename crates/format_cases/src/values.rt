//! Values, keys and columns as JSON.
use crate::bytes::columns_of;
use crate::failure::Failure;
use serde_json::Value as Json;
use std::alloc::Global;
use sync_data::{Column, Key, Kind, Value};
use sync_value_text::{
    TextRefusal, column_of, json_of_column, json_of_key, json_of_value, key_of, value_of,
};

/// The case of one line:
/// `value FIELDS JSON`: the JSON is that value; `value of FIELDS JSON`: and the value is printed so; `no value JSON`: it is
/// none; and the same of keys (`key of`, `no key`) and columns (`column of`, `no column`).
pub fn holds(alloc: Global, word: &str, rest: &str) -> Result<bool, Failure> {
    match word {
        "no value" => Ok(
            value_of(alloc, &parsed(alloc, rest)?).err() == Some(TextRefusal::BadValue),
        ),
        "no key" => Ok(key_of(alloc, &parsed(alloc, rest)?).err() == Some(TextRefusal::BadValue)),
        "no column" => Ok(column_of(&parsed(alloc, rest)?).err() == Some(TextRefusal::BadValue)),
        _ => {
            let (fields, json) = columns_of(rest)?;
            is(alloc, word, fields, json)
        }
    }
}

fn is(alloc: Global, word: &str, fields: &str, json: &str) -> Result<bool, Failure> {
    match word {
        "value" => is_value(alloc, fields, &parsed(alloc, json)?),
        "value of" => {
            let parsed = parsed(alloc, json)?;
            Ok(is_value(alloc, fields, &parsed)? && prints_value(alloc, &parsed, json)?)
        }
        "key of" => is_key(alloc, fields, json),
        "column of" => is_column(alloc, fields, json),
        _ => Err(Failure::Line),
    }
}

fn parsed(alloc: Global, text: &str) -> Result<Json, Failure> {
    match Json::from_str(alloc, text) {
        Ok(json) => Ok(json),
        Err(_) => Err(Failure::Line),
    }
}

fn is_value(alloc: Global, fields: &str, json: &Json) -> Result<bool, Failure> {
    match value_of(alloc, json) {
        Ok(value) => Ok(value_fields(alloc, &value)?.as_str() == fields),
        Err(_) => Ok(false),
    }
}

fn prints_value(alloc: Global, json: &Json, text: &str) -> Result<bool, Failure> {
    let Ok(value) = value_of(alloc, json) else {
        return Ok(false);
    };
    let Ok(printed) = json_of_value(alloc, &value) else {
        return Err(Failure::Memory);
    };
    Ok(printed.to_string(alloc)?.as_str() == text)
}

fn is_key(alloc: Global, fields: &str, text: &str) -> Result<bool, Failure> {
    let Ok(key) = key_of(alloc, &parsed(alloc, text)?) else {
        return Ok(false);
    };
    let Ok(printed) = json_of_key(alloc, &key) else {
        return Err(Failure::Memory);
    };
    Ok(key_fields(alloc, &key)?.as_str() == fields && printed.to_string(alloc)?.as_str() == text)
}

fn is_column(alloc: Global, fields: &str, text: &str) -> Result<bool, Failure> {
    let Ok(column) = column_of(&parsed(alloc, text)?) else {
        return Ok(false);
    };
    let Ok(printed) = json_of_column(alloc, &column) else {
        return Err(Failure::Memory);
    };
    Ok(
        column_fields(alloc, &column)?.as_str() == fields
            && printed.to_string(alloc)?.as_str() == text,
    )
}

/// The value's kind and what it holds; texts, bytes and uuids are hex digits.
fn value_fields(alloc: Global, value: &Value) -> Result<String, Failure> {
    let text = match value {
        Value::Null => format!(in alloc; "Null"),
        Value::Int(number) => format!(in alloc; "Int {number}"),
        Value::Bool(flag) => format!(in alloc; "Bool {flag}"),
        Value::Text(text) => format!(in alloc; "Text {}", hex::encode(alloc, text.text())?),
        Value::Bytes(bytes) => format!(in alloc; "Bytes {}", hex::encode(alloc, bytes.bytes())?),
        Value::Time(time) => format!(in alloc; "Time {} {}", time.secs(), time.nanos()),
        Value::Uuid(id) => format!(in alloc; "Uuid {}", hex::encode(alloc, id.as_slice())?),
        Value::Link { table, key } => {
            let key = key_fields(alloc, key)?;
            format!(in alloc; "Link {} {key}", table.text())
        }
    };
    Ok(text?)
}

fn key_fields(alloc: Global, key: &Key) -> Result<String, Failure> {
    let text = match key {
        Key::Int(number) => format!(in alloc; "Int {number}"),
        Key::Text(text) => format!(in alloc; "Text {}", hex::encode(alloc, text.text())?),
        Key::Uuid(id) => format!(in alloc; "Uuid {}", hex::encode(alloc, id.as_slice())?),
    };
    Ok(text?)
}

fn column_fields(alloc: Global, column: &Column) -> Result<String, Failure> {
    let kind = kind_word(&column.kind);
    let nullable = column.nullable;
    let shape = column.shape;
    let text = match &column.kind {
        Kind::Link(target) => format!(in alloc; "{kind} {nullable} {shape:?} {}", target.text()),
        _ => format!(in alloc; "{kind} {nullable} {shape:?}"),
    };
    Ok(text?)
}

fn kind_word(kind: &Kind) -> &'static str {
    match kind {
        Kind::Int => "Int",
        Kind::Bool => "Bool",
        Kind::Text => "Text",
        Kind::Bytes => "Bytes",
        Kind::Time => "Time",
        Kind::Uuid => "Uuid",
        Kind::Link(_) => "Link",
    }
}
