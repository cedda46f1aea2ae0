ghost use Rattle.std.specs.Prelude.{◌≡◌, ◌<◌, ◌≤◌, length, IfOk};
ghost use Rattle.sync_gen.specs.Edits.{table, key_of, cell, integer, text_of, link_to, create_object, erase_object, update, add_integer, list_insert, list_erase, list_update, set_insert, set_erase};

use std::alloc::Global;
use sync_base::{
    AddInteger, Between, CellName, CreateObject, EraseObject, Inside, Instr, Key, ListErase,
    ListInsert, ListUpdate, Name, NoMemory, SetErase, SetInsert, Text, Update, Value,
};

/// The name of that text.
pub(crate) fn name(text: &str) -> Name
    requires { (0 < length text.now) × (length text.now ≤ 63) }
    ensures { result ≡ text.now }
{
    Name::new(text).unwrap()
}

/// The name of the table.
pub(crate) fn table() -> Name
    ensures { result ≡ table }
{
    name("t")
}

pub(crate) fn key_of(number: u32) -> Key
    ensures { result ≡ key_of number }
{
    Key::Int(number as i64)
}

fn cell(key: u32, column: &str) -> CellName
    requires { (0 < length column.now) × (length column.now ≤ 63) }
    ensures { result ≡ cell key column.now }
{
    CellName {
        table: table(),
        key: key_of(key),
        column: name(column),
    }
}

pub(crate) fn integer(number: u32) -> Value
    ensures { result ≡ integer number }
{
    Value::Int(number as i64)
}

/// A number as a text in decimal.
pub(crate) fn text_of(alloc: Global, number: u32) -> Result<Value, NoMemory>
    ensures { IfOk result (λ value. value ≡ text_of number) }
{
    match number.to_string(alloc) {
        Ok(digits) => Ok(Value::Text(Text::new(alloc, digits.as_str())?)),
        Err(_) => Err(NoMemory),
    }
}

pub(crate) fn link_to(number: u32) -> Value
    ensures { result ≡ link_to number }
{
    Value::Link {
        table: table(),
        key: key_of(number),
    }
}

pub(crate) fn create_object(key: u32) -> Instr
    ensures { result ≡ create_object key }
{
    Instr::CreateObject(CreateObject {
        table: table(),
        key: key_of(key),
    })
}

pub(crate) fn erase_object(key: u32) -> Instr
    ensures { result ≡ erase_object key }
{
    Instr::EraseObject(EraseObject {
        table: table(),
        key: key_of(key),
    })
}

pub(crate) fn update(key: u32, column: &str, value: Value) -> Instr
    requires { (0 < length column.now) × (length column.now ≤ 63) }
    ensures { result ≡ update key column.now value }
{
    let cell = cell(key, column);
    Instr::Update(Update { cell, value })
}

pub(crate) fn add_integer(key: u32, amount: u32) -> Instr
    ensures { result ≡ add_integer key amount }
{
    let cell = cell(key, "n");
    let amount = amount as i64;
    Instr::AddInteger(AddInteger { cell, amount })
}

pub(crate) fn list_insert(
    alloc: Global,
    key: u32,
    length: u32,
    place: u32,
    number: u32,
) -> Result<Instr, NoMemory>
    requires { place ≤ length }
    ensures { IfOk result (λ instr. instr ≡ list_insert key length place number) }
{
    Ok(Instr::ListInsert(ListInsert {
        cell: cell(key, "l"),
        spot: Between::new(place, length).unwrap(),
        value: text_of(alloc, number)?,
    }))
}

pub(crate) fn list_erase(key: u32, length: u32, place: u32) -> Instr
    requires { place < length }
    ensures { result ≡ list_erase key length place }
{
    Instr::ListErase(ListErase {
        cell: cell(key, "l"),
        spot: Inside::new(place, length).unwrap(),
    })
}

pub(crate) fn list_update(
    alloc: Global,
    key: u32,
    length: u32,
    place: u32,
    number: u32,
) -> Result<Instr, NoMemory>
    requires { place < length }
    ensures { IfOk result (λ instr. instr ≡ list_update key length place number) }
{
    Ok(Instr::ListUpdate(ListUpdate {
        cell: cell(key, "l"),
        spot: Inside::new(place, length).unwrap(),
        value: text_of(alloc, number)?,
    }))
}

pub(crate) fn set_insert(key: u32, number: u32) -> Instr
    ensures { result ≡ set_insert key number }
{
    let cell = cell(key, "u");
    let value = integer(number);
    Instr::SetInsert(SetInsert { cell, value })
}

pub(crate) fn set_erase(key: u32, number: u32) -> Instr
    ensures { result ≡ set_erase key number }
{
    let cell = cell(key, "u");
    let value = integer(number);
    Instr::SetErase(SetErase { cell, value })
}
