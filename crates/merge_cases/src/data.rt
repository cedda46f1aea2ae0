use std::alloc::Global;
use sync_data::{Blob, Key, KeyText, Name, Text, Time, Value};

fn name(text: &str) -> Option<Name> {
    Name::new(text).ok()
}

fn key_text(alloc: Global, text: &str) -> Option<KeyText> {
    KeyText::new(alloc, text).ok()
}

fn text(alloc: Global, text: &str) -> Option<Value> {
    Some(Value::Text(Text::new(alloc, text).ok()?))
}

fn link(table: &str, key: Key) -> Option<Value> {
    let table = name(table)?;
    Some(Value::Link { table, key })
}

/// The value at that place of a rising list of fifteen.
fn rising(alloc: Global, place: usize) -> Option<Value> {
    match place {
        0 => Some(Value::Null),
        1 => Some(Value::Int(-2)),
        2 => Some(Value::Int(1)),
        3 => Some(Value::Bool(false)),
        4 => Some(Value::Bool(true)),
        5 => text(alloc, ""),
        6 => text(alloc, "ab"),
        7 => text(alloc, "b"),
        8 => Some(Value::Bytes(Blob::new(alloc, &[200]).ok()?)),
        9 => Some(Value::Time(Time::new(-1, -5).ok()?)),
        10 => Some(Value::Time(Time::new(-1, 0).ok()?)),
        11 => Some(Value::Uuid([0; 16])),
        12 => link("a", Key::Uuid([9; 16])),
        13 => link("b", Key::Int(5)),
        _ => link("b", Key::Text(key_text(alloc, "")?)),
    }
}

fn rises(alloc: Global, place: usize) -> Option<bool> {
    let lower = rising(alloc, place)?;
    let upper = rising(alloc, place.saturating_add(1))?;
    Some(lower < upper)
}

pub(crate) fn orders_are_of_kinds_and_then_of_parts(alloc: Global) -> bool {
    for place in 0..14 {
        if rises(alloc, place) != Some(true) {
            return false;
        }
    }
    true
}
