// What this application keeps: notes by number, each with a text and a set of tags.

use crate::failure::Failure;
use std::alloc::Global;
use sync_app::Transaction;
use sync_data::{CellName, Column, Key, KeyKind, Kind, Name, NameRefusal, Shape, Text, Value};

/// The table of the notes.
pub(crate) fn table() -> Result<Name, NameRefusal> {
    Name::new("notes")
}

/// A cell of a note.
pub(crate) fn cell(number: i64, column: &str) -> Result<CellName, NameRefusal> {
    Ok(CellName {
        table: table()?,
        key: Key::Int(number),
        column: Name::new(column)?,
    })
}

/// Adds the table and its columns.
pub(crate) fn set_up(edits: &mut Transaction<'_>) -> Result<(), Failure> {
    edits.add_table(table()?, KeyKind::Int)?;
    add_column(edits, "text", Shape::One)?;
    add_column(edits, "tags", Shape::Set)
}

fn add_column(edits: &mut Transaction<'_>, name: &str, shape: Shape) -> Result<(), Failure> {
    let def = Column {
        kind: Kind::Text,
        nullable: false,
        shape,
    };
    edits.add_column(table()?, Name::new(name)?, def)?;
    Ok(())
}

/// A new note.
pub(crate) fn create(edits: &mut Transaction<'_>, number: i64) -> Result<(), Failure> {
    edits.create(table()?, Key::Int(number))?;
    Ok(())
}

/// Gives a note its text.
pub(crate) fn write(
    alloc: Global,
    edits: &mut Transaction<'_>,
    number: i64,
    text: &str,
) -> Result<(), Failure> {
    let text = Text::new(alloc, text)?;
    edits.set(cell(number, "text")?, Value::Text(text))?;
    Ok(())
}

/// Puts a tag on a note.
pub(crate) fn tag(
    alloc: Global,
    edits: &mut Transaction<'_>,
    number: i64,
    tag: &str,
) -> Result<(), Failure> {
    let tag = Text::new(alloc, tag)?;
    edits.include(cell(number, "tags")?, Value::Text(tag))?;
    Ok(())
}
