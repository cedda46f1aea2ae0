use crate::failure::Failure;
use crate::notes::cell;
use crate::phone::Phone;
use sync_app::{set_of, value_of};
use sync_changed::Place;
use sync_data::{Key, Value};

/// Draws what may have changed: here a line for each place.
pub(crate) fn draw(rt: &HostRuntime, name: &str, places: &[Place]) -> Result<(), Failure> {
    for place in places {
        match place {
            Place::Table(table) => println!(rt; "{name} draws {}", table.text())?,
            Place::Column { table, column } => {
                println!(rt; "{name} draws {}.{}", table.text(), column.text())?
            }
            Place::Object { table, key } => {
                println!(rt; "{name} draws {} {}", table.text(), number_of(key))?
            }
            Place::Cell(cell) => {
                let number = number_of(&cell.key);
                println!(rt;
                    "{name} draws {} {number}: {}",
                    cell.table.text(),
                    cell.column.text()
                )?
            }
            Place::Elements { cell, front, back } => {
                let number = number_of(&cell.key);
                println!(rt;
                    "{name} draws {} {number}: {} behind the first {front}, before the last {back}",
                    cell.table.text(),
                    cell.column.text()
                )?
            }
        }
    }
    Ok(())
}

/// The number of a note.
fn number_of(key: &Key) -> i64 {
    match key {
        Key::Int(number) => *number,
        _ => 0,
    }
}

/// Prints a note with its tags.
pub(crate) fn print_note(rt: &HostRuntime, phone: &Phone, number: i64) -> Result<(), Failure> {
    let objects = phone.client.objects();
    let text = value_of(objects, &cell(number, "text")?)?;
    println!(rt; "{} has {number}: {}", phone.name, text_of(text))?;
    for tag in set_of(objects, &cell(number, "tags")?)? {
        println!(rt; "    #{}", text_of(tag))?;
    }
    Ok(())
}

fn text_of(value: &Value) -> &str {
    match value {
        Value::Text(text) => text.text(),
        _ => "",
    }
}
