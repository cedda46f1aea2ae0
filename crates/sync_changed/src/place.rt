use sync_base::{CellName, Key, Name};

/// A place of a state that may be other than before.
#[derive(Drop)]
pub enum Place {
    /// A table, with the kind of its keys.
    Table(Name),
    /// A column, and its cells in all objects of the table.
    Column {
        table: Name,
        column: Name,
    },
    /// Whether an object is there, and all its cells.
    Object {
        table: Name,
        key: Key,
    },
    /// A cell.
    Cell(CellName),
    /// A list but for its beginning and its end: the elements from `front` on, without the last `back`.
    Elements {
        cell: CellName,
        front: u32,
        back: u32,
    },
}
