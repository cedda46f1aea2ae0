/// Why a table or a column isn't added. The schema is as it was.
#[derive(Clone, Copy, Debug, PartialEq, Eq)]
pub enum SchemaRefusal {
    TableExists,
    NoTable,
    ColumnExists,
    BadColumn,
    NoMemory,
}
