//! Names of tables as the data files have them.
use crate::failure::Failure;
use std::alloc::Global;
use sync_subset::Subset;

/// Each name with a space before it.
pub fn tables_text(alloc: Global, tables: &Subset) -> Result<String, Failure> {
    let mut text = String::new(alloc);
    for name in tables.names() {
        write!(text, " {}", name.text())?;
    }
    Ok(text)
}
