//! The schema: tables with the kind of their keys, and their columns.
#![tactic(auto)]

mod kinds;
mod refusal;
mod schema;
mod table;

pub use kinds::{is_of_kind, is_sound};
pub use refusal::SchemaRefusal;
pub use schema::Schema;
pub use table::TableDef;
