//! The one spelling of the tables that a client names, in records and in messages.
#![tactic(auto)]

mod reading;
mod refusal;
mod writing;

pub use reading::tables_of;
pub use refusal::TablesRefusal;
pub use writing::put_tables;
