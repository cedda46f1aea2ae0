//! The dump of a store: a line of compact JSON for each table, each of its columns and each of its objects.
#![tactic(auto)]

mod cells;
mod dump;
mod fields;
mod lines;
mod values;
mod words;

pub use dump::{dump_lines, object_text};
