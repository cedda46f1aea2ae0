//! Values, keys and columns as JSON: what is read is exactly the forms, and what is written is read back.
#![tactic(auto)]

mod columns;
mod fields;
mod keys;
mod printed;
mod refusal;
mod values;

pub use columns::{column_beside, column_of};
pub use fields::{
    exactly, flag_field, has_field, hex_field, id_field, int_field, key_text_field, name_field,
    number_field, place_field, text_field,
};
pub use keys::{key_field, key_of};
pub use printed::{json_of_column, json_of_key, json_of_value};
pub use refusal::TextRefusal;
pub use values::{value_field, value_of};
