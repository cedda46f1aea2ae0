//! The cell of an object: one value, a list, a set, or a dictionary by text keys.
#![tactic(auto)]

mod cell;
mod content;
mod dict;
mod edit;
mod element;
mod inverse;
mod list;
mod refusal;
mod set;

pub use cell::Cell;
pub use content::Content;
pub use edit::{Edit, Former};
pub use element::Element;
pub use inverse::inverse_of;
pub use refusal::{CellRefusal, WrongShape};
