//! What a transaction or a message may change of a client's objects, so that a screen draws that alone anew.
#![tactic(auto)]

mod edits;
mod message;
mod place;

pub use edits::changed_by_edits;
pub use message::changed_by_message;
pub use place::Place;
