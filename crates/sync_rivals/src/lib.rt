//! An index of lists of instructions, by which an instruction finds those alone that it may meet and not leave as they are.
#![tactic(auto)]

mod codes;
mod index;
mod laws;
mod listing;
mod mark;
mod pace;
mod rivals;

pub use index::RivalIndex;
pub use laws::strangers_stay;
pub use pace::Pace;
