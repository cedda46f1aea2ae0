//! The objects that a list of instructions touches, so that what can't meet is passed over.
#![tactic(auto)]

mod filter;
mod held;
mod index;
mod keys;
mod object;
mod objects;
mod spot;

pub use index::Index;
pub use object::are_apart;
pub use spot::shared_spot;
