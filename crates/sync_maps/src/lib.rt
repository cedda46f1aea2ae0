//! Ordered maps and sets of the code, as the finite maps and sets that they stand for, and the next key of a map.
#![tactic(auto)]

mod next;

pub use next::next_key;
