//! Lists of byte strings that stand in one block of memory, one behind another.
#![tactic(auto)]

mod byte_lists;

pub use byte_lists::ByteLists;
