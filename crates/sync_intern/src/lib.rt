//! Strings, numbered in the order of their first use.
#![tactic(auto)]

mod places;
mod strings;

pub use strings::{LONGEST_STRING, NoMemory, Strings};
