//! A state as a list of instructions that leads to it, cut into changesets: the definitions and their laws. No code runs here.
#![tactic(auto)]

mod laws;

pub use laws::{every_state_is_built, nothing_is_built_of_nothing};
