//! The exchange that follows from a seed and a number of turns: its plan, its events, and the laws of what happens in it and how it ends.
//! No code runs here.
#![tactic(auto)]

mod laws;
pub mod plan;

pub use laws::{generated_exchanges_catch_up, generated_exchanges_refuse_nothing};
pub use plan::Move;
