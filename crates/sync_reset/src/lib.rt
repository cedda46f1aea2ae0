//! Client reset: what can be saved of changes that weren't integrated.
#![tactic(auto)]

mod adapting;
mod answer;
mod part;
mod saving;
mod trial;

pub use answer::{Dropped, Saved};
pub use saving::saved;
