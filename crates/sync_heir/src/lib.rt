//! Client reset: the heir of a retired ident, which saves the changes that weren't integrated.
#![tactic(auto)]

mod answer;
mod heirs;
mod refusal;

pub use answer::Heir;
pub use heirs::heir;
pub use refusal::ResetRefusal;
