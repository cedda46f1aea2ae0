//! The generator of long exchanges: turns of eight clients, and edits that fit what a client holds.
#![tactic(auto)]

mod clients;
mod edits;
mod generator;
mod instrs;
mod lists;
mod turns;

pub use clients::{CLIENTS, client_id, client_name, first_edits};
pub use generator::Gen;
pub use turns::{Turn, TurnKind};
