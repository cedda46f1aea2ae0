//! Files that begin with a state in place of a history: a server's without what lies before its next floor, a new client's
//! that begins with the server's objects, and a client's without what it needs no more.
#![tactic(auto)]

mod bodies;
mod files;
mod floor;
mod history;
mod idents;
mod lists;
mod past;
mod shortening;
mod starting;
mod trimming;

pub use files::{short_file, started_file, trimmed_file};
pub use shortening::shortened;
pub use starting::started;
pub use trimming::trimmed;
