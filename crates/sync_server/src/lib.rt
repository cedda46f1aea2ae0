//! A server over a disk: its journal, and what it keeps in memory of the history, the objects and the clients.
#![tactic(auto)]

mod crossed;
mod files;
mod refusal;
mod server;

pub use refusal::ServerRefusal;
pub use server::Server;
pub use server_memory::Counts;
