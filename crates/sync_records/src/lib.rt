//! The records of a client's and of a server's journal, and their bytes.
#![tactic(auto)]

mod client;
mod fields;
mod named;
mod refusal;
mod server;
mod writing;

pub use client::{ClientRecord, Took};
pub use named::Named;
pub use refusal::RecordRefusal;
pub use server::ServerRecord;
