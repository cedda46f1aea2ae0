//! A client whose file keeps the lives of what it made and took, and that tests each answer of a server by them.
#![tactic(auto)]

mod client;
mod gathering;
mod making;
mod opening;
mod refusal;
mod saying;
mod taking;
mod testing;
mod uploading;

pub use client::MarkedClient;
pub use opening::{MarkedCause, MarkedOpenRefusal};
pub use refusal::MarkedRefusal;
pub use taking::Taken;
