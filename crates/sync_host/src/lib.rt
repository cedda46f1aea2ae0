//! A client or a server behind one call, for a host in another language: a request of bytes is answered by bytes, and what the
//! node asks of its disk waits in an outbox until the host has done it.
#![tactic(auto)]

mod answers;
mod client;
mod head;
mod heir;
mod history;
mod host;
mod hosted;
mod node;
mod object;
mod opening;
mod page;
mod places;
mod refusals;
mod reply;
mod server;
mod trimming;
mod verb;

pub use host::Host;
