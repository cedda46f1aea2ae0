//! The lines that a person or a tool feeds in: events of an exchange, and lines of one node.
#![tactic(auto)]

mod edits;
mod event;
mod events;
mod lines;
mod objects;
mod refusal;
mod tables;

pub use event::{Event, NodeLine};
pub use lines::{event_of, node_line_of};
pub use refusal::LineRefusal;
