//! What an event, a line or a frame came to, in words, and what is shown of nodes: lines of output (docs/FORMATS.md).
#![tactic(auto)]

mod outcome;
mod report;
mod text;

pub use outcome::Outcome;
pub use report::{put_client, put_server, put_standing};
pub use text::{put, put_name, put_number, put_numbers, put_said};
