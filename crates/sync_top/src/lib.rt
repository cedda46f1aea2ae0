//! The top call: one run of the program, from its words and input to its output and status.
#![tactic(auto)]

mod command;
mod counts;
mod generated;
mod job;
mod laws;
mod lines;
mod plan;
mod program;
mod progress;
mod replay;
mod summary;

pub use command::{Command, LineEnd};
pub use generated::generate;
pub use job::{Job, MOST_TURNS, job_of};
pub use lines::run_lines;
pub use program::run;
pub use sync_node::FileCommand;
