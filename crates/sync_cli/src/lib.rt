//! What the program does with its words: the file that they name is the disk, which one command at a time writes to, and
//! standard input and output, or any other reader and writer, are the source and the sink.
#![tactic(auto)]

mod arguments;
mod end;
mod lives;
mod replacing;
mod running;

pub use arguments::words;
pub use end::End;
pub use lives::run_program;
pub use running::run_words;
