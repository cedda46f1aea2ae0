//! The commands of a client and of a server that live in a file.
#![tactic(auto)]

mod calls;
mod client_file;
mod command;
mod editor;
mod feeding;
mod files;
mod frame;
mod frames;
mod lent;
mod lines;
mod opening;
mod outcome;
mod reader;
mod recoverer;
mod recovery;
mod run;
mod sending;
mod server_text;
mod showing;
mod text;
mod waiter;

pub use command::{Command, ItemEnd};
pub use files::{FileCommand, run_file};
pub use frame::frame_of;
pub use frames::Frames;
pub use lent::Lent;
pub use lines::{Lines, is_blank, read_status};
pub use opening::{Ended, open_client, open_server};
pub use reader::{Item, ItemReader};
pub use text::{write_status, write_text};
