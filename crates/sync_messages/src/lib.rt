//! The messages between clients and the server, and their bytes.
#![tactic(auto)]

mod ask;
mod ask_tables;
mod change;
mod download;
mod given;
mod message;
mod reading;
mod refusal;
mod retire;
mod retired;
mod sent;
mod stored;
mod upload;
mod writing;

pub use ask::Ask;
pub use ask_tables::AskTables;
pub use change::Change;
pub use download::Download;
pub use given::Given;
pub use message::Message;
pub use reading::message_of;
pub use refusal::MessageRefusal;
pub use retire::Retire;
pub use retired::Retired;
pub use sent::Sent;
pub use stored::Stored;
pub use upload::Upload;
pub use writing::message_bytes;
