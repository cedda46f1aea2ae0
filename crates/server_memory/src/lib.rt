//! What a server keeps in memory of the history, the objects and the clients, and its steps over that memory.
#![tactic(auto)]

mod asking;
mod carried;
mod counting;
mod counts;
mod crossed;
mod extending;
mod front;
mod given;
mod history;
mod kept;
mod kinds;
mod lists;
mod merging;
mod opening;
mod passed;
mod refusal;
mod retiring;
mod uuids;
mod version;

pub use asking::refuse;
pub use counts::Counts;
pub use given::Given;
pub use history::{History, LAST};
pub use kept::Kept;
pub use merging::ChangeHead;
pub use refusal::{ChangeRefusal, Refusal};
pub use retiring::Retirement;
