//! What an application that embeds a client calls over its objects: transactions, and reading.
#![tactic(auto)]

mod check;
mod places;
mod reading;
mod refusal;
mod sketch;
mod slots;
mod transaction;
mod verbs;
mod wanted;

pub use reading::{Unread, cell_of, dict_of, list_of, set_of, value_of};
pub use refusal::Refusal;
pub use transaction::Transaction;
