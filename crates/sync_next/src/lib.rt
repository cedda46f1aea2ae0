//! A transaction that is committed, what a client sends next, and what a message changed.
#![tactic(auto)]

mod committing;
mod next;
mod taking;
mod talk;

pub use committing::commit;
pub use next::{Next, next_message};
pub use taking::{Taken, take};
pub use talk::{Stale, Talk};
