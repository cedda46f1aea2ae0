//! A disk in memory that also puts each write and each sync into an outbox, for a host that does them on a file of its own.
#![tactic(auto)]

mod disk;
mod outbox;

pub use disk::OutboxDisk;
