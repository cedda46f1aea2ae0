//! A client of the exchange: its journal, its objects, its cursor and its unsent changesets.
#![tactic(auto)]

mod beginning;
mod client;
mod entries;
mod files;
mod front;
mod opening;
mod refusal;
mod replica;
mod sending;
mod standing;
mod tables;
mod taking;
mod transactions;

pub use client::Client;
pub use refusal::ClientRefusal;
