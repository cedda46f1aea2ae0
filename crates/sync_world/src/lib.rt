//! An exchange of clients with one server: what each event makes of it, and what it comes to.
#![tactic(auto)]

mod deliveries;
mod disks;
mod edits;
mod hub;
mod laws;
mod messages;
mod node;
mod sends;
mod stop;
mod stopping;
mod tables;
mod world;

pub use world::World;
