//! A state as changesets, and back: `build` cuts the list of instructions that leads to a store's state into changesets,
//! and `grown` makes the store of them.
#![tactic(auto)]

mod building;
mod cells;
mod cutter;
mod growing;
mod objects;
mod schema;
mod whole;

pub use building::build;
pub use growing::{GrowRefusal, grown};
pub use objects::object_instrs;
pub use schema::schema_instrs;
