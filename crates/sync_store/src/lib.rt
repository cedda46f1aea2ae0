//! The object store: a schema, and the objects of its tables.
#![tactic(auto)]

mod check;
mod object;
mod objects;
mod parts;
mod put;
mod put_all;
mod refusals;
mod rows;
mod store;
mod undo;
mod wanted;

pub use refusals::{AllRefusal, ApplyRefusal};
pub use store::Store;
