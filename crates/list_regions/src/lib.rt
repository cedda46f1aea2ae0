//! Lanes whose slots lie in regions, in order of places. An instruction that crosses such a lane meets the slots of one region
//! alone, or none.
#![tactic(auto)]

mod crossing;
mod cut;
mod listed;
mod merge;
mod pop;
mod push;
mod region;
mod regions;
mod walk;

pub use regions::Regions;
