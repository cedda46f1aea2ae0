//! Laws of crossing pending changesets instruction by instruction. No code runs here.
#![tactic(auto)]

pub mod laws;
pub mod rules;

pub use laws::{slots_cross_as_changesets, some_slots_suffice};
pub use rules::{
    barriers_drop_lanes, lanes_cross_their_slots, lanes_suffice, strangers_pass_slots,
};
