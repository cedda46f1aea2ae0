//! The theory of merging at the project's own states and instructions.
#![tactic(auto)]

mod codes;
mod instrs;
mod laws;
mod stamps;

pub use codes::codes_agree;
pub use instrs::Instrs;
pub use laws::{
    changesets_agree, crossings_are_one, instructions_agree, lists_act_alike, lists_agree,
    reciprocal_lists_settle, worlds_converge,
};
pub use stamps::stamps_tell;
