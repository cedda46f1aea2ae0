//! Instructions of lists by what they do and where, two of them after they met, and changesets of one of them elsewhere.
#![tactic(auto)]

mod moves;
mod places;
mod stamps;

pub use moves::{
    ListAction, Moves, action_at, action_in, both_move, moved_to, put_action, same_first_cell,
    shown, write,
};
pub use places::{Does, length_after, place_after};
pub use stamps::is_later;
