//! What the marks that nodes read from their files are to the laws of lives. No code runs here.
#![tactic(auto)]

pub mod laws;

pub use laws::{
    journals_keep_lives, lives_have_numbers, marks_are_what_is_kept, marks_that_agree_suffice,
};
