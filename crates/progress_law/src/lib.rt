//! Laws of progress above those of `sync_model`: rounds of a client among any other events. No code runs here.
#![tactic(auto)]

pub mod laws;

pub use laws::rounds_among_events_make_progress;
