//! A disk that keeps what is written at and behind one place, and brings it to the disk below in four strokes.
#![tactic(auto)]

mod asked;
mod gathered;
mod landing;

pub use gathered::GatheredDisk;
