//! Changesets as bytes, and back.
#![tactic(auto)]

mod decoding;
mod encoding;
mod fields;
mod instrs;
mod keys;
mod opcode;
mod reader;
mod refusal;
mod strings;
mod values;
mod writer;
mod writing;

pub use decoding::{
    any_needs_second, decode, needs_second, spellings_differ, what_is_spelled_is_read,
};
pub use encoding::encode;
pub use refusal::{BadBytes, DecodeRefusal};
