//! What nodes keep of the notes in their files: the life of each record that is told of, and which transactions were saved.
#![tactic(auto)]

mod client_marks;
mod life_list;
mod pieces;
mod reached;
mod reading;
mod server_marks;

pub use client_marks::ClientMarks;
pub use life_list::LifeList;
pub use pieces::{ClientPiece, ServerPiece};
pub use reached::Reached;
pub use reading::MarksRefusal;
pub use server_marks::{Line, ServerMarks};
