//! Laws of files whose records know their lives, of who reads them, and of heirs. No code runs here.
#![tactic(auto)]

pub mod heirs_law;
pub mod laws;
pub mod told;

pub use heirs_law::{
    frontiers_suffice, given_files_can_be_brought, heirs_save_in_order, heirs_save_once,
    nothing_is_lost, numbers_suffice, numbers_tell_what_is_there, stored_heirs_are_heirs,
    what_is_missing_can_be_saved,
};
pub use laws::{
    clients_keep_history, clients_read_servers, downloads_go_on, files_converge,
    marked_pairs_are_exchanges, marks_tell_files, nodes_tell_their_files, pairs_are_exchanges,
    readers_follow, roaming_files_are_exchanges, servers_keep_lines, servers_read_clients,
    stored_marks_suffice, trimmed_pairs_are_exchanges, uploads_go_on,
};
pub use told::Told;
