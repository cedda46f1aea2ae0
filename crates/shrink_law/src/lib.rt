//! Laws of clients that put short files in place of theirs, and of client files that were copied or put back. No code runs here.
#![tactic(auto)]

pub mod laws;

pub use laws::{
    alike_clients_stay_alike, current_clients_send_no_repeats, forked_clients_are_saved,
    shrunk_exchanges_are_exchanges, shrunk_files_give_the_client,
};
