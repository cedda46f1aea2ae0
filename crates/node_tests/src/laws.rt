//! The laws of nodes and worlds hold of the project's own instructions.

use sync_exchange::Instrs;
use sync_model::{
    breaks_are_listed, files_read_back, heirs_save_once, later_worlds_hold,
    later_worlds_make_progress, lists_stay_small, nodes_stay_within_limits, nodes_write_what_opens,
    recoveries_end, retired_counts_are_final, server_files_give_what_is_kept,
    servers_answer_by_parts, started_clients_have_the_objects, trimmed_servers_answer_alike,
    worlds_hold, worlds_make_progress,
};

/// All laws are called.
pub fn the_instructions_can_be_exchanged() {
    worlds_hold::<Instrs>();
    servers_answer_by_parts::<Instrs>();
    nodes_write_what_opens::<Instrs>();
    nodes_stay_within_limits::<Instrs>();
    lists_stay_small::<Instrs>();
    files_read_back::<Instrs>();
    retired_counts_are_final::<Instrs>();
    breaks_are_listed::<Instrs>();
    heirs_save_once::<Instrs>();
    trimmed_servers_answer_alike::<Instrs>();
    server_files_give_what_is_kept::<Instrs>();
    later_worlds_hold::<Instrs>();
    started_clients_have_the_objects::<Instrs>();
    worlds_make_progress::<Instrs>();
    later_worlds_make_progress::<Instrs>();
    recoveries_end::<Instrs>();
}
