//! A toy, numbers on a sheet, is exchanged through the bound.

use sync_model::{
    Exchange, breaks_are_listed, files_read_back, harmless_clients_catch_up, heirs_save_once,
    later_worlds_hold, later_worlds_make_progress, lists_stay_small, nodes_stay_within_limits,
    nodes_write_what_opens, recoveries_end, retired_counts_are_final,
    server_files_give_what_is_kept, servers_answer_by_parts, started_clients_have_the_objects,
    trimmed_servers_answer_alike, worlds_hold, worlds_make_progress,
};

struct Toys;

impl Exchange for Toys {
    ghost use Rattle.sync_theory.specs.Toy.{AnySheet, Sheet, Toy};
    ghost use Rattle.sync_model.specs.Toy.{OldSheet, toy};
    ghost use Rattle.sync_model.specs.ToyLaw.{toy_buildable, toy_lawful};

    ghost Instr = { Toy };

    ghost State = { Sheet };

    ghost profile = { toy };

    ghost Fits = { AnySheet };

    ghost lawful = { toy_lawful };

    ghost Bounded = { AnySheet };

    ghost Old = { OldSheet };

    ghost buildable = { toy_buildable };
}

/// All laws of nodes and worlds are called.
pub fn a_toy_can_be_exchanged() {
    worlds_hold::<Toys>();
    servers_answer_by_parts::<Toys>();
    nodes_write_what_opens::<Toys>();
    nodes_stay_within_limits::<Toys>();
    lists_stay_small::<Toys>();
    files_read_back::<Toys>();
    retired_counts_are_final::<Toys>();
    breaks_are_listed::<Toys>();
    heirs_save_once::<Toys>();
    trimmed_servers_answer_alike::<Toys>();
    later_worlds_hold::<Toys>();
    server_files_give_what_is_kept::<Toys>();
    started_clients_have_the_objects::<Toys>();
    worlds_make_progress::<Toys>();
    harmless_clients_catch_up::<Toys>();
    later_worlds_make_progress::<Toys>();
    recoveries_end::<Toys>();
}
