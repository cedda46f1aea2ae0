//! Clients and servers over disks in memory, what is made of their objects and files, and what an application and a host in another
//! language call. What nodes answer to messages, and disks that stop, are tried in `program_cases`.
#![tactic(auto)]

mod changed;
mod clients;
mod heirs;
mod hosts;
mod laws;
mod next;
mod resets;
mod servers;
mod snapshots;
mod spelled;
mod talks;
mod transactions;
mod trims;

pub use laws::the_instructions_can_be_exchanged;
use std::alloc::Global;

/// Each case of nodes by its name, and whether it comes out as it must.
pub fn cases(alloc: Global) -> [(&'static str, bool); 10] {
    [
        (
            "a client of some tables",
            clients::a_client_of_some_tables(alloc),
        ),
        (
            "a file that begins with a state",
            clients::a_file_that_begins_with_a_state(alloc),
        ),
        ("a short file", clients::a_short_file(alloc)),
        (
            "an exchange is answered and kept",
            servers::an_exchange_is_answered_and_kept(alloc),
        ),
        (
            "a trimmed file answers from its floor on",
            servers::a_trimmed_file_answers_from_its_floor_on(alloc),
        ),
        (
            "each change is integrated, known or saved",
            heirs::each_change_is_integrated_known_or_saved(alloc),
        ),
        (
            "files begin with the objects",
            trims::files_begin_with_the_objects(alloc),
        ),
        (
            "what breaks is dropped and the rest is made to fit",
            resets::what_breaks_is_dropped_and_the_rest_is_made_to_fit(alloc),
        ),
        (
            "a state is built in order of names",
            snapshots::a_state_is_built_in_order_of_names(alloc),
        ),
        (
            "a part that is no part is named",
            snapshots::a_part_that_is_no_part_is_named(alloc),
        ),
    ]
}

/// The same of what an application and a host in another language call.
pub fn cases_of_applications(alloc: Global) -> [(&'static str, bool); 7] {
    [
        (
            "calls see the transaction so far",
            transactions::calls_see_the_transaction_so_far(alloc),
        ),
        (
            "refusals have words",
            transactions::refusals_have_words(alloc),
        ),
        (
            "each instruction has its place",
            changed::each_instruction_has_its_place(alloc),
        ),
        (
            "a client sends what is next",
            next::a_client_sends_what_is_next(alloc),
        ),
        (
            "a client asks before it uploads",
            talks::a_client_asks_before_it_uploads(alloc),
        ),
        ("a client of a host answers", hosts::a_client_answers(alloc)),
        ("other places of a host answer", hosts::others_answer(alloc)),
    ]
}
