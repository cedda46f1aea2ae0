//! Sources, sinks, disks and journals, and those over readers, writers and files of the host: what fails, stops and is cut.
#![tactic(auto)]

mod disks;
mod files;
mod hosts;
mod journals;
mod locks;
mod outboxes;
mod sinks;
mod sources;
mod statuses;

/// Each case by its name, and whether it comes out as it must.
pub fn cases(rt: &HostRuntime) -> [(&'static str, bool); 17] {
    let alloc = rt.alloc();
    [
        (
            "a crash leaves what the disk was armed with",
            disks::a_crash_leaves_what_the_disk_was_armed_with(alloc),
        ),
        (
            "calls fail where they are set to",
            disks::calls_fail_where_they_are_set_to(alloc),
        ),
        (
            "a disk that is disarmed goes on",
            disks::a_disk_that_is_disarmed_goes_on(alloc),
        ),
        (
            "disks and journals over files",
            files::disks_and_journals_over_files(rt),
        ),
        (
            "a record of 67,108,865 bytes is too long",
            journals::a_record_of_67_108_865_bytes_is_too_long(alloc),
        ),
        (
            "an append stands in the file",
            journals::an_append_stands_in_the_file(alloc),
        ),
        (
            "a landing stands in the file",
            journals::a_landing_stands_in_the_file(alloc),
        ),
        (
            "a fault at each disk call",
            journals::a_fault_at_each_disk_call(alloc),
        ),
        (
            "one opening holds a file at a time",
            locks::one_opening_holds_a_file_at_a_time(rt),
        ),
        (
            "an outbox has each stroke since it was emptied",
            outboxes::an_outbox_has_each_stroke_since_it_was_emptied(alloc),
        ),
        (
            "a writer that fails is a sink that fails",
            sinks::a_writer_that_fails_is_a_sink_that_fails(alloc),
        ),
        (
            "a writer that takes nothing is a sink that fails",
            sinks::a_writer_that_takes_nothing_is_a_sink_that_fails(alloc),
        ),
        (
            "each call of a sink fails in turn",
            sinks::each_call_of_a_sink_fails_in_turn(alloc),
        ),
        (
            "frames come whole however the bytes are cut",
            sources::frames_come_whole_however_the_bytes_are_cut(alloc),
        ),
        (
            "a reader that fails is no end of the input",
            sources::a_reader_that_fails_is_no_end_of_the_input(alloc),
        ),
        (
            "a failed read is answered again",
            sources::a_failed_read_is_answered_again(alloc),
        ),
        ("exit numbers", statuses::exit_numbers()),
    ]
}
