ghost use Rattle.std.specs.Prelude.{◌≡◌, ℕ, ◌+◌, ◌<◌, ◌≤◌, List, [], length, None, Result, Ok, Err, IfOk, IfErr, OnOk, OnErr};
ghost use Rattle.sync_io.specs.Faults.{HasRisen};
ghost use Rattle.sync_io.specs.Readers.{readings};
ghost use Rattle.sync_top.specs.Runs.{Follows, HasRun, ended, flush_status, IsReportStatus, answer_to, Answered, EndsAt, IsLineStatus, IsRunStatus};

use super::command::{Command, LineEnd};
use std::alloc::Global;
use sync_data::NoMemory;
use sync_io::{LineReader, Sink, SinkRefusal, Source, Status, write_all};
use sync_node::{is_blank, read_status, write_status};

/// Answers the line of this number, and writes the answer. A blank one is passed over.
fn answer_line<K: Sink, C: Command>(
    alloc: Global,
    sink: &mut K,
    command: &mut C,
    number: u64,
    line: &[u8],
) -> Result<(), Status>
    requires { 0 < length line.now → number < 4294967296 }
    ensures ok { (s : C.State) → C.holds s command.old
        → OnOk result (Answered (answer_to C.answers s number line.now) (λ t. C.holds t command.new) (K.taken sink.old) (K.taken sink.new)) }
    ensures err { (s : C.State) → C.holds s command.old
        → IfErr result (λ status. EndsAt status number s (answer_to C.answers s number line.now) (λ t. C.holds t command.new) (K.taken sink.old) (K.taken sink.new)) }
    ensures faults { K.faults sink.old ≤ K.faults sink.new }
    ensures cause { result ≡ Err Status.WriteFault → HasRisen (K.faults sink.old) (K.faults sink.new) }
    ensures only { IfErr result IsLineStatus }
{
    if is_blank(line) {
        return Ok(());
    }
    let number = number as u32;
    let text = match command.answer(alloc, number, line) {
        Ok(text) => text,
        Err(LineEnd::BadLine) => return Err(Status::BadInput { place: number }),
        Err(LineEnd::NoMemory) => return Err(Status::NoMemory),
    };
    match write_all(sink, &text) {
        Ok(()) => Ok(()),
        Err(refusal) => Err(write_status(refusal)),
    }
}

/// Writes the report of a command.
fn write_report<K: Sink, C: Command>(sink: &mut K, command: &C) -> Status
    ensures follows { (s : C.State) → C.holds s command.now
        → Follows result (ended (C.report s) Status.Done s) (K.taken sink.old) (K.taken sink.new) }
    ensures faults { K.faults sink.old ≤ K.faults sink.new }
    ensures cause { result ≡ Status.WriteFault → HasRisen (K.faults sink.old) (K.faults sink.new) }
    ensures only { IsReportStatus result }
{
    let text = match command.report() {
        Ok(text) => text,
        Err(NoMemory) => return Status::NoMemory,
    };
    match write_all(sink, &text) {
        Ok(()) => Status::Done,
        Err(refusal) => write_status(refusal),
    }
}

/// Answers the lines up to the end of the input, and then writes the report.
fn answer_all<S: Source, K: Sink, C: Command>(
    alloc: Global,
    source: &mut S,
    sink: &mut K,
    command: &mut C,
) -> Status
    ensures run { (s : C.State) → C.holds s command.old
        → HasRun C.answers C.report (λ t. C.holds t command.new) result (readings 0 [] (S.left source.old)) s (K.taken sink.old) (K.taken sink.new) }
    ensures source_faults { S.faults source.old ≤ S.faults source.new }
    ensures sink_faults { K.faults sink.old ≤ K.faults sink.new }
    ensures read_cause { result ≡ Status.ReadFault → HasRisen (S.faults source.old) (S.faults source.new) }
    ensures write_cause { result ≡ Status.WriteFault → HasRisen (K.faults sink.old) (K.faults sink.new) }
    ensures only { IsRunStatus result }
{
    let mut reader = match LineReader::new(alloc) {
        Ok(reader) => reader,
        Err(_) => return Status::NoMemory,
    };
    let mut number: u64 = 0;
    'lines: loop {
        let line = match reader.next(source) {
            Ok(Some(line)) => line,
            Ok(None) => return write_report(sink, command),
            Err(refusal) => return read_status(number, refusal),
        };
        number += 1;
        match answer_line(alloc, sink, command, number, &line) {
            Ok(()) => {}
            Err(status) => return status,
        }
    }
}

/// The status of a run behind which the last flush was refused: out of memory, nothing is said of what is left.
fn flush_status(status: Status, refusal: SinkRefusal) -> Status
    ensures { result ≡ flush_status status refusal }
{
    match status {
        Status::NoMemory => Status::NoMemory,
        _ => write_status(refusal),
    }
}

/// Runs a command over the lines of a source: writes the answers, at the end of the input the report, and flushes the sink.
pub fn run_lines<S: Source, K: Sink, C: Command>(
    alloc: Global,
    source: &mut S,
    sink: &mut K,
    command: &mut C,
) -> Status
    ensures run { (s : C.State) → C.holds s command.old
        → HasRun C.answers C.report (λ t. C.holds t command.new) result (readings 0 [] (S.left source.old)) s (K.taken sink.old) (K.taken sink.new) }
    ensures source_faults { S.faults source.old ≤ S.faults source.new }
    ensures sink_faults { K.faults sink.old ≤ K.faults sink.new }
    ensures read_cause { result ≡ Status.ReadFault → HasRisen (S.faults source.old) (S.faults source.new) }
    ensures write_cause { result ≡ Status.WriteFault → HasRisen (K.faults sink.old) (K.faults sink.new) }
    ensures only { IsRunStatus result }
{
    let status = answer_all(alloc, source, sink, command);
    match sink.flush() {
        Ok(()) => status,
        Err(refusal) => flush_status(status, refusal),
    }
}
