ghost use Rattle.std.specs.Prelude.{◌≡◌, ◌≢◌, ◌++◌, ℕ, ◌≤◌, List, [], Option, Err, IfErr, OnOk};
ghost use Rattle.std.specs.Option.{option_map};
ghost use Rattle.sync_disk.specs.Disk.{Rose};
ghost use Rattle.sync_io.specs.Devices.{Took};
ghost use Rattle.sync_io.specs.Faults.{HasRisen};
ghost use Rattle.sync_node.specs.Runs.{AllTold, Answer, EndsBehind, ExitsTold, IsFlushStatus, IsRunStatus, Run, StopsTold, added, noting_runs, onto, texts};

use super::command::{Command, ItemEnd};
use super::reader::ItemReader;
use super::text::write_status;
use std::alloc::Global;
use sync_disk::{Disk, DiskRefusal};
use sync_io::{NoMemory, Sink, Source, Status, write_all};

/// Brings the records that are gathered to the disk, and then writes the answers that wait for it.
fn flush<K: Sink, D: Disk, C: Command<D>>(
    sink: &mut K,
    command: &mut C,
    answers: &mut Vec<u8>,
) -> Result<(), Status>
    ensures ok { (notes : C.Notes) (records : List C.Record) (waiting : List (Answer C.Record)) → C.Stands command.old notes (records ++ added waiting) → answers.old.items ≡ texts waiting
        → OnOk result (Took (texts waiting) (K.taken sink.old) (K.taken sink.new) × C.Stands command.new notes (records ++ added waiting) × C.Holds command.new (records ++ added waiting)) }
    ensures err { (notes : C.Notes) (records : List C.Record) (waiting : List (Answer C.Record)) → C.Holds command.old records → C.Stands command.old notes (records ++ added waiting) → answers.old.items ≡ texts waiting
        → IfErr result (λ status. EndsBehind C.bytes_of (C.Holds command.new) (D.images (C.disk_below command.new)) records waiting status (K.taken sink.old) (K.taken sink.new)) }
    ensures emptied { OnOk result (answers.new.items ≡ []) }
    ensures loan { (D.origin (C.disk_below command.new)).listed ≡ (D.origin (C.disk_below command.old)).listed }
    ensures sink_faults { K.faults sink.old ≤ K.faults sink.new }
    ensures disk_faults { D.faults (C.disk_below command.old) ≤ D.faults (C.disk_below command.new) }
    ensures write_cause { result ≡ Err Status.WriteFault → HasRisen (K.faults sink.old) (K.faults sink.new) }
    ensures disk_cause { result ≡ Err Status.DiskFault → Rose (D.faults (C.disk_below command.old)) (D.faults (C.disk_below command.new)) }
    ensures only { IfErr result IsFlushStatus }
{
    match command.land_records() {
        Ok(()) => {}
        Err(DiskRefusal::Failed) => return Err(Status::DiskFault),
        Err(DiskRefusal::NoMemory) => return Err(Status::NoMemory),
    }
    match write_all(sink, answers) {
        Ok(()) => {}
        Err(refusal) => return Err(write_status(refusal)),
    }
    answers.clear();
    Ok(())
}

/// Ends a run with this status, once its answers are written.
fn finish<K: Sink, D: Disk, C: Command<D>>(
    sink: &mut K,
    command: &mut C,
    answers: &mut Vec<u8>,
    status: Status,
) -> Status
    ensures exits { (notes : C.Notes) (records : List C.Record) (waiting : List (Answer C.Record)) → C.Holds command.old records → C.Stands command.old notes (records ++ added waiting) → answers.old.items ≡ texts waiting → AllTold waiting
        → (rest : Option (Run C.Record)) → StopsTold status rest
        → ExitsTold C.bytes_of (C.Holds command.new) (D.images (C.disk_below command.new)) records (option_map (onto waiting) rest) result (K.taken sink.old) (K.taken sink.new) }
    ensures loan { (D.origin (C.disk_below command.new)).listed ≡ (D.origin (C.disk_below command.old)).listed }
    ensures sink_faults { K.faults sink.old ≤ K.faults sink.new }
    ensures disk_faults { D.faults (C.disk_below command.old) ≤ D.faults (C.disk_below command.new) }
    ensures read_cause { result ≡ Status.ReadFault → status ≡ Status.ReadFault }
    ensures write_cause { result ≡ Status.WriteFault → status ≢ Status.WriteFault → HasRisen (K.faults sink.old) (K.faults sink.new) }
    ensures disk_cause { result ≡ Status.DiskFault → status ≢ Status.DiskFault → Rose (D.faults (C.disk_below command.old)) (D.faults (C.disk_below command.new)) }
    ensures only { IsRunStatus status → IsRunStatus result }
{
    match flush(sink, command, answers) {
        Ok(()) => status,
        Err(fault) => fault,
    }
}

/// Answers all items. Answers wait while a further item was read already: the records of what one read gave land together.
fn answer_items<S: Source, K: Sink, I: ItemReader, D: Disk, C: Command<D>>(
    alloc: Global,
    items: &mut I,
    source: &mut S,
    sink: &mut K,
    command: &mut C,
) -> Status
    requires { I.ready items.old }
    ensures exits { (notes : C.Notes) (records : List C.Record) → C.Stands command.old notes records → C.Holds command.old records
        → ExitsTold C.bytes_of (C.Holds command.new) (D.images (C.disk_below command.new)) records (noting_runs C.step C.noted notes records (I.ahead items.old (S.left source.old))) result (K.taken sink.old) (K.taken sink.new) }
    ensures loan { (D.origin (C.disk_below command.new)).listed ≡ (D.origin (C.disk_below command.old)).listed }
    ensures source_faults { S.faults source.old ≤ S.faults source.new }
    ensures sink_faults { K.faults sink.old ≤ K.faults sink.new }
    ensures disk_faults { D.faults (C.disk_below command.old) ≤ D.faults (C.disk_below command.new) }
    ensures read_cause { result ≡ Status.ReadFault → HasRisen (S.faults source.old) (S.faults source.new) }
    ensures write_cause { result ≡ Status.WriteFault → HasRisen (K.faults sink.old) (K.faults sink.new) }
    ensures disk_cause { result ≡ Status.DiskFault → Rose (D.faults (C.disk_below command.old)) (D.faults (C.disk_below command.new)) }
    ensures only { IsRunStatus result }
{
    let mut answers = Vec::new(alloc);
    'items: loop {
        let item = match items.next(source) {
            Ok(Some(item)) => item,
            Ok(None) => return finish(sink, command, &mut answers, Status::Done),
            Err(status) => return finish(sink, command, &mut answers, status),
        };
        let number = item.number;
        let text = match command.answer(number, item.bytes.as_slice()) {
            Ok(text) => text,
            Err(ItemEnd::BadItem) => {
                return finish(
                    sink,
                    command,
                    &mut answers,
                    Status::BadInput { place: number },
                );
            }
            Err(ItemEnd::DiskFault) => return Status::DiskFault,
            Err(ItemEnd::NoMemory) => return Status::NoMemory,
        };
        match answers.extend_from_slice(text.as_slice()) {
            Ok(()) => {}
            Err(_) => return Status::NoMemory,
        }
        if items.is_ahead() {
            continue 'items;
        }
        match flush(sink, command, &mut answers) {
            Ok(()) => {}
            Err(status) => return status,
        }
    }
}

/// Runs a command over the items of a source. Each answer is written once its records are on the disk, before more is read.
pub(crate) fn run<S: Source, K: Sink, I: ItemReader, D: Disk, C: Command<D>>(
    alloc: Global,
    source: &mut S,
    sink: &mut K,
    command: &mut C,
) -> Status
    ensures exits { (notes : C.Notes) (records : List C.Record) → C.Stands command.old notes records → C.Holds command.old records
        → ExitsTold C.bytes_of (C.Holds command.new) (D.images (C.disk_below command.new)) records (noting_runs C.step C.noted notes records (I.items_of (S.left source.old))) result (K.taken sink.old) (K.taken sink.new) }
    ensures loan { (D.origin (C.disk_below command.new)).listed ≡ (D.origin (C.disk_below command.old)).listed }
    ensures source_faults { S.faults source.old ≤ S.faults source.new }
    ensures sink_faults { K.faults sink.old ≤ K.faults sink.new }
    ensures disk_faults { D.faults (C.disk_below command.old) ≤ D.faults (C.disk_below command.new) }
    ensures read_cause { result ≡ Status.ReadFault → HasRisen (S.faults source.old) (S.faults source.new) }
    ensures write_cause { result ≡ Status.WriteFault → HasRisen (K.faults sink.old) (K.faults sink.new) }
    ensures disk_cause { result ≡ Status.DiskFault → Rose (D.faults (C.disk_below command.old)) (D.faults (C.disk_below command.new)) }
    ensures only { IsRunStatus result }
{
    let mut items = match I::new(alloc) {
        Ok(items) => items,
        Err(NoMemory) => return Status::NoMemory,
    };
    let status = answer_items(alloc, &mut items, source, sink, command);
    match sink.flush() {
        Ok(()) => status,
        Err(refusal) => write_status(refusal),
    }
}
