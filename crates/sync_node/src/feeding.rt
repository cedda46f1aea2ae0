// The commands over files that read an input: one run for all of them.
ghost use Rattle.std.specs.Prelude.{◌≡◌, ◌≤◌, ℕ};
ghost use Rattle.sync_disk.specs.Disk.{Rose};
ghost use Rattle.sync_io.specs.Faults.{HasRisen};
ghost use Rattle.sync_node.specs.Commands.{AnswersItems};
ghost use Rattle.sync_node.specs.Runs.{IsNodeStatus, noting_runs};

use super::command::Command;
use super::opening::Ended;
use super::reader::ItemReader;
use super::run::run;
use std::alloc::Global;
use sync_disk::Disk;
use sync_io::{Sink, Source, Status};

/// Opens the node of a disk, runs its command over the items of a source, and hands the disk back.
pub(crate) fn feed<S: Source, K: Sink, I: ItemReader, D: Disk, C: Command<D>>(
    alloc: Global,
    source: &mut S,
    sink: &mut K,
    disk: D,
) -> Ended<D>
    ensures answers { AnswersItems D.content D.images C.file_of C.bytes_of (λ records. noting_runs C.step C.noted C.first records (I.items_of (S.left source.old))) result.status disk result.disk (K.taken sink.old) (K.taken sink.new) }
    ensures bad_untouched { (place : ℕ) → result.status ≡ Status.BadFile place → (source.new ≡ source.old) × (sink.new ≡ sink.old) }
    ensures loan { (D.origin result.disk).listed ≡ (D.origin disk).listed }
    ensures source_faults { S.faults source.old ≤ S.faults source.new }
    ensures sink_faults { K.faults sink.old ≤ K.faults sink.new }
    ensures disk_faults { D.faults disk ≤ D.faults result.disk }
    ensures read_cause { result.status ≡ Status.ReadFault → HasRisen (S.faults source.old) (S.faults source.new) }
    ensures write_cause { result.status ≡ Status.WriteFault → HasRisen (K.faults sink.old) (K.faults sink.new) }
    ensures disk_cause { result.status ≡ Status.DiskFault → Rose (D.faults disk) (D.faults result.disk) }
    ensures only { IsNodeStatus result.status }
{
    let mut command = match C::open_file(alloc, disk) {
        Ok(command) => command,
        Err(ended) => return ended,
    };
    let status = run::<S, K, I, D, C>(alloc, source, sink, &mut command);
    Ended {
        status,
        disk: command.close(),
    }
}
