// The commands over the file of a node.
ghost use Rattle.std.specs.Prelude.{◌≡◌, ◌≤◌, ℕ};
ghost use Rattle.sync_disk.specs.Disk.{Rose, Told};
ghost use Rattle.sync_io.specs.Faults.{HasRisen};
ghost use Rattle.sync_node.specs.FileCommands.{Does, IsFileCommand, IsFileFor, IsFileStatus, IsInputFor, ReadsNothing};
ghost use Rattle.sync_node.specs.Texts.{IsDoneOrNoMemory};

use super::client_file::ClientFile;
use super::editor::{Editor, Taker};
use super::feeding::feed;
use super::frames::Frames;
use super::lent::Lent;
use super::lines::Lines;
use super::opening::Ended;
use super::recoverer::Recoverer;
use super::sending::{Errand, write_of_client};
use super::server_text::{ServerText, write_of_server};
use super::showing::show_node;
use super::waiter::Waiter;
use gathered_disk::GatheredDisk;
use std::alloc::Global;
use sync_data::{Id, Ident};
use sync_disk::Disk;
use sync_io::{Sink, Source, Status};

/// A command over the file of a node (docs/FORMATS.md, "The commands over files").
#[derive(Clone, Copy, PartialEq, Eq)]
pub enum FileCommand {
    /// A client does what node lines say: each gets one outcome line. A blank line is counted, and does nothing.
    Edit,
    /// A client writes what the server has to know of it: no frame where it isn't born, one Bind where it has no ident,
    /// else one Upload of what is unsent.
    Send,
    /// A client writes its question for the history; nothing where it has no ident.
    Ask,
    /// A client takes frames: each gets one outcome line.
    Take,
    /// A server answers frames: each gets one reply frame. A refusal is a reply like any other.
    Serve,
    /// A node's part of the report: a client's where the first record of the file is a client's birth, else a server's.
    Show,
    /// A client writes that it takes over from the client of this ident, which is at least 1; nothing where it has no ident.
    Retire { ident: Ident },
    /// A client writes what is unsent, from the number after this one on.
    Rescue { after: u32 },
    /// A client takes the Retired and Upload frames of clients that it takes over from, and recovers what these changed.
    Recover,
    /// A server writes the file that may stand in place of its own.
    Trim,
    /// A server writes the file of a new client of this uuid, which begins with the server's objects.
    Start { id: Id },
    /// A client writes the short file that may stand in place of its own.
    Shrink,
}

/// Runs a command over a disk, and hands the disk back.
fn run_over<S: Source, K: Sink, D: Disk>(
    alloc: Global,
    command: FileCommand,
    source: &mut S,
    sink: &mut K,
    disk: D,
) -> Ended<D>
    requires { IsFileCommand command }
    ensures does { Does D.content D.images D.moment D.images_since command (S.left source.old) result.status disk result.disk (K.taken sink.old) (K.taken sink.new) }
    ensures unread { ReadsNothing command → source.new ≡ source.old }
    ensures bad_untouched { (place : ℕ) → result.status ≡ Status.BadFile place → (source.new ≡ source.old) × (sink.new ≡ sink.old) }
    ensures loan { (D.origin result.disk).listed ≡ (D.origin disk).listed }
    ensures source_faults { S.faults source.old ≤ S.faults source.new }
    ensures sink_faults { K.faults sink.old ≤ K.faults sink.new }
    ensures disk_faults { D.faults disk ≤ D.faults result.disk }
    ensures read_cause { result.status ≡ Status.ReadFault → HasRisen (S.faults source.old) (S.faults source.new) }
    ensures write_cause { result.status ≡ Status.WriteFault → HasRisen (K.faults sink.old) (K.faults sink.new) }
    ensures disk_cause { result.status ≡ Status.DiskFault → Rose (D.faults disk) (D.faults result.disk) }
    ensures only { IsFileStatus command result.status }
{
    match command {
        FileCommand::Edit => {
            feed::<S, K, Lines, D, ClientFile<GatheredDisk<D>, Editor>>(alloc, source, sink, disk)
        }
        FileCommand::Take => {
            feed::<S, K, Frames, D, ClientFile<GatheredDisk<D>, Taker>>(alloc, source, sink, disk)
        }
        FileCommand::Recover => {
            feed::<S, K, Frames, D, ClientFile<GatheredDisk<D>, Recoverer>>(
                alloc, source, sink, disk,
            )
        }
        FileCommand::Serve => feed::<S, K, Frames, D, Waiter<GatheredDisk<D>>>(
            alloc, source, sink, disk,
        ),
        FileCommand::Send => write_of_client(alloc, sink, disk, Errand::Send),
        FileCommand::Ask => write_of_client(alloc, sink, disk, Errand::Ask),
        FileCommand::Retire { ident } => {
            write_of_client(alloc, sink, disk, Errand::Retire { ident })
        }
        FileCommand::Rescue { after } => {
            write_of_client(alloc, sink, disk, Errand::Rescue { after })
        }
        FileCommand::Shrink => write_of_client(alloc, sink, disk, Errand::Shrink),
        FileCommand::Show => show_node(alloc, sink, disk),
        FileCommand::Trim => write_of_server(alloc, sink, disk, ServerText::Trimmed),
        FileCommand::Start { id } => {
            write_of_server(alloc, sink, disk, ServerText::Started { id })
        }
    }
}

/// Runs a command over the file of a node. Each answer is written once the records that it adds are on the disk.
pub fn run_file<S: Source, K: Sink, D: Disk>(
    alloc: Global,
    command: FileCommand,
    source: &mut S,
    sink: &mut K,
    disk: &mut D,
) -> Status
    requires { IsFileCommand command }

    // What is written, what the disk then holds, and what a crash leaves at any end are the command's, over its records.
    ensures does { Does D.content D.images D.moment D.images_since command (S.left source.old) result disk.old disk.new (K.taken sink.old) (K.taken sink.new) }

    // A command that writes a text leaves the input alone. Over a bad file nothing is read or written.
    ensures unread { ReadsNothing command → source.new ≡ source.old }
    ensures bad_untouched { (place : ℕ) → result ≡ Status.BadFile place → (source.new ≡ source.old) × (sink.new ≡ sink.old) }

    // Each fault has its cause.
    ensures source_faults { S.faults source.old ≤ S.faults source.new }
    ensures sink_faults { K.faults sink.old ≤ K.faults sink.new }
    ensures disk_faults { D.faults disk.old ≤ D.faults disk.new }
    ensures read_cause { result ≡ Status.ReadFault → HasRisen (S.faults source.old) (S.faults source.new) }
    ensures write_cause { result ≡ Status.WriteFault → HasRisen (K.faults sink.old) (K.faults sink.new) }
    ensures disk_cause { result ≡ Status.DiskFault → Rose (D.faults disk.old) (D.faults disk.new) }
    ensures only { IsFileStatus command result }

    // Over a file of its node, with valid input and without a fault, the command is done, or memory ran out.
    ensures complete { Told (D.content disk.old) (λ b. IsFileFor command b → IsInputFor command (S.left source.old)
        → (HasRisen (S.faults source.old) (S.faults source.new) → ⊥)
        → (HasRisen (K.faults sink.old) (K.faults sink.new) → ⊥)
        → (Rose (D.faults disk.old) (D.faults disk.new) → ⊥) → IsDoneOrNoMemory result) }
{
    run_over(alloc, command, source, sink, Lent::of(disk)).status
}
