// What is written of a server over a file.
ghost use Rattle.std.specs.Prelude.{◌≡◌, ◌≤◌, ℕ, List, false, Some, Ok, Err, IfOk, OnOk};
ghost use Rattle.sync_disk.specs.Disk.{Rose, Told};
ghost use Rattle.sync_io.specs.Faults.{HasRisen};
ghost use Rattle.sync_model.specs.Servers.{ServerRecord};
ghost use Rattle.sync_server.specs.Serving.{IsServerOf, is_closed};
ghost use Rattle.sync_node.specs.Commands.{TellsText};
ghost use Rattle.sync_node.specs.Opening.{server_file};
ghost use Rattle.sync_node.specs.ServerTexts.{StandsFor, text_of};
ghost use Rattle.sync_node.specs.Texts.{IsTellStatus};

use crate::opening::{Ended, open_server};
use crate::text::write_text;
use std::alloc::Global;
use sync_data::{Id, NoMemory};
use sync_disk::Disk;
use sync_io::{Sink, Status};
use sync_server::Server;
use sync_trim::{started_file, trimmed_file};
use sync_words::put_server;

/// What is asked of a server over a file.
#[derive(Clone, Copy, PartialEq, Eq)]
pub enum ServerText {
    /// Its part of the report.
    Report,
    /// Its file without the history before its next floor, which no client needs that isn't given up.
    Trimmed,
    /// The file of a new client of this uuid, which begins with the server's objects.
    Started { id: Id },
}

/// The text.
fn text_of<D: Disk>(
    alloc: Global,
    server: &Server<D>,
    what: ServerText,
) -> Result<Vec<u8>, NoMemory>
    requires open_ { is_closed server.now ≡ false }
    ensures text { (records : List ServerRecord) → IsServerOf records server.now → IfOk result (λ text. text.items ≡ text_of what records) }
    ensures stands { (records : List ServerRecord) → IsServerOf records server.now → OnOk result (StandsFor what records) }
{
    match what {
        ServerText::Report => {
            let mut out = Vec::new(alloc);
            put_server(alloc, &mut out, server)?;
            Ok(out)
        }
        ServerText::Trimmed => trimmed_file(alloc, server),
        ServerText::Started { id } => started_file(alloc, server, id),
    }
}

/// Opens the server of a disk, writes what is asked of it, and hands the disk back.
pub(crate) fn write_of_server<K: Sink, D: Disk>(
    alloc: Global,
    sink: &mut K,
    disk: D,
    what: ServerText,
) -> Ended<D>
    ensures tells { TellsText D.content D.images D.moment D.images_since server_file (text_of what) result.status disk result.disk (K.taken sink.old) (K.taken sink.new) }
    ensures stands { Told (D.content disk) (λ b. (records : List ServerRecord) → server_file b ≡ Ok records → result.status ≡ Status.Done → StandsFor what records) }
    ensures bad_untouched { (place : ℕ) → result.status ≡ Status.BadFile place → sink.new ≡ sink.old }
    ensures origin { D.origin result.disk ≡ D.origin disk }
    ensures disk_faults { D.faults disk ≤ D.faults result.disk }
    ensures sink_faults { K.faults sink.old ≤ K.faults sink.new }
    ensures disk_cause { result.status ≡ Status.DiskFault → Rose (D.faults disk) (D.faults result.disk) }
    ensures write_cause { result.status ≡ Status.WriteFault → HasRisen (K.faults sink.old) (K.faults sink.new) }
    ensures only { IsTellStatus result.status }
{
    let server = match open_server(alloc, disk) {
        Ok(server) => server,
        Err(ended) => return ended,
    };
    let text = text_of(alloc, &server, what);
    let status = write_text(sink, text);
    Ended {
        status,
        disk: server.into_disk(),
    }
}
