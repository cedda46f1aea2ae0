ghost use Rattle.std.specs.Prelude.{◌≡◌, ◌<◌, ◌≤◌, ℕ, List, length, Some, Ok, Err, IfOk, IfErr};
ghost use Rattle.sync_disk.specs.Disk.{LeavesOnly, Rose, Told};
ghost use Rattle.sync_io.specs.Faults.{HasRisen};
ghost use Rattle.sync_journal.specs.Records.{records_of};
ghost use Rattle.sync_journal.specs.Records.Reading.{Good, BadAt};
ghost use Rattle.sync_exchange.specs.Seen.{client_seen, read_client};
ghost use Rattle.sync_node.specs.Commands.{TellsText};
ghost use Rattle.sync_node.specs.Opening.{HoldsThose, IsOpenStatus};
ghost use Rattle.sync_node.specs.Showing.{is_birth, is_client_file, node_file, shown, starts_born};
ghost use Rattle.sync_node.specs.Texts.{IsTellStatus};

use crate::opening::{Ended, unopened};
use crate::sending::{Errand, write_of_client};
use crate::server_text::{ServerText, write_of_server};
use byte_lists::ByteLists;
use std::alloc::Global;
use sync_data::NoMemory;
use sync_disk::Disk;
use sync_io::{Sink, Status};
use sync_journal::Journal;
use sync_records::{ClientRecord, RecordRefusal};

/// The disk of a node's file, and whether it is a client's.
#[derive(Drop)]
struct Sorted<D: Disk> {
    is_client: bool,
    disk: D,
}

fn is_made_birth(made: &ClientRecord) -> bool
    ensures { result ≡ is_birth (Some (client_seen made.now)) }
{
    match made {
        ClientRecord::Born { id: _ } => true,
        _ => false,
    }
}

/// Whether the bytes are the record of a client's birth.
fn is_birth(alloc: Global, bytes: &[u8]) -> Result<bool, NoMemory>
    ensures { IfOk result (λ is. is ≡ is_birth (read_client bytes.now)) }
{
    match ClientRecord::record_of(alloc, bytes) {
        Ok(made) => Ok(is_made_birth(&made)),
        Err(RecordRefusal::BadRecord) => Ok(false),
        Err(RecordRefusal::NoMemory) => Err(NoMemory),
    }
}

/// Whether the first of the records is a client's birth.
fn starts_born(alloc: Global, records: &ByteLists) -> Result<bool, NoMemory>
    ensures { IfOk result (λ is. is ≡ starts_born records.now) }
{
    match records.get(0) {
        Some(first) => is_birth(alloc, first),
        None => Ok(false),
    }
}

/// Looks whose file a disk holds.
fn sort<D: Disk>(alloc: Global, disk: D) -> Result<Sorted<D>, Ended<D>>
    ensures kind { Told (D.content disk) (λ b. IfOk result (λ sorted. sorted.is_client ≡ is_client_file b)) }
    ensures holds { Told (D.content disk) (λ b. IfOk result (λ sorted. HoldsThose D.content D.images b sorted.disk)) }
    ensures untouched { Told (D.content disk) (λ b. 9 < length b → IfOk result (λ sorted. D.content sorted.disk ≡ Some b)) }
    ensures bad { Told (D.content disk) (λ b. IfErr result (λ e. (place : ℕ) → e.status ≡ Status.BadFile place → records_of b ≡ BadAt place)) }
    ensures bad_kept { Told (D.content disk) (λ b. IfErr result (λ e. (place : ℕ) → e.status ≡ Status.BadFile place → D.content e.disk ≡ Some b)) }
    ensures any_moment { (records : List (List ℕ)) → Told (D.content disk) (λ b. ((c : List ℕ) → D.images disk c → records_of c ≡ Good records)
        → IfOk result (λ sorted. LeavesOnly D.moment D.images_since disk sorted.disk (λ c. records_of c ≡ Good records))) }
    ensures any_moment_err { (records : List (List ℕ)) → Told (D.content disk) (λ b. ((c : List ℕ) → D.images disk c → records_of c ≡ Good records)
        → IfErr result (λ e. LeavesOnly D.moment D.images_since disk e.disk (λ c. records_of c ≡ Good records))) }
    ensures origin { IfOk result (λ sorted. D.origin sorted.disk ≡ D.origin disk) }
    ensures origin_err { IfErr result (λ e. D.origin e.disk ≡ D.origin disk) }
    ensures later { IfOk result (λ sorted. D.faults disk ≤ D.faults sorted.disk) }
    ensures later_err { IfErr result (λ e. D.faults disk ≤ D.faults e.disk) }
    ensures fault { IfErr result (λ e. e.status ≡ Status.DiskFault → Rose (D.faults disk) (D.faults e.disk)) }
    ensures only { IfErr result (λ e. IsOpenStatus e.status) }
{
    let (journal, records) = match Journal::open(alloc, disk) {
        Ok(opened) => opened,
        Err(refusal) => return Err(unopened(refusal)),
    };
    match starts_born(alloc, &records) {
        Ok(is_client) => Ok(Sorted {
            is_client,
            disk: journal.into_disk(),
        }),
        Err(NoMemory) => Err(Ended {
            status: Status::NoMemory,
            disk: journal.into_disk(),
        }),
    }
}

/// Opens the node of a disk, writes its part of the report, and hands the disk back.
pub(crate) fn show_node<K: Sink, D: Disk>(alloc: Global, sink: &mut K, disk: D) -> Ended<D>
    ensures tells { TellsText D.content D.images D.moment D.images_since node_file shown result.status disk result.disk (K.taken sink.old) (K.taken sink.new) }
    ensures bad_untouched { (place : ℕ) → result.status ≡ Status.BadFile place → sink.new ≡ sink.old }
    ensures origin { D.origin result.disk ≡ D.origin disk }
    ensures disk_faults { D.faults disk ≤ D.faults result.disk }
    ensures sink_faults { K.faults sink.old ≤ K.faults sink.new }
    ensures disk_cause { result.status ≡ Status.DiskFault → Rose (D.faults disk) (D.faults result.disk) }
    ensures write_cause { result.status ≡ Status.WriteFault → HasRisen (K.faults sink.old) (K.faults sink.new) }
    ensures only { IsTellStatus result.status }
{
    let sorted = match sort(alloc, disk) {
        Ok(sorted) => sorted,
        Err(ended) => return ended,
    };
    if sorted.is_client {
        write_of_client(alloc, sink, sorted.disk, Errand::Report)
    } else {
        write_of_server(alloc, sink, sorted.disk, ServerText::Report)
    }
}
