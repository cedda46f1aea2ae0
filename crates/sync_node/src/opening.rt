ghost use Rattle.std.specs.Prelude.{◌≡◌, ◌≤◌, ℕ, List, IfOk, IfErr, Some, Err, false};
ghost use Rattle.sync_disk.specs.Disk.{LeavesOnly, Rose, Told};
ghost use Rattle.sync_journal.specs.Records.{records_of};
ghost use Rattle.sync_journal.specs.Records.Reading.{Good};
ghost use Rattle.sync_journal.specs.Stands.{disk_of};
ghost use Rattle.sync_client.specs.Clients as clients;
ghost use Rattle.sync_server.specs.Serving as servers;
ghost use Rattle.sync_node.specs.Opening.{OpenedClient, OpenedServer, IsOpenStatus, client_file, open_status, server_file};

use std::alloc::Global;
use sync_client::Client;
use sync_disk::Disk;
use sync_io::Status;
use sync_journal::{OpenCause, OpenRefusal};
use sync_server::Server;

/// How a command ended, and the disk of its node.
#[derive(Drop)]
pub struct Ended<D: Disk> {
    pub status: Status,
    pub disk: D,
}

/// The end of a command whose file isn't opened.
pub(crate) fn unopened<D: Disk>(refusal: OpenRefusal<D>) -> Ended<D>
    ensures status { result.status ≡ open_status refusal.cause }
    ensures disk { result.disk ≡ refusal.disk }
{
    let status = match refusal.cause {
        OpenCause::DiskFault => Status::DiskFault,
        OpenCause::BadFile { place } => Status::BadFile { place },
        OpenCause::NoMemory => Status::NoMemory,
    };
    Ended {
        status,
        disk: refusal.disk,
    }
}

/// Opens the client of a disk.
pub fn open_client<D: Disk>(alloc: Global, disk: D) -> Result<Client<D>, Ended<D>>
    // The client of the records for which the content stands, or the place at which it is no journal of a client.
    ensures opened { Told (D.content disk) (λ b. IfOk result (OpenedClient b)) }
    ensures bad_file { Told (D.content disk) (λ b. IfErr result (λ e. (place : ℕ) → e.status ≡ Status.BadFile place → client_file b ≡ Err place)) }
    ensures kept { Told (D.content disk) (λ b. IfErr result (λ e. (place : ℕ) → e.status ≡ Status.BadFile place → D.content e.disk ≡ Some b)) }
    ensures only { IfErr result (λ e. IsOpenStatus e.status) }

    // Where each crash before would have left the same records, each crash since its start leaves them.
    ensures any_moment { (records : List (List ℕ)) → Told (D.content disk) (λ b. ((c : List ℕ) → D.images disk c → records_of c ≡ Good records)
        → IfOk result (λ client. LeavesOnly D.moment D.images_since disk (disk_of (clients.journal_of client)) (λ c. records_of c ≡ Good records))) }
    ensures any_moment_err { (records : List (List ℕ)) → Told (D.content disk) (λ b. ((c : List ℕ) → D.images disk c → records_of c ≡ Good records)
        → IfErr result (λ e. LeavesOnly D.moment D.images_since disk e.disk (λ c. records_of c ≡ Good records))) }

    // The disk: what no call changes, and the cause of a fault.
    ensures origin { IfOk result (λ client. D.origin (disk_of (clients.journal_of client)) ≡ D.origin disk) }
    ensures origin_err { IfErr result (λ e. D.origin e.disk ≡ D.origin disk) }
    ensures later { IfOk result (λ client. D.faults disk ≤ D.faults (disk_of (clients.journal_of client))) }
    ensures later_err { IfErr result (λ e. D.faults disk ≤ D.faults e.disk) }
    ensures fault { IfErr result (λ e. e.status ≡ Status.DiskFault → Rose (D.faults disk) (D.faults e.disk)) }
{
    match Client::open(alloc, disk) {
        Ok(client) => Ok(client),
        Err(refusal) => Err(unopened(refusal)),
    }
}

/// Opens the server of a disk.
pub fn open_server<D: Disk>(alloc: Global, disk: D) -> Result<Server<D>, Ended<D>>
    // The server of the records for which the content stands, or the place at which it is no journal of a server.
    ensures opened { Told (D.content disk) (λ b. IfOk result (OpenedServer b)) }
    ensures open_ { IfOk result (λ server. servers.is_closed server ≡ false) }
    ensures bad_file { Told (D.content disk) (λ b. IfErr result (λ e. (place : ℕ) → e.status ≡ Status.BadFile place → server_file b ≡ Err place)) }
    ensures kept { Told (D.content disk) (λ b. IfErr result (λ e. (place : ℕ) → e.status ≡ Status.BadFile place → D.content e.disk ≡ Some b)) }
    ensures only { IfErr result (λ e. IsOpenStatus e.status) }

    // Where each crash before would have left the same records, each crash since its start leaves them.
    ensures any_moment { (records : List (List ℕ)) → Told (D.content disk) (λ b. ((c : List ℕ) → D.images disk c → records_of c ≡ Good records)
        → IfOk result (λ server. LeavesOnly D.moment D.images_since disk (disk_of (servers.journal_of server)) (λ c. records_of c ≡ Good records))) }
    ensures any_moment_err { (records : List (List ℕ)) → Told (D.content disk) (λ b. ((c : List ℕ) → D.images disk c → records_of c ≡ Good records)
        → IfErr result (λ e. LeavesOnly D.moment D.images_since disk e.disk (λ c. records_of c ≡ Good records))) }

    // The disk: what no call changes, and the cause of a fault.
    ensures origin { IfOk result (λ server. D.origin (disk_of (servers.journal_of server)) ≡ D.origin disk) }
    ensures origin_err { IfErr result (λ e. D.origin e.disk ≡ D.origin disk) }
    ensures later { IfOk result (λ server. D.faults disk ≤ D.faults (disk_of (servers.journal_of server))) }
    ensures later_err { IfErr result (λ e. D.faults disk ≤ D.faults e.disk) }
    ensures fault { IfErr result (λ e. e.status ≡ Status.DiskFault → Rose (D.faults disk) (D.faults e.disk)) }
{
    match Server::open(alloc, disk) {
        Ok(server) => Ok(server),
        Err(refusal) => Err(unopened(refusal)),
    }
}
