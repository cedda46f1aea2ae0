// Nodes over the bytes of a file.
ghost use Rattle.std.specs.Prelude.{IfOk, IfErr};
ghost use Rattle.sync_client.specs.Files as client_files;
ghost use Rattle.sync_server.specs.Files as server_files;
ghost use Rattle.sync_client.specs.Clients as clients;
ghost use Rattle.sync_server.specs.Serving as servers;
ghost use Rattle.sync_host.specs.Opening.{Begins, ClientOpens, IsUnopened, ServerOpens, Unopened};

use crate::reply::Reply;
use outbox_disk::OutboxDisk;
use std::alloc::Global;
use sync_client::Client;
use sync_disk::Disk;
use sync_journal::{OpenCause, OpenRefusal};
use sync_server::Server;

/// Why a node isn't opened.
fn unopened<D: Disk>(refusal: OpenRefusal<D>) -> Reply
    ensures { Unopened refusal.cause result }
{
    match refusal.cause {
        OpenCause::DiskFault => Reply::Closed,
        OpenCause::BadFile { place } => Reply::BadFile(place),
        OpenCause::NoMemory => Reply::NoMemory,
    }
}

/// The client of a file with these bytes.
pub(crate) fn open_client(alloc: Global, file: &[u8]) -> Result<Client<OutboxDisk>, Reply>
    ensures opened { IfOk result (λ made. ClientOpens file.now made) }
    ensures begins { IfOk result (λ made. Begins file.now (clients.journal_of made)) }
    ensures refused { IfErr result (IsUnopened (client_files.BadPlace file.now)) }
{
    let Ok(disk) = OutboxDisk::over(alloc, file) else {
        return Err(Reply::NoMemory);
    };
    match Client::open(alloc, disk) {
        Ok(client) => Ok(client),
        Err(refusal) => Err(unopened(refusal)),
    }
}

/// The server of a file with these bytes.
pub(crate) fn open_server(alloc: Global, file: &[u8]) -> Result<Server<OutboxDisk>, Reply>
    ensures opened { IfOk result (λ made. ServerOpens file.now made) }
    ensures begins { IfOk result (λ made. Begins file.now (servers.journal_of made)) }
    ensures refused { IfErr result (IsUnopened (server_files.BadPlace file.now)) }
{
    let Ok(disk) = OutboxDisk::over(alloc, file) else {
        return Err(Reply::NoMemory);
    };
    match Server::open(alloc, disk) {
        Ok(server) => Ok(server),
        Err(refusal) => Err(unopened(refusal)),
    }
}
