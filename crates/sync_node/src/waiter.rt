// A server over a file, and what it does of frames.
ghost use Rattle.std.specs.Prelude.{◌≡◌, ◌++◌, ◌≤◌, ℕ, List, ⊤, None, Some, Err, IfOk, map};
ghost use Rattle.sync_disk.specs.Disk.{Rose};
ghost use Rattle.sync_model.specs.Parts.{serve_by};
ghost use Rattle.sync_model.specs.Servers.{ServerRecord};
ghost use Rattle.server_memory.specs.Kept.{parts};
ghost use Rattle.sync_server.specs.Serving.{kept_of};
ghost use Rattle.sync_exchange.specs.Profile.{the_profile};
ghost use Rattle.sync_exchange.specs.Seen.{message_seen};
ghost use Rattle.sync_node.specs.Holding.{ServerStands, server_faults, server_origin};
ghost use Rattle.sync_node.specs.Runs.{AnswersSo};
ghost use Rattle.sync_node.specs.Steps.{replied};

use super::command::{Command, ItemEnd};
use super::frame::frame_of;
use super::opening::{Ended, open_server};
use gathered_disk::GatheredDisk;
use std::alloc::Global;
use sync_data::NoMemory;
use sync_disk::{Disk, DiskRefusal};
use sync_messages::{Message, MessageRefusal, message_of};
use sync_server::{Server, ServerRefusal};

/// A server over a file that replies to messages.
#[derive(Drop)]
pub(crate) struct Waiter<D: Disk> {
    alloc: Global,
    server: Server<D>,
}

/// The server takes a message, and answers the frame of the reply.
fn reply<D: Disk>(
    alloc: Global,
    server: &mut Server<D>,
    message: Message,
) -> Result<Vec<u8>, ItemEnd>
    ensures done { (records : List ServerRecord) → ServerStands records server.old
        → IfOk result (λ text. AnswersSo (Some (replied (serve_by the_profile (parts (kept_of server.old)) (message_seen message)))) records text.items (λ rs. ServerStands rs server.new)) }
    ensures bad { result ≡ Err ItemEnd.BadItem → ⊥ }
    ensures same { server_origin server.new ≡ server_origin server.old }
    ensures later { server_faults server.old ≤ server_faults server.new }
    ensures cause { result ≡ Err ItemEnd.DiskFault → Rose (server_faults server.old) (server_faults server.new) }
{
    let reply = match server.take(message) {
        Ok(reply) => reply,
        Err(ServerRefusal::DiskFault) => return Err(ItemEnd::DiskFault),
        Err(ServerRefusal::NoMemory) | Err(ServerRefusal::Closed) => return Err(ItemEnd::NoMemory),
    };
    match frame_of(alloc, &reply) {
        Ok(frame) => Ok(frame),
        Err(NoMemory) => Err(ItemEnd::NoMemory),
    }
}

impl<D: Disk> Command<D> for Waiter<GatheredDisk<D>> {
    ghost use Rattle.sync_exchange.specs.Seen.{server_bytes};
    ghost use Rattle.sync_journal.specs.Stands.{disk_of};
    ghost use Rattle.sync_server.specs.Serving.{journal_of};
    ghost use Rattle.sync_node.specs.Landed.{GathersOver, below_server, held_below, loan_kept, still_over};
    ghost use Rattle.sync_node.specs.Opening.{server_file};
    ghost use Rattle.sync_node.specs.Runs.{no_notes};
    ghost use Rattle.sync_node.specs.Saying.{serve_says};
    ghost use Rattle.sync_node.specs.Steps.{serve_step};

    ghost Record = { ServerRecord };

    ghost bytes_of = { server_bytes };

    ghost file_of = { server_file };

    ghost Notes = { ⊤ };

    ghost first = { tt };

    ghost noted = { no_notes };

    ghost step = { λ notes. serve_step };

    ghost Stands = { λ waiter notes records. ServerStands records waiter.server };

    ghost Holds = { λ waiter records. GathersOver (map server_bytes records) (disk_of (journal_of waiter.server)) };

    ghost disk_below = { λ waiter. below_server waiter.server };

    ghost origin = { λ waiter. server_origin waiter.server };

    ghost says = { λ notes. serve_says };

    ghost held = { λ waiter records holds. held_below server_bytes records (disk_of (journal_of waiter.server)) holds };

    ghost holds_still = { λ old new records same holds. still_over (map server_bytes records) (disk_of (journal_of old.server)) (disk_of (journal_of new.server)) same holds };

    ghost loan_stays = { λ old new same. loan_kept (disk_of (journal_of old.server)) (disk_of (journal_of new.server)) same };

    fn open_file(alloc: Global, disk: D) -> Result<Waiter<GatheredDisk<D>>, Ended<D>> {
        match open_server(alloc, disk) {
            Ok(server) => Ok(Waiter {
                alloc,
                server: server.gathered(),
            }),
            Err(ended) => Err(ended),
        }
    }

    fn answer(&mut self, _number: u32, item: &[u8]) -> Result<Vec<u8>, ItemEnd> {
        match message_of(self.alloc, item) {
            Ok(message) => reply(self.alloc, &mut self.server, message),
            Err(MessageRefusal::BadMessage) => Err(ItemEnd::BadItem),
            Err(MessageRefusal::NoMemory) => Err(ItemEnd::NoMemory),
        }
    }

    fn land_records(&mut self) -> Result<(), DiskRefusal> {
        self.server.journal.land()
    }

    fn close(self) -> D {
        self.server.into_disk().into_disk()
    }
}
