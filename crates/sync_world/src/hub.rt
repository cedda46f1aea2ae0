ghost use Rattle.std.specs.Prelude.{◌≡◌, List, ℕ, [], map, None, Some, Option, IfOk, OnOk, true};
ghost use Rattle.sync_disk.specs.Images.{state};
ghost use Rattle.sync_disk.specs.Leaving.{left_by};
ghost use Rattle.sync_journal.specs.Records.{records_of};
ghost use Rattle.sync_journal.specs.Records.Reading.{Good};
ghost use Rattle.sync_journal.specs.Stands.{disk_of};
ghost use Rattle.sync_model.specs.Files.{server_opens};
ghost use Rattle.sync_model.specs.Servers as model;
ghost use Rattle.sync_model.specs.Worlds.{Stop as ModelStop, stopped};
ghost use Rattle.sync_exchange.specs.Profile.{the_profile};
ghost use Rattle.sync_exchange.specs.Seen.{message_seen, server_bytes};
ghost use Rattle.sync_server.specs.Serving.{IsServerOf, IsStored, journal_of};
ghost use Rattle.sync_world.specs.Nodes.{HoldsServer, ServerReadsBack, ServerStandReads, stop_seen};
ghost use Rattle.sync_world.specs.Serves.{ServeEnds};

use crate::disks::empty_disk;
use crate::laws::worlds_read_back;
use crate::stop::Stop;
use std::alloc::Global;
use std::mem;
use sync_data::NoMemory;
use sync_disk::{Disk, MemoryDisk};
use sync_journal::stops_tell;
use sync_messages::Message;
use sync_server::{Server, ServerRefusal};

/// The server of an exchange, over a disk in memory.
#[derive(Drop)]
pub(crate) struct Hub {
    pub(crate) server: Server<MemoryDisk>,
    pub(crate) stop: Option<Stop>,
}

/// The server of a disk that holds these records.
fn open(alloc: Global, disk: MemoryDisk) -> Result<Server<MemoryDisk>, NoMemory>
    ensures server { (records : List model.ServerRecord) (b : List ℕ) → ⟦<MemoryDisk as Disk>⟧.content disk ≡ Some b → records_of b ≡ Good (map server_bytes records) → ServerReadsBack records → IfOk result (IsServerOf records) }
    ensures stored { (records : List model.ServerRecord) (b : List ℕ) → ⟦<MemoryDisk as Disk>⟧.content disk ≡ Some b → records_of b ≡ Good (map server_bytes records) → ServerReadsBack records → IfOk result (IsStored records) }
    ensures origin { IfOk result (λ s. ⟦<MemoryDisk as Disk>⟧.origin (disk_of (journal_of s)) ≡ ⟦<MemoryDisk as Disk>⟧.origin disk) }
{
    match Server::open(alloc, disk) {
        Ok(server) => Ok(server),
        Err(_) => Err(NoMemory),
    }
}

impl Hub {
    /// A server over an empty disk.
    pub(crate) fn new(alloc: Global) -> Result<Hub, NoMemory>
        ensures { IfOk result (λ hub. HoldsServer [] None hub.stop hub.server) }
    {
        let server = open(alloc, empty_disk(alloc)?)?;
        Ok(Hub { server, stop: None })
    }

    /// The disk of the server, in whose place there is another.
    fn take_disk(&mut self, alloc: Global) -> Result<MemoryDisk, NoMemory>
        ensures { IfOk result (λ disk. disk ≡ disk_of (journal_of self.old.server)) }
    {
        let other = open(alloc, empty_disk(alloc)?)?;
        Ok(mem::replace(&mut self.server, other).into_disk())
    }

    /// Opens the server again over its disk, after a crash of it that leaves these records.
    fn crash(&mut self, alloc: Global) -> Result<(), NoMemory>
        ensures { (records : List model.ServerRecord)
            → records_of (left_by (⟦<MemoryDisk as Disk>⟧.origin (disk_of (journal_of self.old.server))).leaves (state (⟦<MemoryDisk as Disk>⟧.origin (disk_of (journal_of self.old.server))).start (⟦<MemoryDisk as Disk>⟧.strokes (disk_of (journal_of self.old.server))))) ≡ Good (map server_bytes records)
            → (⟦<MemoryDisk as Disk>⟧.origin (disk_of (journal_of self.old.server))).listed ≡ 0
            → ServerReadsBack records → OnOk result (HoldsServer records None self.new.stop self.new.server) }
    {
        let mut disk = self.take_disk(alloc)?;
        disk.crash();
        self.server = open(alloc, disk)?;
        self.stop = None;
        Ok(())
    }

    /// Takes the stop back. What was asked of the disk is forgotten with it.
    fn disarm(&mut self)
        ensures { (records : List model.ServerRecord) → IsServerOf records self.old.server
            → IsStored records self.old.server
            → (⟦<MemoryDisk as Disk>⟧.origin (disk_of (journal_of self.old.server))).listed ≡ 0
            → HoldsServer records None self.new.stop self.new.server }
    {
        self.server.journal.begin_anew();
        self.stop = None;
    }

    /// Arms the disk, whether it was armed before or not.
    pub(crate) fn arm(&mut self, stop: Stop)
        ensures { (records : List model.ServerRecord) (s : Option ModelStop) → HoldsServer records s self.old.stop self.old.server
            → HoldsServer records (Some (stop_seen stop)) self.new.stop self.new.server }
    {
        self.server.journal.arm(stop.at, stop.leaves);
        self.stop = Some(stop);
    }

    /// Opens the server again over its disk, which stays armed.
    pub(crate) fn restart(&mut self, alloc: Global) -> Result<(), NoMemory>
        ensures { (records : List model.ServerRecord) (s : Option ModelStop) → HoldsServer records s self.old.stop self.old.server → ServerReadsBack records
            → OnOk result (HoldsServer records s self.new.stop self.new.server) }
    {
        let stop = self.stop;
        self.disarm();
        let disk = self.take_disk(alloc)?;
        self.server = open(alloc, disk)?;
        self.stop = None;
        match stop {
            Some(stop) => self.arm(stop),
            None => {}
        }
        Ok(())
    }

    /// A message is taken: the reply, or None where the disk stopped in the call and the server is open again. It ends the
    /// arming.
    pub(crate) fn take(
        &mut self,
        alloc: Global,
        message: Message,
    ) -> Result<Option<Message>, NoMemory>
        ensures { (records : List model.ServerRecord) (s : Option ModelStop) → server_opens the_profile model.no_server records ≡ true → HoldsServer records s self.old.stop self.old.server
            → ServerStandReads records (stopped s (model.serve the_profile (model.server_of the_profile records) (message_seen message)).records)
            → ServeEnds (model.serve the_profile (model.server_of the_profile records) (message_seen message)) records (stopped s (model.serve the_profile (model.server_of the_profile records) (message_seen message)).records) result self.new }
    {
        worlds_read_back();
        stops_tell::<MemoryDisk>();
        match self.server.take(message) {
            Ok(reply) => {
                self.disarm();
                Ok(Some(reply))
            }
            Err(ServerRefusal::DiskFault) => match self.crash(alloc) {
                Ok(()) => Ok(None),
                Err(NoMemory) => Err(NoMemory),
            },
            Err(ServerRefusal::NoMemory) | Err(ServerRefusal::Closed) => Err(NoMemory),
        }
    }
}
