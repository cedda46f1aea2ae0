ghost use Rattle.std.specs.Prelude.{◌≡◌, List, ℕ, [], ◌∷◌, map, length, None, Some, Option, Err, IfOk, OnOk};
ghost use Rattle.sync_disk.specs.Images.{state};
ghost use Rattle.sync_disk.specs.Leaving.{left_by};
ghost use Rattle.sync_journal.specs.Records.{records_of};
ghost use Rattle.sync_journal.specs.Records.Reading.{Good};
ghost use Rattle.sync_journal.specs.Stands.{disk_of};
ghost use Rattle.sync_model.specs.Clients as model;
ghost use Rattle.sync_model.specs.Worlds.{Stop as ModelStop, stopped};
ghost use Rattle.sync_exchange.specs.Profile.{the_profile};
ghost use Rattle.sync_exchange.specs.Seen.{client_bytes, message_seen};
ghost use Rattle.sync_client.specs.Clients.{IsClientOf, IsStored, journal_of};
ghost use Rattle.sync_client.specs.Sending.{Sends};
ghost use Rattle.sync_world.specs.Nodes.{HoldsClient, ReadsBack, StandReads, stop_seen};
ghost use Rattle.sync_world.specs.Calls.{AfterCall, Ends, is_cut, is_lost};

use crate::disks::empty_disk;
use crate::stop::Stop;
use std::alloc::Global;
use std::mem;
use sync_client::{Client, ClientRefusal};
use sync_data::{Id, Instr, Name, NoMemory};
use sync_disk::{Disk, MemoryDisk};
use sync_journal::stops_tell;
use sync_messages::Message;
use sync_subset::Subset;

/// What a call of a client came to.
#[derive(Drop)]
pub(crate) enum Called<A: Drop> {
    /// It is done.
    Answered(A),
    /// The client refused it.
    Declined(ClientRefusal),
    /// The client's disk stopped in it, and the client is open again.
    Stopped,
}

/// A client of an exchange, over a disk in memory.
#[derive(Drop)]
pub(crate) struct Node {
    pub(crate) name: Name,
    pub(crate) client: Client<MemoryDisk>,
    pub(crate) stop: Option<Stop>,
}

/// The client of a disk that holds these records.
fn open(alloc: Global, disk: MemoryDisk) -> Result<Client<MemoryDisk>, NoMemory>
    ensures client { (records : List model.ClientRecord) (b : List ℕ) → ⟦<MemoryDisk as Disk>⟧.content disk ≡ Some b → records_of b ≡ Good (map client_bytes records) → ReadsBack records → IfOk result (IsClientOf records) }
    ensures stored { (records : List model.ClientRecord) (b : List ℕ) → ⟦<MemoryDisk as Disk>⟧.content disk ≡ Some b → records_of b ≡ Good (map client_bytes records) → ReadsBack records → IfOk result (IsStored records) }
    ensures origin { IfOk result (λ c. ⟦<MemoryDisk as Disk>⟧.origin (disk_of (journal_of c)) ≡ ⟦<MemoryDisk as Disk>⟧.origin disk) }
{
    match Client::open(alloc, disk) {
        Ok(client) => Ok(client),
        Err(_) => Err(NoMemory),
    }
}

/// Whether a call found no memory, in it or before.
pub(crate) fn is_lost(refusal: ClientRefusal) -> bool
    ensures { result ≡ is_lost refusal }
{
    matches!(refusal, ClientRefusal::NoMemory | ClientRefusal::Closed)
}

/// Whether the disk failed in a call.
pub(crate) fn is_cut(refusal: ClientRefusal) -> bool
    ensures { result ≡ is_cut refusal }
{
    matches!(refusal, ClientRefusal::DiskFault)
}

impl Node {
    /// A client that is born over an empty disk.
    pub(crate) fn new(alloc: Global, name: Name, id: Id) -> Result<Node, NoMemory>
        ensures name { IfOk result (λ node. node.name ≡ name) }
        ensures client { IfOk result (λ node. HoldsClient (model.Born id ∷ []) None node.stop node.client) }
        ensures id { length id ≡ 16 }
    {
        let mut client = open(alloc, empty_disk(alloc)?)?;
        match client.born(id) {
            Ok(()) => Ok(Node {
                name,
                client,
                stop: None,
            }),
            Err(_) => Err(NoMemory),
        }
    }

    /// The disk of the client, in whose place there is another.
    fn take_disk(&mut self, alloc: Global) -> Result<MemoryDisk, NoMemory>
        ensures disk { IfOk result (λ disk. disk ≡ disk_of (journal_of self.old.client)) }
        ensures name { self.new.name ≡ self.old.name }
    {
        let other = open(alloc, empty_disk(alloc)?)?;
        Ok(mem::replace(&mut self.client, other).into_disk())
    }

    /// Opens the client again over its disk, after a crash of it that leaves these records.
    fn crash(&mut self, alloc: Global) -> Result<(), NoMemory>
        ensures client { (records : List model.ClientRecord)
            → records_of (left_by (⟦<MemoryDisk as Disk>⟧.origin (disk_of (journal_of self.old.client))).leaves (state (⟦<MemoryDisk as Disk>⟧.origin (disk_of (journal_of self.old.client))).start (⟦<MemoryDisk as Disk>⟧.strokes (disk_of (journal_of self.old.client))))) ≡ Good (map client_bytes records)
            → (⟦<MemoryDisk as Disk>⟧.origin (disk_of (journal_of self.old.client))).listed ≡ 0
            → ReadsBack records → OnOk result (HoldsClient records None self.new.stop self.new.client) }
        ensures name { self.new.name ≡ self.old.name }
    {
        let mut disk = self.take_disk(alloc)?;
        disk.crash();
        self.client = open(alloc, disk)?;
        self.stop = None;
        Ok(())
    }

    /// Takes the stop back. What was asked of the disk is forgotten with it.
    fn disarm(&mut self)
        ensures client { (records : List model.ClientRecord) → IsClientOf records self.old.client
            → IsStored records self.old.client
            → (⟦<MemoryDisk as Disk>⟧.origin (disk_of (journal_of self.old.client))).listed ≡ 0
            → HoldsClient records None self.new.stop self.new.client }
        ensures name { self.new.name ≡ self.old.name }
    {
        self.client.journal.begin_anew();
        self.stop = None;
    }

    /// Arms the disk, whether it was armed before or not.
    pub(crate) fn arm(&mut self, stop: Stop)
        ensures client { (records : List model.ClientRecord) (s : Option ModelStop) → HoldsClient records s self.old.stop self.old.client
            → HoldsClient records (Some (stop_seen stop)) self.new.stop self.new.client }
        ensures name { self.new.name ≡ self.old.name }
    {
        self.client.journal.arm(stop.at, stop.leaves);
        self.stop = Some(stop);
    }

    /// Opens the client again over its disk, which stays armed.
    pub(crate) fn restart(&mut self, alloc: Global) -> Result<(), NoMemory>
        ensures client { (records : List model.ClientRecord) (s : Option ModelStop) → HoldsClient records s self.old.stop self.old.client → ReadsBack records
            → OnOk result (HoldsClient records s self.new.stop self.new.client) }
        ensures name { self.new.name ≡ self.old.name }
    {
        let stop = self.stop;
        self.disarm();
        let disk = self.take_disk(alloc)?;
        self.client = open(alloc, disk)?;
        self.stop = None;
        match stop {
            Some(stop) => self.arm(stop),
            None => {}
        }
        Ok(())
    }

    /// Ends a call, and with it the arming: where the disk stopped in it, the client is opened again.
    fn end<A: Drop>(
        &mut self,
        alloc: Global,
        answer: Result<A, ClientRefusal>,
    ) -> Result<Called<A>, NoMemory>
        ensures ends { (did : model.ClientStep A) (records : List model.ClientRecord) (stand : Option (List model.ClientRecord)) → AfterCall did records stand answer self.old.client
            → StandReads records stand → Ends did records stand result self.new }
        ensures name { self.new.name ≡ self.old.name }
    {
        match answer {
            Ok(a) => {
                self.disarm();
                Ok(Called::Answered(a))
            }
            Err(refusal) => self.end_refused(alloc, refusal),
        }
    }

    /// The same of a call that wasn't answered.
    fn end_refused<A: Drop>(
        &mut self,
        alloc: Global,
        refusal: ClientRefusal,
    ) -> Result<Called<A>, NoMemory>
        ensures ends { (did : model.ClientStep A) (records : List model.ClientRecord) (stand : Option (List model.ClientRecord)) → AfterCall did records stand (Err refusal) self.old.client
            → StandReads records stand → Ends did records stand result self.new }
        ensures name { self.new.name ≡ self.old.name }
    {
        if is_lost(refusal) {
            return Err(NoMemory);
        }
        if is_cut(refusal) {
            return match self.crash(alloc) {
                Ok(()) => Ok(Called::Stopped),
                Err(NoMemory) => Err(NoMemory),
            };
        }
        self.disarm();
        Ok(Called::Declined(refusal))
    }

    /// One transaction.
    pub(crate) fn commit(
        &mut self,
        alloc: Global,
        ms: u64,
        edits: Vec<Instr>,
    ) -> Result<Called<u32>, NoMemory>
        ensures ends { (records : List model.ClientRecord) (s : Option ModelStop) → HoldsClient records s self.old.stop self.old.client
            → StandReads records (stopped s (model.commit the_profile (model.client_of the_profile records) ms edits.items).records)
            → Ends (model.commit the_profile (model.client_of the_profile records) ms edits.items) records (stopped s (model.commit the_profile (model.client_of the_profile records) ms edits.items).records) result self.new }
        ensures name { self.new.name ≡ self.old.name }
    {
        stops_tell::<MemoryDisk>();
        let answer = self.client.commit(ms, edits);
        self.end(alloc, answer)
    }

    /// The file is brought to form 2.
    pub(crate) fn upgrade(&mut self, alloc: Global) -> Result<Called<bool>, NoMemory>
        ensures ends { (records : List model.ClientRecord) (s : Option ModelStop) → HoldsClient records s self.old.stop self.old.client
            → StandReads records (stopped s (model.upgrade (model.client_of the_profile records)).records)
            → Ends (model.upgrade (model.client_of the_profile records)) records (stopped s (model.upgrade (model.client_of the_profile records)).records) result self.new }
        ensures name { self.new.name ≡ self.old.name }
    {
        stops_tell::<MemoryDisk>();
        let answer = self.client.upgrade();
        self.end(alloc, answer)
    }

    /// The client names its tables.
    pub(crate) fn subscribe(
        &mut self,
        alloc: Global,
        tables: Subset,
    ) -> Result<Called<()>, NoMemory>
        ensures ends { (records : List model.ClientRecord) (s : Option ModelStop) → HoldsClient records s self.old.stop self.old.client
            → StandReads records (stopped s (model.subscribe (model.client_of the_profile records) tables).records)
            → Ends (model.subscribe (model.client_of the_profile records) tables) records (stopped s (model.subscribe (model.client_of the_profile records) tables).records) result self.new }
        ensures name { self.new.name ≡ self.old.name }
    {
        stops_tell::<MemoryDisk>();
        let answer = self.client.subscribe(tables);
        self.end(alloc, answer)
    }

    /// A message is taken.
    pub(crate) fn take(&mut self, alloc: Global, message: Message) -> Result<Called<u32>, NoMemory>
        ensures ends { (records : List model.ClientRecord) (s : Option ModelStop) → HoldsClient records s self.old.stop self.old.client
            → StandReads records (stopped s (model.take the_profile (model.client_of the_profile records) (message_seen message)).records)
            → Ends (model.take the_profile (model.client_of the_profile records) (message_seen message)) records (stopped s (model.take the_profile (model.client_of the_profile records) (message_seen message)).records) result self.new }
        ensures name { self.new.name ≡ self.old.name }
    {
        stops_tell::<MemoryDisk>();
        let answer = self.client.take(message);
        self.end(alloc, answer)
    }

    /// The message that asks for an ident. It ends the arming.
    pub(crate) fn bind(&mut self) -> Result<Message, ClientRefusal>
        ensures sends { (records : List model.ClientRecord) (s : Option ModelStop) → HoldsClient records s self.old.stop self.old.client → Sends (model.bind (model.client_of the_profile records)) result }
        ensures client { (records : List model.ClientRecord) (s : Option ModelStop) → HoldsClient records s self.old.stop self.old.client → HoldsClient records None self.new.stop self.new.client }
        ensures name { self.new.name ≡ self.old.name }
    {
        self.disarm();
        self.client.bind()
    }

    /// The message that asks for the history. It ends the arming.
    pub(crate) fn ask(&mut self) -> Result<Message, ClientRefusal>
        ensures sends { (records : List model.ClientRecord) (s : Option ModelStop) → HoldsClient records s self.old.stop self.old.client → Sends (model.ask (model.client_of the_profile records)) result }
        ensures client { (records : List model.ClientRecord) (s : Option ModelStop) → HoldsClient records s self.old.stop self.old.client → HoldsClient records None self.new.stop self.new.client }
        ensures name { self.new.name ≡ self.old.name }
    {
        self.disarm();
        self.client.ask()
    }

    /// The message with what is unsent. It ends the arming.
    pub(crate) fn upload(&mut self) -> Result<Message, ClientRefusal>
        ensures sends { (records : List model.ClientRecord) (s : Option ModelStop) → HoldsClient records s self.old.stop self.old.client → Sends (model.upload the_profile (model.client_of the_profile records)) result }
        ensures client { (records : List model.ClientRecord) (s : Option ModelStop) → HoldsClient records s self.old.stop self.old.client → HoldsClient records None self.new.stop self.new.client }
        ensures name { self.new.name ≡ self.old.name }
    {
        self.disarm();
        self.client.upload()
    }
}
