ghost use Rattle.std.specs.Prelude.{◌≡◌, ◌≤◌, ◌∷◌, [], ℕ, List, map, length, slice_get, if◌then◌else◌, false, true, Some, IsErrOf, IfOk, OnOk};
ghost use Rattle.std.specs.Option.{option_copied, option_map};
ghost use Rattle.sync_data.specs.declared.instr.Instr.{Instr};
ghost use Rattle.sync_journal.specs.Stands.{disk_of};
ghost use Rattle.sync_model.specs.Servers as model;
ghost use Rattle.sync_model.specs.Parts.{Given as GivenParts, at_ident, bind_by, serve_by, upload_by};
ghost use Rattle.sync_exchange.specs.Profile.{the_profile};
ghost use Rattle.sync_exchange.specs.Seen.{change_seen, message_seen, server_seen};
ghost use Rattle.sync_recip.specs.Lists.{entry_of};
ghost use Rattle.server_memory.specs.Integrating.{found};
ghost use Rattle.server_memory.specs.Merging.{records_of};
ghost use Rattle.server_memory.specs.Sending.{asked};
ghost use Rattle.server_memory.specs.Retiring.{retiring};
ghost use Rattle.server_memory.specs.Readers.{changes_of, counts_of, item_from, past};

use crate::refusal::ServerRefusal;
use server_memory::{ChangeHead, ChangeRefusal, Counts, Kept, LAST, Refusal, refuse};
use std::alloc::Global;
use sync_base::{Blob, Changeset, Entry, Id, Ident, NoMemory};
use sync_disk::Disk;
use sync_journal::{Journal, JournalRefusal};
use sync_messages::{Ask, Change, Given, Message, Retire, Retired, Stored, Upload};
use sync_records::ServerRecord;
use sync_store::Store;
use sync_subset::Subset;

/// A server over a disk: its journal, and what it keeps in memory of the history, the objects and the clients.
#[derive(Drop)]
pub struct Server<D: Disk> {
    pub(crate) alloc: Global,
    /// What stands on the disk. Where others than the server's calls append to it, no clause of crashes says anything any more.
    pub journal: Journal<D>,
    pub(crate) kept: Kept,
}

/// The record of a change of an ident.
fn entry_record(alloc: Global, ident: Ident, change: &Change) -> Result<ServerRecord, NoMemory>
    ensures { IfOk result (λ made. server_seen made ≡ model.Entry ident change.now.number change.now.base change.now.ms change.now.body) }
{
    let body = Blob::new(alloc, change.body())?;
    Ok(ServerRecord::Entry {
        origin: ident,
        number: change.number(),
        base: change.base(),
        ms: change.ms(),
        body,
    })
}

impl<D: Disk> Server<D> {
    ghost use Rattle.server_memory.specs.Kept.{parts};
    ghost use Rattle.sync_server.specs.Serving.{Appends, Closes, Did, IsServed, IsServerOf, IsStored, IsTaken, StaysOpen, Survives, UsesDisk, change_records, is_closed, journal_of, kept_of};

    /// Adds a record to the journal. It closes the server where that fails.
    fn append(&mut self, added: &ServerRecord) -> Result<(), ServerRefusal>
        requires { is_closed self.old ≡ false }
        ensures appends { Appends (server_seen added.now ∷ []) self.old self.new result }
        ensures kept { kept_of self.new ≡ kept_of self.old }
        ensures stays { StaysOpen result self.new }
        ensures disk { UsesDisk (IsErrOf result ServerRefusal.DiskFault) self.old self.new }
    {
        let Ok(bytes) = added.record_bytes(self.alloc) else {
            self.journal.close();
            return Err(ServerRefusal::NoMemory);
        };
        match self.journal.append(bytes.as_slice()) {
            Ok(()) => Ok(()),
            Err(JournalRefusal::DiskFault) => Err(ServerRefusal::DiskFault),
            Err(_) => {
                self.journal.close();
                Err(ServerRefusal::NoMemory)
            }
        }
    }

    /// Adds the records of a change that was merged: a Form where it is the first to need one, and its Entry.
    fn append_entry(
        &mut self,
        form: bool,
        ident: Ident,
        change: &Change,
    ) -> Result<(), ServerRefusal>
        requires { is_closed self.old ≡ false }
        ensures appends { Appends (records_of form ident (change_seen change.now)) self.old self.new result }
        ensures kept { kept_of self.new ≡ kept_of self.old }
        ensures stays { StaysOpen result self.new }
        ensures disk { UsesDisk (IsErrOf result ServerRefusal.DiskFault) self.old self.new }
    {
        if form {
            self.append(&ServerRecord::Form)?;
        }
        match entry_record(self.alloc, ident, change) {
            Ok(record) => self.append(&record),
            Err(NoMemory) => {
                self.journal.close();
                Err(ServerRefusal::NoMemory)
            }
        }
    }

    /// Passes over a repeat, and merges any other change of an ident that is given, or tells why not.
    fn take_change(
        &mut self,
        ident: Ident,
        change: &Change,
    ) -> Result<Option<Refusal>, ServerRefusal>
        requires open_ { is_closed self.old ≡ false }
        requires given { (g : GivenParts Instr) × (at_ident ident (kept_of self.old).history.idents ≡ Some g) }
        ensures taken { (g : GivenParts Instr) → at_ident ident (kept_of self.old).history.idents ≡ Some g → IfOk result (λ why. IsTaken why ident g (change_seen change.now) (kept_of self.old) (kept_of self.new)) }
        ensures appends { (g : GivenParts Instr) → at_ident ident (kept_of self.old).history.idents ≡ Some g → Appends (change_records (parts (kept_of self.old)) ident g (change_seen change.now)) self.old self.new result }
        ensures given { OnOk result (length (kept_of self.new).history.idents ≡ length (kept_of self.old).history.idents) }
        ensures stays { StaysOpen result self.new }
        ensures disk { UsesDisk (IsErrOf result ServerRefusal.DiskFault) self.old self.new }
    {
        let Some(given) = self.kept.history.at(ident) else {
            unreachable!()
        };
        if change.number() <= given.count() {
            return Ok(None);
        }
        let head = ChangeHead::of(change);
        let form = match self.kept.merge(self.alloc, ident, head, change.body()) {
            Ok(form) => form,
            Err(ChangeRefusal::Refused(why)) => return Ok(Some(why)),
            Err(ChangeRefusal::NoMemory) => {
                self.journal.close();
                return Err(ServerRefusal::NoMemory);
            }
        };
        self.append_entry(form, ident, change)?;
        Ok(None)
    }

    /// Takes the changes of an Upload one by one, up to the first that is refused.
    fn take_upload(&mut self, upload: &Upload) -> Result<Message, ServerRefusal>
        requires { is_closed self.old ≡ false }
        ensures served { IfOk result (λ reply. IsServed (upload_by the_profile (parts (kept_of self.old)) upload.now.ident (at_ident upload.now.ident (kept_of self.old).history.idents) (map change_seen upload.now.changes)) reply (kept_of self.new)) }
        ensures appends { Appends (upload_by the_profile (parts (kept_of self.old)) upload.now.ident (at_ident upload.now.ident (kept_of self.old).history.idents) (map change_seen upload.now.changes)).records self.old self.new result }
        ensures stays { StaysOpen result self.new }
        ensures disk { UsesDisk (IsErrOf result ServerRefusal.DiskFault) self.old self.new }
    {
        let ident = upload.ident();
        if self.kept.history.at(ident).is_none() {
            let given = self.kept.history.given();
            return Ok(refuse(ident, 0, Refusal::NoSuchIdent { given }));
        }
        for change in upload.changes() {
            match self.take_change(ident, change) {
                Ok(None) => {}
                Ok(Some(why)) => return Ok(refuse(ident, change.number(), why)),
                Err(refusal) => return Err(refusal),
            }
        }
        match self.kept.history.at(ident) {
            Some(given) => Ok(Message::Stored(Stored::new(ident, given.count()))),
            None => unreachable!(),
        }
    }

    /// Gives a uuid its ident: that which it has, or the next.
    fn take_bind(&mut self, uuid: Id) -> Result<Message, ServerRefusal>
        requires { is_closed self.old ≡ false }
        ensures served { IfOk result (λ reply. IsServed (bind_by the_profile (parts (kept_of self.old)) uuid (model.place_of uuid (map (λ g. g.uuid) (kept_of self.old).history.idents))) reply (kept_of self.new)) }
        ensures appends { Appends (bind_by the_profile (parts (kept_of self.old)) uuid (model.place_of uuid (map (λ g. g.uuid) (kept_of self.old).history.idents))).records self.old self.new result }
        ensures stays { StaysOpen result self.new }
        ensures disk { UsesDisk (IsErrOf result ServerRefusal.DiskFault) self.old self.new }
    {
        if let Some(ident) = self.kept.history.ident_of(&uuid) {
            return Ok(Message::Ident(Given::new(uuid, ident)));
        }
        let given = self.kept.history.given();
        if given == LAST {
            return Ok(refuse(0, 0, Refusal::IdentsFull { given }));
        }
        let ident = match self.kept.history.bind(self.alloc, uuid) {
            Ok(ident) => ident,
            Err(NoMemory) => {
                self.journal.close();
                return Err(ServerRefusal::NoMemory);
            }
        };
        self.append(&ServerRecord::Client { id: uuid })?;
        Ok(Message::Ident(Given::new(uuid, ident)))
    }

    /// Answers a question for the history, and keeps its settled number where it is new.
    fn take_ask(
        &mut self,
        ask: &Ask,
        second: bool,
        tables: Option<&Subset>,
    ) -> Result<Message, ServerRefusal>
        requires { is_closed self.old ≡ false }
        ensures served { IfOk result (λ reply. IsServed (asked (parts (kept_of self.old)) ask.now.ident ask.now.cursor ask.now.settled (option_copied tables.entry) second) reply (kept_of self.new)) }
        ensures appends { Appends (asked (parts (kept_of self.old)) ask.now.ident ask.now.cursor ask.now.settled (option_copied tables.entry) second).records self.old self.new result }
        ensures stays { StaysOpen result self.new }
        ensures disk { UsesDisk (IsErrOf result ServerRefusal.DiskFault) self.old self.new }
    {
        let reply = match self.kept.ask(self.alloc, ask, second, tables) {
            Ok(reply) => reply,
            Err(NoMemory) => {
                self.journal.close();
                return Err(ServerRefusal::NoMemory);
            }
        };
        if !self.kept.settles(ask, &reply) {
            return Ok(reply);
        }
        let (ident, settled) = (ask.ident(), ask.settled());
        self.kept.history.settle_at(ident, settled);
        self.append(&ServerRecord::Settled { ident, settled })?;
        Ok(reply)
    }

    /// Retires an ident for another.
    fn take_retire(&mut self, retire: &Retire) -> Result<Message, ServerRefusal>
        requires { is_closed self.old ≡ false }
        ensures served { IfOk result (λ reply. IsServed (retiring (parts (kept_of self.old)) retire.now.ident retire.now.by) reply (kept_of self.new)) }
        ensures appends { Appends (retiring (parts (kept_of self.old)) retire.now.ident retire.now.by).records self.old self.new result }
        ensures stays { StaysOpen result self.new }
        ensures disk { UsesDisk (IsErrOf result ServerRefusal.DiskFault) self.old self.new }
    {
        let (ident, by) = (retire.ident(), retire.by());
        let retirement = match self.kept.retirement(ident, by) {
            Ok(retirement) => retirement,
            Err(why) => return Ok(refuse(by, 0, why)),
        };
        let reply = Message::Retired(Retired::new(ident, by, retirement.number));
        if !retirement.is_new {
            return Ok(reply);
        }
        match self.kept.history.retire(self.alloc, ident, by) {
            Ok(()) => {}
            Err(NoMemory) => {
                self.journal.close();
                return Err(ServerRefusal::NoMemory);
            }
        }
        self.append(&ServerRecord::Retired { ident, by })?;
        Ok(reply)
    }

    /// Serves a message.
    fn serve(&mut self, message: &Message) -> Result<Message, ServerRefusal>
        requires { is_closed self.old ≡ false }
        ensures served { IfOk result (λ reply. IsServed (serve_by the_profile (parts (kept_of self.old)) (message_seen message.now)) reply (kept_of self.new)) }
        ensures appends { Appends (serve_by the_profile (parts (kept_of self.old)) (message_seen message.now)).records self.old self.new result }
        ensures stays { StaysOpen result self.new }
        ensures disk { UsesDisk (IsErrOf result ServerRefusal.DiskFault) self.old self.new }
    {
        match message {
            Message::Bind { uuid } => self.take_bind(*uuid),
            Message::Upload(upload) => self.take_upload(upload),
            Message::Ask(ask) => self.take_ask(ask, false, None),
            Message::Ask2(ask) => self.take_ask(ask, true, None),
            Message::AskTables(asked) => {
                self.take_ask(asked.ask(), asked.form() == 2, Some(asked.tables()))
            }
            Message::Retire(retire) => self.take_retire(retire),
            Message::Ident(given) => Ok(refuse(given.ident(), 0, Refusal::NotForServer)),
            Message::Download(entries) => Ok(refuse(entries.ident(), 0, Refusal::NotForServer)),
            Message::Stored(stored) => Ok(refuse(stored.ident(), 0, Refusal::NotForServer)),
            Message::Refused { ident, .. } => Ok(refuse(*ident, 0, Refusal::NotForServer)),
            Message::Retired(retired) => Ok(refuse(retired.ident(), 0, Refusal::NotForServer)),
        }
    }

    /// Takes a message, and answers the reply (docs/GUARANTEES.md, "Nodes"). What it answers is on the disk. `Closed` comes exactly
    /// after an earlier `DiskFault` or `NoMemory`, or a `land` that failed.
    pub fn take(&mut self, message: Message) -> Result<Message, ServerRefusal>
        ensures does { (records : List model.ServerRecord) → IsServerOf records self.old → IfOk result (λ reply. Did (serve_by the_profile (parts (kept_of self.old)) (message_seen message)) reply records self.new) }
        ensures survives { (records : List model.ServerRecord) → IsServerOf records self.old → IsStored records self.old → Survives (serve_by the_profile (parts (kept_of self.old)) (message_seen message)) records self.old self.new result }
        ensures closes { Closes self.old self.new result }
        ensures disk { UsesDisk (IsErrOf result ServerRefusal.DiskFault) self.old self.new }
    {
        if self.journal.is_closed() {
            return Err(ServerRefusal::Closed);
        }
        self.serve(&message)
    }

    /// The objects. Once the server is closed they may be any.
    pub fn objects(&self) -> &Store
        ensures { result.now ≡ (parts (kept_of self.now)).objects }
    {
        &self.kept.objects
    }

    /// How many entries the history has, those before the floor among them.
    pub fn len(&self) -> u32
        ensures { result ≡ (parts (kept_of self.now)).len }
    {
        self.kept.history.len()
    }

    /// The entry of a version; none below the floor, and from the length on.
    pub fn entry(&self, version: u32) -> Option<&Entry>
        ensures { option_map (λ e. entry_of e.now) result ≡ item_from (parts (kept_of self.now)).floor (parts (kept_of self.now)).entries version }
    {
        self.kept.history.entry(version)
    }

    /// The base at which the entry of a version was made; none where there is no entry of that version.
    pub fn base_of(&self, version: u32) -> Option<u32>
        ensures { result ≡ item_from (parts (kept_of self.now)).floor (parts (kept_of self.now)).bases version }
    {
        self.kept.history.base(version)
    }

    /// The form of the file: 1, or 2 where it may hold changesets of version 2.
    pub fn form(&self) -> u32
        ensures { result ≡ (if (parts (kept_of self.now)).second then 2 else 1) }
    {
        if self.kept.history.second() { 2 } else { 1 }
    }

    /// The first version of the kept history; 0 where nothing was trimmed.
    pub fn floor(&self) -> u32
        ensures { result ≡ (parts (kept_of self.now)).floor }
    {
        self.kept.history.floor()
    }

    /// The objects at the floor.
    pub fn floor_objects(&self) -> &Store
        ensures { result.now ≡ (parts (kept_of self.now)).below }
    {
        &self.kept.below
    }

    /// How many idents were given.
    pub fn idents(&self) -> u32
        ensures { result ≡ length (parts (kept_of self.now)).idents }
    {
        self.kept.history.given()
    }

    /// The ident of a uuid; none where no Bind with it was recorded.
    pub fn ident_of(&self, id: &Id) -> Option<Ident>
        ensures { result ≡ found (model.place_of id.now (map (λ g. g.uuid) (parts (kept_of self.now)).idents)) }
    {
        self.kept.history.ident_of(id)
    }

    /// The uuid of an ident; none where it isn't given.
    pub fn id_of(&self, ident: Ident) -> Option<&Id>
        ensures { option_map (λ id. id.now) result ≡ option_map (λ g. g.uuid) (at_ident ident (parts (kept_of self.now)).idents) }
    {
        match self.kept.history.at(ident) {
            Some(given) => Some(given.id()),
            None => None,
        }
    }

    /// The numbers of an ident; none where it isn't given.
    pub fn counts(&self, ident: Ident) -> Option<Counts>
        ensures { result ≡ option_map counts_of (at_ident ident (parts (kept_of self.now)).idents) }
    {
        match self.kept.history.at(ident) {
            Some(given) => Some(Counts {
                number: given.count(),
                base: given.last(),
                settled: given.mark(),
            }),
            None => None,
        }
    }

    /// The retired ident of that place, counted from 0 in the order in which they were retired, and the ident for which it
    /// was; none from their count on.
    pub fn retired(&self, place: u32) -> Option<(Ident, Ident)>
        ensures { result ≡ slice_get (parts (kept_of self.now)).retired place }
    {
        self.kept.history.retired().get(place as usize).copied()
    }

    /// A copy of the entry of a version as the next changes of an ident cross it. None comes where the ident isn't given or is
    /// retired, where the version is below the floor or the base of the ident's last change, or from the length on, and
    /// where the ident made the entry.
    pub fn past(&self, ident: Ident, version: u32) -> Result<Option<Changeset>, NoMemory>
        ensures { IfOk result (λ found. found ≡ option_map changes_of (past (parts (kept_of self.now)) ident version)) }
    {
        self.kept.past(ident, version)
    }

    /// Hands the disk back.
    pub fn into_disk(self) -> D
        ensures { result ≡ disk_of (journal_of self) }
    {
        self.journal.into_disk()
    }
}
