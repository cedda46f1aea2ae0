ghost use Rattle.std.specs.Prelude.{◌≡◌, ◌⊎◌, ◌≤◌, ◌∷◌, [], ℕ, List, length, Some, IsErrOf, IfErr, IfOk, OnOk, OnErr, true, false};
ghost use Rattle.sync_data.specs.Payload.{IsSmall};
ghost use Rattle.sync_model.specs.Clients as model;
ghost use Rattle.sync_exchange.specs.Profile.{the_profile};
ghost use Rattle.sync_exchange.specs.Seen.{client_seen};
ghost use Rattle.sync_journal.specs.Stands.{disk_of};
ghost use Rattle.sync_client.specs.Refusals.{refusal_seen, IfSeen};

use crate::refusal::ClientRefusal;
use crate::replica::Replica;
use crate::transactions::Made;
use std::alloc::Global;
use sync_data::{Blob, Id, Instr};
use sync_disk::Disk;
use sync_journal::{Journal, JournalRefusal};
use sync_records::ClientRecord;
use sync_subset::Subset;

/// A client over a disk: its journal, its objects, its cursor (the number of entries of the history that it has taken) and
/// its unsent changesets.
#[derive(Drop)]
pub struct Client<D: Disk> {
    pub(crate) alloc: Global,
    /// What stands on the disk. Where others than the client's calls append to it, no clause of crashes says anything any more.
    pub journal: Journal<D>,
    pub(crate) replica: Replica,
}

impl<D: Disk> Client<D> {
    ghost use Rattle.sync_client.specs.Clients.{Appends, Closes, IsClientOf, IsStored, Says, Survives, UsesDisk, is_closed, journal_of, replica_of};

    /// Records the client's uuid. Errors: Closed, AlreadyBorn, DiskFault, NoMemory.
    pub fn born(&mut self, id: Id) -> Result<(), ClientRefusal>
        ensures does { (records : List model.ClientRecord) → IsClientOf records self.old → Says (model.born (model.client_of the_profile records) id) records self.new result }
        ensures survives { (records : List model.ClientRecord) → IsClientOf records self.old → IsStored records self.old → Survives (model.born (model.client_of the_profile records) id) records self.old self.new result }
        ensures closes { Closes self.old self.new result }
        ensures disk { UsesDisk (IsErrOf result ClientRefusal.DiskFault) self.old self.new }
    {
        if self.journal.is_closed() {
            return Err(ClientRefusal::Closed);
        }
        if self.replica.id.is_some() {
            return Err(ClientRefusal::AlreadyBorn);
        }
        self.append(&ClientRecord::Born { id })?;
        self.replica.id = Some(id);
        Ok(())
    }

    /// One transaction on the client's objects, at that time in milliseconds since the epoch. It answers its number, counted
    /// from 1, once it is on the disk; its base is the cursor. An empty one is accepted, and a client may commit before it has
    /// an ident. Errors, in this order: Closed, NotBorn, TooLarge, NumbersFull, OldForm, NotSubscribed,
    /// Break; and DiskFault, NoMemory.
    pub fn commit(&mut self, ms: u64, edits: Vec<Instr>) -> Result<u32, ClientRefusal>
        ensures does { (records : List model.ClientRecord) → IsClientOf records self.old → Says (model.commit the_profile (model.client_of the_profile records) ms edits.items) records self.new result }
        ensures survives { (records : List model.ClientRecord) → IsClientOf records self.old → IsStored records self.old → Survives (model.commit the_profile (model.client_of the_profile records) ms edits.items) records self.old self.new result }
        ensures large { IsErrOf result ClientRefusal.TooLarge → IsSmall edits.items → ⊥ }
        ensures closes { Closes self.old self.new result }
        ensures disk { UsesDisk (IsErrOf result ClientRefusal.DiskFault) self.old self.new }
    {
        if self.journal.is_closed() {
            return Err(ClientRefusal::Closed);
        }
        if self.replica.id.is_none() {
            return Err(ClientRefusal::NotBorn);
        }
        let made = match self.replica.make(self.alloc, ms, edits) {
            Ok(made) => made,
            Err(refusal) => return Err(self.refused(refusal)),
        };
        self.append_made(ms, made)
    }

    /// The record of a transaction.
    fn append_made(&mut self, ms: u64, made: Made) -> Result<u32, ClientRefusal>
        requires { is_closed self.old ≡ false }
        ensures appends { Appends (model.Made made.number ms made.body.items ∷ []) self.old self.new result }
        ensures number { IfOk result (λ number. number ≡ made.number) }
        ensures replica { replica_of self.new ≡ replica_of self.old }
        ensures stays_open { OnOk result (is_closed self.new ≡ false) }
        ensures closes { OnErr result (is_closed self.new ≡ true) }
        ensures refused { IfErr result (λ why. (why ≡ ClientRefusal.DiskFault) ⊎ (why ≡ ClientRefusal.NoMemory)) }
        ensures disk { UsesDisk (IsErrOf result ClientRefusal.DiskFault) self.old self.new }
    {
        let Ok(body) = Blob::new(self.alloc, made.body.as_slice()) else {
            self.journal.close();
            return Err(ClientRefusal::NoMemory);
        };
        let number = made.number;
        self.append(&ClientRecord::Made { number, ms, body })?;
        Ok(number)
    }

    /// From now on the file may hold changesets of version 2: true where it is new. Errors: Closed, NotBorn, DiskFault,
    /// NoMemory.
    pub fn upgrade(&mut self) -> Result<bool, ClientRefusal>
        ensures does { (records : List model.ClientRecord) → IsClientOf records self.old → Says (model.upgrade (model.client_of the_profile records)) records self.new result }
        ensures survives { (records : List model.ClientRecord) → IsClientOf records self.old → IsStored records self.old → Survives (model.upgrade (model.client_of the_profile records)) records self.old self.new result }
        ensures closes { Closes self.old self.new result }
        ensures disk { UsesDisk (IsErrOf result ClientRefusal.DiskFault) self.old self.new }
    {
        if self.journal.is_closed() {
            return Err(ClientRefusal::Closed);
        }
        if self.replica.id.is_none() {
            return Err(ClientRefusal::NotBorn);
        }
        if self.replica.second {
            return Ok(false);
        }
        self.append(&ClientRecord::Form)?;
        self.replica.second = true;
        Ok(true)
    }

    /// From now on the client makes and gets changes of these tables alone. Errors, in this order: Closed, NotBorn,
    /// Subscribed, TooLate; and DiskFault, NoMemory.
    pub fn subscribe(&mut self, tables: Subset) -> Result<(), ClientRefusal>
        ensures does { (records : List model.ClientRecord) → IsClientOf records self.old → Says (model.subscribe (model.client_of the_profile records) tables) records self.new result }
        ensures survives { (records : List model.ClientRecord) → IsClientOf records self.old → IsStored records self.old → Survives (model.subscribe (model.client_of the_profile records) tables) records self.old self.new result }
        ensures closes { Closes self.old self.new result }
        ensures disk { UsesDisk (IsErrOf result ClientRefusal.DiskFault) self.old self.new }
    {
        if self.journal.is_closed() {
            return Err(ClientRefusal::Closed);
        }
        if self.replica.id.is_none() {
            return Err(ClientRefusal::NotBorn);
        }
        if self.replica.subset.is_some() {
            return Err(ClientRefusal::Subscribed);
        }
        if self.replica.is_late() {
            return Err(ClientRefusal::TooLate);
        }
        let Ok(copy) = tables.copy() else {
            self.journal.close();
            return Err(ClientRefusal::NoMemory);
        };
        self.append(&ClientRecord::Subset { tables: copy })?;
        self.replica.subset = Some(tables);
        Ok(())
    }

    /// Want of memory closes the client.
    pub(crate) fn refused(&mut self, refusal: ClientRefusal) -> ClientRefusal
        ensures same { result ≡ refusal }
        ensures unchanged { IfSeen (refusal_seen refusal) (λ _. self.new ≡ self.old) }
        ensures journal { IfSeen (refusal_seen result) (λ _. journal_of self.new ≡ journal_of self.old) }
        ensures disk { disk_of (journal_of self.new) ≡ disk_of (journal_of self.old) }
        ensures closes { refusal ≡ ClientRefusal.NoMemory → is_closed self.new ≡ true }
    {
        if refusal == ClientRefusal::NoMemory {
            self.journal.close();
        }
        refusal
    }

    /// Adds a record to the journal. It closes the client where that fails.
    pub(crate) fn append(&mut self, added: &ClientRecord) -> Result<(), ClientRefusal>
        requires { is_closed self.old ≡ false }
        ensures appends { Appends (client_seen added.now ∷ []) self.old self.new result }
        ensures replica { replica_of self.new ≡ replica_of self.old }
        ensures stays_open { OnOk result (is_closed self.new ≡ false) }
        ensures closes { IsErrOf result ClientRefusal.DiskFault ⊎ IsErrOf result ClientRefusal.NoMemory → is_closed self.new ≡ true }
        ensures refused { IfErr result (λ why. (why ≡ ClientRefusal.DiskFault) ⊎ (why ≡ ClientRefusal.NoMemory)) }
        ensures disk { UsesDisk (IsErrOf result ClientRefusal.DiskFault) self.old self.new }
    {
        let Ok(bytes) = added.record_bytes(self.alloc) else {
            self.journal.close();
            return Err(ClientRefusal::NoMemory);
        };
        match self.journal.append(bytes.as_slice()) {
            Ok(()) => Ok(()),
            Err(JournalRefusal::DiskFault) => Err(ClientRefusal::DiskFault),
            Err(_) => {
                self.journal.close();
                Err(ClientRefusal::NoMemory)
            }
        }
    }
}
