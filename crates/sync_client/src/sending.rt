ghost use Rattle.std.specs.Prelude.{◌≡◌, ◌↔◌, ◌≤◌, List, None, IsErrOf, IfErr, IfOk, OnOk, ◌++◌, ◌∷◌, [], map, true, length, min};
ghost use Rattle.sync_journal.specs.Stands.{disk_of};
ghost use Rattle.sync_model.specs.Clients as model;
ghost use Rattle.sync_exchange.specs.Profile.{the_profile};
ghost use Rattle.sync_model.specs.Messages as sent;
ghost use Rattle.sync_exchange.specs.Seen.{change_seen, message_seen};
ghost use Rattle.sync_messages.specs.Parts.{bytes_of_changes, most_bytes, most_listed};
ghost use Rattle.sync_client.specs.Sending.{uploaded};

use crate::client::Client;
use crate::refusal::ClientRefusal;
use crate::replica::Replica;
use std::alloc::Global;
use sync_codec::encode;
use sync_data::{Blob, Id, Ident, NoMemory};
use sync_disk::Disk;
use sync_messages::{Ask, AskTables, Change, Message, Upload};
use sync_rebase::{Original, PendingList};
use sync_store::Store;
use sync_subset::Subset;

/// The most changes of an Upload, and the most bytes of their bodies together (docs/FORMATS.md, "Messages").
const MOST_CHANGES: usize = 4_096;

const MOST_BYTES: usize = 16_777_216;

impl<D: Disk> Client<D> {
    ghost use Rattle.sync_client.specs.Clients.{IsClientOf, is_closed, journal_of, replica_of};
    ghost use Rattle.sync_client.specs.Sending.{Sends};

    /// The message that asks for an ident. It takes no memory. Errors: Closed, NotBorn.
    pub fn bind(&self) -> Result<Message, ClientRefusal>
        ensures step { (records : List model.ClientRecord) → IsClientOf records self.now → Sends (model.bind (model.client_of the_profile records)) result }
        ensures closed { IsErrOf result ClientRefusal.Closed ↔ (is_closed self.now ≡ true) }
        ensures memory { IsErrOf result ClientRefusal.NoMemory → ⊥ }
    {
        if self.journal.is_closed() {
            return Err(ClientRefusal::Closed);
        }
        match self.replica.id {
            Some(uuid) => Ok(Message::Bind { uuid }),
            None => Err(ClientRefusal::NotBorn),
        }
    }

    /// The message that asks for the history from the cursor on, and tells the base of the oldest unsent changeset, or the
    /// cursor where there is none; in form 2 the second kind of it, and where the client subscribed to tables, the third. Only
    /// that one takes memory. Errors: Closed, NotBorn, NotNamed, NoMemory; none changes anything.
    pub fn ask(&self) -> Result<Message, ClientRefusal>
        ensures step { (records : List model.ClientRecord) → IsClientOf records self.now → Sends (model.ask (model.client_of the_profile records)) result }
        ensures closed { IsErrOf result ClientRefusal.Closed ↔ (is_closed self.now ≡ true) }
        ensures memory { IsErrOf result ClientRefusal.NoMemory → (replica_of self.now).subset ≡ None → ⊥ }
    {
        if self.journal.is_closed() {
            return Err(ClientRefusal::Closed);
        }
        if self.replica.id.is_none() {
            return Err(ClientRefusal::NotBorn);
        }
        if self.replica.ident == 0 {
            return Err(ClientRefusal::NotNamed);
        }
        let ask = Ask::new(
            self.replica.ident,
            self.replica.cursor,
            self.replica.settled(),
        );
        match &self.replica.subset {
            Some(tables) => self.ask_for(ask, tables),
            None => {
                if self.replica.second {
                    Ok(Message::Ask2(ask))
                } else {
                    Ok(Message::Ask(ask))
                }
            }
        }
    }

    /// The question for these tables.
    fn ask_for(&self, ask: Ask, tables: &Subset) -> Result<Message, ClientRefusal>
        ensures asked { IfOk result (λ m. message_seen m ≡ sent.AskTables ask.ident ask.cursor ask.settled (replica_of self.now).second tables.now) }
        ensures memory { IfErr result (λ why. why ≡ ClientRefusal.NoMemory) }
    {
        let form = if self.replica.second { 2 } else { 1 };
        match tables.copy() {
            Ok(tables) => Ok(Message::AskTables(AskTables::new(ask, form, tables))),
            Err(_) => Err(ClientRefusal::NoMemory),
        }
    }

    /// The message with the originals of the longest beginning of the unsent changesets that has at most 4,096 of them, whose
    /// bytes are at most 16,777,216 together. Errors: Closed, NotBorn, NotNamed, NoMemory; none changes anything.
    pub fn upload(&self) -> Result<Message, ClientRefusal>
        ensures step { (records : List model.ClientRecord) → IsClientOf records self.now → Sends (model.upload the_profile (model.client_of the_profile records)) result }
        ensures closed { IsErrOf result ClientRefusal.Closed ↔ (is_closed self.now ≡ true) }
    {
        self.upload_from(0)
    }

    /// The same of the unsent changesets with a number above this one. Errors: Closed, NotBorn, NotNamed, NoMemory; none
    /// changes anything.
    pub fn upload_from(&self, after: u32) -> Result<Message, ClientRefusal>
        ensures step { (records : List model.ClientRecord) → IsClientOf records self.now → Sends (model.upload_from the_profile (model.client_of the_profile records) after) result }
        ensures closed { IsErrOf result ClientRefusal.Closed ↔ (is_closed self.now ≡ true) }
    {
        if self.journal.is_closed() {
            return Err(ClientRefusal::Closed);
        }
        if self.replica.id.is_none() {
            return Err(ClientRefusal::NotBorn);
        }
        if self.replica.ident == 0 {
            return Err(ClientRefusal::NotNamed);
        }
        match changes_of(self.alloc, &self.replica.unsent, after) {
            Ok(changes) => Ok(Message::Upload(Upload::new(self.replica.ident, changes))),
            Err(_) => Err(ClientRefusal::NoMemory),
        }
    }

    /// The objects: the state at the cursor, on which the unsent changesets have acted.
    pub fn objects(&self) -> &Store
        ensures { (records : List model.ClientRecord) → IsClientOf records self.now → result.now ≡ (model.client_of the_profile records).objects }
    {
        &self.replica.objects
    }

    /// How many entries of the history the client has taken.
    pub fn cursor(&self) -> u32
        ensures { (records : List model.ClientRecord) → IsClientOf records self.now → result ≡ (model.client_of the_profile records).cursor }
    {
        self.replica.cursor
    }

    /// The client's uuid; none where it isn't born.
    pub fn id(&self) -> Option<Id>
        ensures kept { result ≡ (replica_of self.now).id }
        ensures is { (records : List model.ClientRecord) → IsClientOf records self.now → result ≡ (model.client_of the_profile records).id }
    {
        self.replica.id
    }

    /// The client's ident, or 0 where it has none.
    pub fn ident(&self) -> Ident
        ensures { (records : List model.ClientRecord) → IsClientOf records self.now → result ≡ (model.client_of the_profile records).ident }
    {
        self.replica.ident
    }

    /// The number of the last changeset that the client made, or 0.
    pub fn last(&self) -> u32
        ensures { (records : List model.ClientRecord) → IsClientOf records self.now → result ≡ model.last (model.client_of the_profile records) }
    {
        self.replica.count
    }

    /// How many changesets are unsent.
    pub fn unsent(&self) -> u32
        ensures { (records : List model.ClientRecord) → IsClientOf records self.now → result ≡ length (model.client_of the_profile records).unsent }
    {
        self.replica.unsent.len().min(u32::MAX as usize) as u32
    }

    /// The disk, handed back.
    pub fn into_disk(self) -> D
        ensures { result ≡ disk_of (journal_of self) }
    {
        self.journal.into_disk()
    }
}

impl Replica {
    /// The base of the oldest unsent changeset, or the cursor where there is none.
    fn settled(&self) -> u32
        ensures within { result ≤ self.now.cursor }
        ensures value { result ≡ min (model.settled_from self.now.cursor self.now.unsent) self.now.cursor }
    {
        match self.unsent.get(0) {
            Some(unsent) => unsent.base().min(self.cursor),
            None => self.cursor,
        }
    }
}

/// The originals with a number above this one that an Upload may bear.
fn changes_of(alloc: Global, unsent: &PendingList, after: u32) -> Result<Vec<Change>, NoMemory>
    ensures few { IfOk result (λ changes. length changes.items ≤ most_listed) }
    ensures small { IfOk result (λ changes. bytes_of_changes changes.items ≤ most_bytes) }
    ensures listed { IfOk result (λ changes. map change_seen changes.items ≡ uploaded (model.unsent_above after unsent.now)) }
{
    let mut changes = Vec::new(alloc);
    let mut room: usize = MOST_BYTES;
    for place in 0..unsent.len() {
        let Some(item) = unsent.get(place) else {
            return Ok(changes);
        };
        let number = item.number();
        if number <= after {
            continue;
        }
        if changes.len() == MOST_CHANGES {
            return Ok(changes);
        }
        let Ok(body) = encode(alloc, item.changes()) else {
            return Err(NoMemory);
        };
        let size = body.len();
        if size > room {
            return Ok(changes);
        }
        room -= size;
        let change = change_of(alloc, item, body.as_slice())?;
        push(&mut changes, change)?;
    }
    Ok(changes)
}

fn change_of(alloc: Global, item: &Original, body: &[u8]) -> Result<Change, NoMemory>
    requires { length body.now ≤ most_bytes }
    ensures { IfOk result (λ change. change_seen change ≡ record { number = item.now.number; base = item.now.base; ms = item.now.ms; body = body.now }) }
{
    let body = Blob::new(alloc, body)?;
    Ok(Change::new(item.number(), item.base(), item.changes().ms(), body))
}

fn push<T: Drop>(items: &mut Vec<T>, item: T) -> Result<(), NoMemory>
    ensures { OnOk result (items.new.items ≡ items.old.items ++ item ∷ []) }
{
    match items.push(item) {
        Ok(()) => Ok(()),
        Err(_) => Err(NoMemory),
    }
}
