ghost use Rattle.std.specs.Option.{is_some};
ghost use Rattle.sync_messages.specs.declared.message.Message.TheVariants as messages;
ghost use Rattle.std.specs.Prelude.{◌≡◌, ◌⊎◌, IsTrue, length, drop, ◌+◌, ◌<◌, ◌≤◌, ◌∷◌, [], ℕ, List, map, IsErrOf, IfErr, OnOk, OnErr, Some, true, false};
ghost use Rattle.sync_model.specs.Clients as model;
ghost use Rattle.sync_exchange.specs.Profile.{the_profile};
ghost use Rattle.sync_exchange.specs.Seen.{message_seen, sent_seen};

use crate::client::Client;
use crate::refusal::ClientRefusal;
use sync_data::{Blob, Id, Ident};
use sync_disk::Disk;
use sync_messages::{Download, Message, Sent};
use sync_records::{ClientRecord, Named};

impl<D: Disk> Client<D> {
    ghost use Rattle.sync_client.specs.Clients.{Appends, Closes, IsClientOf, IsStored, Says, Survives, UsesDisk, is_closed, replica_of};
    ghost use Rattle.sync_client.specs.Taking.{SentSays};

    /// Takes a message; answers the cursor. An Ident, where the client has none; a Download from at most the cursor on, whose
    /// entries below the cursor are skipped, and the others taken in order. Errors, in this order: Closed, NotBorn, and by the
    /// kind of the message NotMine, IdentDiffers, WasRefused, Gap, BadBody, OldEntry, Forked, Mismatch, NotApplicable; and
    /// DiskFault, NoMemory. Where an entry is refused, the client stands as after the entries before it.
    pub fn take(&mut self, message: Message) -> Result<u32, ClientRefusal>
        ensures does { (records : List model.ClientRecord) → IsClientOf records self.old → Says (model.take the_profile (model.client_of the_profile records) (message_seen message)) records self.new result }
        ensures survives { (records : List model.ClientRecord) → IsClientOf records self.old → IsStored records self.old → Survives (model.take the_profile (model.client_of the_profile records) (message_seen message)) records self.old self.new result }
        ensures closes { Closes self.old self.new result }
        ensures disk { UsesDisk (IsErrOf result ClientRefusal.DiskFault) self.old self.new }
    {
        if self.journal.is_closed() {
            return Err(ClientRefusal::Closed);
        }
        let Some(id) = self.replica.id else {
            return Err(ClientRefusal::NotBorn);
        };
        let taken = self.take_message(id, &message);
        drop(message);
        taken
    }

    fn take_message(&mut self, id: Id, message: &Message) -> Result<u32, ClientRefusal>
        requires open_ { is_closed self.old ≡ false }
        requires born { (replica_of self.old).id ≡ Some id }
        ensures does { (records : List model.ClientRecord) → IsClientOf records self.old → Says (model.take_born the_profile (model.client_of the_profile records) (message_seen message.now) id) records self.new result }
        ensures survives { (records : List model.ClientRecord) → IsClientOf records self.old → IsStored records self.old → Survives (model.take_born the_profile (model.client_of the_profile records) (message_seen message.now) id) records self.old self.new result }
        ensures closes { Closes self.old self.new result }
        ensures disk { UsesDisk (IsErrOf result ClientRefusal.DiskFault) self.old self.new }
    {
        match message {
            Message::Ident(given) => {
                if given.uuid() == id {
                    self.take_ident(given.ident())
                } else {
                    Err(ClientRefusal::NotMine)
                }
            }
            Message::Stored(stored) => {
                if stored.ident() == self.replica.ident {
                    Ok(self.replica.cursor)
                } else {
                    Err(ClientRefusal::NotMine)
                }
            }
            Message::Refused {
                ident,
                number,
                code,
                place: _,
            } => {
                if *ident == self.replica.ident {
                    Err(ClientRefusal::WasRefused {
                        number: *number,
                        code: *code,
                    })
                } else {
                    Err(ClientRefusal::NotMine)
                }
            }
            Message::Download(download) => self.take_download(download),
            Message::Bind { uuid: _ }
            | Message::Upload(_)
            | Message::Ask(_)
            | Message::Ask2(_)
            | Message::Retire(_)
            | Message::Retired(_)
            | Message::AskTables(_) => Err(ClientRefusal::NotMine),
        }
    }

    /// The client keeps the first ident that it gets.
    fn take_ident(&mut self, ident: Ident) -> Result<u32, ClientRefusal>
        requires open_ { is_closed self.old ≡ false }
        requires named { 1 ≤ ident }
        ensures does { (records : List model.ClientRecord) → IsClientOf records self.old → IsTrue (is_some (replica_of self.old).id) → Says (model.take_ident (model.client_of the_profile records) ident) records self.new result }
        ensures survives { (records : List model.ClientRecord) → IsClientOf records self.old → IsStored records self.old → Survives (model.take_ident (model.client_of the_profile records) ident) records self.old self.new result }
        ensures closes { Closes self.old self.new result }
        ensures disk { UsesDisk (IsErrOf result ClientRefusal.DiskFault) self.old self.new }
    {
        if self.replica.ident == ident {
            return Ok(self.replica.cursor);
        }
        if self.replica.ident != 0 {
            return Err(ClientRefusal::IdentDiffers {
                kept: self.replica.ident,
                got: ident,
            });
        }
        self.append(&ClientRecord::Named(Named::new(ident)))?;
        self.replica.ident = ident;
        Ok(self.replica.cursor)
    }

    fn take_download(&mut self, download: &Download) -> Result<u32, ClientRefusal>
        requires { is_closed self.old ≡ false }
        ensures does { (records : List model.ClientRecord) → IsClientOf records self.old → (id : List ℕ) → Says (model.take_born the_profile (model.client_of the_profile records) (message_seen (messages.Download download.now)) id) records self.new result }
        ensures survives { (records : List model.ClientRecord) → IsClientOf records self.old → IsStored records self.old → (id : List ℕ) → Survives (model.take_born the_profile (model.client_of the_profile records) (message_seen (messages.Download download.now)) id) records self.old self.new result }
        ensures closes { Closes self.old self.new result }
        ensures disk { UsesDisk (IsErrOf result ClientRefusal.DiskFault) self.old self.new }
    {
        if download.ident() != self.replica.ident {
            return Err(ClientRefusal::NotMine);
        }
        if self.replica.cursor < download.from() {
            return Err(ClientRefusal::Gap {
                cursor: self.replica.cursor,
                from: download.from(),
            });
        }
        let skipped = (self.replica.cursor - download.from()) as usize;
        self.take_all(behind(download.entries(), skipped))
    }

    /// Takes entries up to the first that is refused; answers the cursor.
    fn take_all(&mut self, entries: &[Sent]) -> Result<u32, ClientRefusal>
        requires open_ { is_closed self.old ≡ false }
        requires named { 1 ≤ (replica_of self.old).ident }
        requires room { (replica_of self.old).cursor + length entries.now ≤ 4294967295 }
        ensures does { (records : List model.ClientRecord) → IsClientOf records self.old → Says (model.take_entries the_profile (model.client_of the_profile records) (map sent_seen entries.now)) records self.new result }
        ensures survives { (records : List model.ClientRecord) → IsClientOf records self.old → IsStored records self.old → Survives (model.take_entries the_profile (model.client_of the_profile records) (map sent_seen entries.now)) records self.old self.new result }
        ensures closes { Closes self.old self.new result }
        ensures disk { UsesDisk (IsErrOf result ClientRefusal.DiskFault) self.old self.new }
    {
        for sent in entries {
            self.take_sent(sent)?;
        }
        Ok(self.replica.cursor)
    }

    /// Takes an entry of a Download, whose version is the cursor, and records it.
    fn take_sent(&mut self, sent: &Sent) -> Result<(), ClientRefusal>
        requires open_ { is_closed self.old ≡ false }
        requires room { (replica_of self.old).cursor < 4294967295 }
        requires named { 1 ≤ (replica_of self.old).ident }
        ensures does { (records : List model.ClientRecord) → IsClientOf records self.old → SentSays records self.new (sent_seen sent.now) result }
        ensures survives { (records : List model.ClientRecord) → IsClientOf records self.old → IsStored records self.old → Survives (model.take_entries the_profile (model.client_of the_profile records) (sent_seen sent.now ∷ [])) records self.old self.new result }
        ensures cursor { OnOk result ((replica_of self.new).cursor ≡ (replica_of self.old).cursor + 1) }
        ensures ident { OnOk result ((replica_of self.new).ident ≡ (replica_of self.old).ident) }
        ensures stays_open { OnOk result (is_closed self.new ≡ false) }
        ensures closes { Closes self.old self.new result }
        ensures disk { UsesDisk (IsErrOf result ClientRefusal.DiskFault) self.old self.new }
    {
        match self.replica.take_entry(
            self.alloc,
            sent.origin(),
            sent.number(),
            sent.ms(),
            sent.body(),
        ) {
            Ok(()) => {}
            Err(refusal) => return Err(self.refused(refusal)),
        }
        self.append_took(sent)
    }

    /// The record of an entry that was taken.
    fn append_took(&mut self, sent: &Sent) -> Result<(), ClientRefusal>
        requires { is_closed self.old ≡ false }
        ensures appends { Appends (model.took (sent_seen sent.now) ∷ []) self.old self.new result }
        ensures replica { replica_of self.new ≡ replica_of self.old }
        ensures stays_open { OnOk result (is_closed self.new ≡ false) }
        ensures closes { OnErr result (is_closed self.new ≡ true) }
        ensures refused { IfErr result (λ why. (why ≡ ClientRefusal.DiskFault) ⊎ (why ≡ ClientRefusal.NoMemory)) }
        ensures disk { UsesDisk (IsErrOf result ClientRefusal.DiskFault) self.old self.new }
    {
        let Ok(body) = Blob::new(self.alloc, sent.body()) else {
            self.journal.close();
            return Err(ClientRefusal::NoMemory);
        };
        self.append(&ClientRecord::Took {
            origin: sent.origin(),
            number: sent.number(),
            ms: sent.ms(),
            body,
        })
    }
}

/// The entries behind so many.
fn behind(entries: &[Sent], skipped: usize) -> &[Sent]
    ensures { result.now ≡ drop skipped entries.now }
{
    if skipped < entries.len() {
        &entries[skipped..]
    } else {
        &[]
    }
}
